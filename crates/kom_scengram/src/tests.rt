use crate::text::read_scenario_parts;
use kom_files::FileRead;

/// Rule and place of a refusal; rule 0 where the text is read.
fn rule(rt: &HostRuntime, text: &[u8]) -> Option<(u8, u32)> {
    if text.len() > 1000 {
        return None;
    }
    match read_scenario_parts(rt.alloc(), text) {
        FileRead::Tree(_) => Some((0, 0)),
        FileRead::Refused { rule, at } => Some((rule, at)),
        FileRead::Memory => None,
    }
}

#[test]
fn names_the_rule_and_the_place(rt: HostRuntime) {
    let cases: [(&[u8], u8, u32); 26] = [
        (b"scenario 1;", 0, 0),
        (b"scenario 1; steps 10;", 0, 0),
        (b"scenario 1; seed 42; network 7 7;", 0, 0),
        (b"", 4, 0),
        (b" # nothing\n", 4, 11),
        (b"system 1;", 4, 0),
        (b"scenario 01;", 4, 9),
        (b"scenario 2;", 4, 9),
        (b"scenario 1 at", 4, 11),
        (b"scenario 1; $", 2, 12),
        (b"scenario 1; seed 9223372036854775808;", 3, 17),
        (b"scenario 1;\nat 0 rai", 5, 17),
        (b"scenario 1; at 0 raise at(at) at at;", 5, 26),
        (
            b"scenario 1; at 0 raise at(-1, index, draw 1 2) at at;",
            0,
            0,
        ),
        (b"scenario 1; at 0 raise a(1,) at b;", 5, 27),
        (b"scenario 1; at 0 raise a() at b; seed 1;", 5, 33),
        (b"scenario 1; at 0 raise a() at b", 5, 31),
        (b"scenario 1; network 1;", 5, 21),
        (
            b"scenario 1; process a at 1 { count 2; gap 3 4; raise a() at b; }",
            0,
            0,
        ),
        (
            b"scenario 1; process process after end of end by 2 { count 2; gap 3 4; raise raise() at b; }",
            0,
            0,
        ),
        (
            b"scenario 1; process a after middle of b by 2 { count 2; gap 3 4; raise a() at b; }",
            5,
            28,
        ),
        (b"scenario 1; process a at 1 { gap 3 4; }", 5, 29),
        (
            b"scenario 1; process a at 1 { count 2; gap 3 4; raise a() at b; };",
            5,
            64,
        ),
        (b"scenario 1; at -1 raise a() at b;", 5, 15),
        (b"scenario 1; seed 1; seed 2; steps 0;", 0, 0),
        (b"scenario 1; at 0 raise a(draw 1) at b;", 5, 31),
    ];
    for (text, number, at) in cases {
        assert_eq!(rt; rule(&rt, text), Some((number, at)));
    }
}
