use crate::text::{PartsRead, read_parts};

/// Rule and place of a refusal; rule 0 where the text is read.
fn rule(rt: &HostRuntime, text: &[u8]) -> Option<(u8, u32)> {
    if text.len() > 1000 {
        return None;
    }
    match read_parts(rt.alloc(), text) {
        PartsRead::Parts(_) => Some((0, 0)),
        PartsRead::Refused { rule, at } => Some((rule, at)),
        PartsRead::Memory => None,
    }
}

#[test]
fn names_the_rule_and_the_place(rt: HostRuntime) {
    let cases: [(&[u8], u8, u32); 28] = [
        (b"system 1; component Main { } root Main();", 0, 0),
        (b"system 2;", 0, 0),
        (b"", 4, 0),
        (b"  # nothing\n", 4, 12),
        (b"System 1;", 4, 0),
        (b"system 01;", 4, 7),
        (b"system 3;", 4, 7),
        (b"system", 4, 6),
        (b"system 2 root", 4, 9),
        (b"system 1; @", 2, 10),
        (b"system 1; root M(9223372036854775807);", 0, 0),
        (b"system 1; root M(9223372036854775808);", 3, 17),
        (b"system 1; ;", 5, 10),
        (b"system 1; root M()", 5, 18),
        (b"system 1; event E(a, b);", 0, 0),
        (b"system 1; event E : F(a,);", 5, 24),
        (b"system 1; event root();", 5, 16),
        (b"system 1; port P { plus E; minus F; plus G; }", 0, 0),
        (b"system 1; port P { E; }", 5, 19),
        (
            b"system 1; component C { var v = 1; on start as h { v = v + 1; } }",
            0,
            0,
        ),
        (b"system 1; component C { var v = 1 }", 5, 34),
        (
            b"system 1; component C { on fault(s, n) as h { escalate; } }",
            5,
            54,
        ),
        (
            b"system 2; component C { on fault(s, n) as h { escalate; } }",
            0,
            0,
        ),
        (
            b"system 1; component C { channel k : P from free to free plus when E.x > 1 && E.x < 2; }",
            5,
            74,
        ),
        (
            b"system 2; component C { channel k : P from free to free plus when E.x > 1 && E.x < 2; }",
            0,
            0,
        ),
        (b"system 1; component C { on E at p as h { fail 1; }", 5, 50),
        (b"system 1; root C(-1, 2); root D();", 0, 0),
        (b"system 1; root C(x);", 5, 17),
    ];
    for (text, number, at) in cases {
        assert_eq!(rt; rule(&rt, text), Some((number, at)));
    }
}

#[test]
fn keeps_what_is_declared(rt: HostRuntime) {
    let text =
        b"system 2; event E(); root M(); port P { minus E; plus E; } component M { slot s; var v = 7; slot t; }";
    match read_parts(rt.alloc(), text) {
        PartsRead::Parts(parts) => {
            assert_eq!(rt; parts.version, 2);
            assert_eq!(rt; parts.end, 101);
            assert_eq!(rt; parts.events.len(), 1);
            assert_eq!(rt; parts.ports.len(), 1);
            match (parts.roots.get(0), parts.components.get(0)) {
                (Some(root), Some(kind)) => {
                    assert_eq!(rt; root.at, 21);
                    assert_eq!(rt; kind.name.at, 69);
                    assert_eq!(rt; kind.slots.len(), 2);
                    assert_eq!(rt; kind.vars.len(), 1);
                }
                _ => assert!(rt; false, "the declarations are there"),
            }
        }
        _ => assert!(rt; false, "the text is read"),
    }
}
