use crate::make::{make_scenario, make_system};
use std::test::Fail;

fn line_of(text: &str, number: usize) -> &str {
    text.lines().nth(number).unwrap_or("")
}

#[test]
fn makes_a_ring_of_two(rt: HostRuntime) -> Result<(), Fail> {
    let bytes = make_system(rt.alloc(), 2)?;
    let text = std::str::from_utf8(bytes.as_slice()).map_err(|_| Fail::from("no text"))?;
    assert_eq!(rt; line_of(text, 0), "system 1;");
    assert_eq!(rt; line_of(text, 15), "  slot r0 : Relay();");
    assert_eq!(rt; line_of(text, 16), "  slot r1 : Relay();");
    assert_eq!(rt;
        line_of(text, 18),
        "  channel c0 : Ring from r0.right to r1.left;"
    );
    assert_eq!(rt;
        line_of(text, 19),
        "  channel c1 : Ring from r1.right to r0.left;"
    );
    assert_eq!(rt; line_of(text, 22), "    hold inlet; hold c1; hold c0;");
    assert_eq!(rt; text.lines().count(), 40);
    Ok(())
}

#[test]
fn makes_a_load_for_thirty(rt: HostRuntime) -> Result<(), Fail> {
    let text = make_scenario(rt.alloc(), 30)?;
    let want =
        b"scenario 1;\nseed 30;\nprocess tokens at 0 { count 3000; gap 1 1; raise Tok(20) at feed; }\nprocess swaps at 10 { count 299; gap 10 10; raise Swap() at cmd; }\n";
    assert_eq!(rt; text.as_slice(), want.as_slice());
    Ok(())
}
