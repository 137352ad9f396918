ghost use Rattle.std.specs.Prelude.{◌<◌, length};

use crate::stmt::read_block;
use kom_parse::Reader;
use kom_text::{Tokens, tokens};
use std::test::Fail;

/// Whether a block was read, and how many tokens were left.
fn read(rt: &HostRuntime, text: &[u8], two: bool) -> Option<(bool, usize)>
    requires { length text.now < 1000 }
{
    let Tokens::List(list) = tokens(rt.alloc(), text) else {
        return None;
    };
    let mut reader = Reader::new(rt.alloc(), text, list.as_slice());
    let is_read = read_block(&mut reader, two).is_ok();
    Some((is_read, reader.left()))
}

#[test]
fn reads_as_far_as_it_goes_on(rt: HostRuntime) {
    let cases: [(&[u8], bool, bool, usize); 26] = [
        (b"{ } }", false, true, 1),
        (b"{ let x = 1; x = x + 1; }", false, true, 0),
        (
            b"{ trigger E(1, x) at p; answer E(); answer = 2; }",
            false,
            true,
            0,
        ),
        (
            b"{ create s : C(1); create s : C from state; }",
            false,
            true,
            0,
        ),
        (
            b"{ start s; stop s; destroy s; dump s; hold k; resume k; }",
            false,
            true,
            0,
        ),
        (
            b"{ unplug k.plus; plug k.minus at self.p; plug k.plus at s.p; }",
            false,
            true,
            0,
        ),
        (b"{ subscribe h; unsubscribe h; fail 899; }", false, true, 0),
        (
            b"{ if x { } while x { } if x { } else { } }",
            false,
            true,
            0,
        ),
        (b"{ escalate; escalate = 1; }", true, true, 0),
        (b"{ escalate; }", false, false, 2),
        (b"{ escalate 1; }", true, false, 3),
        (b"{ answer; }", false, false, 2),
        (b"{ answer (1); }", false, false, 5),
        (b"{ let let = 1; }", false, false, 5),
        (b"{ x == 1; }", false, false, 4),
        (b"{ x = 1 }", false, false, 1),
        (b"{ trigger E(1,) at p; }", false, false, 5),
        (b"{ trigger E(1) p; }", false, false, 3),
        (b"{ create s : C from x; }", false, false, 3),
        (b"{ unplug k.at; }", false, false, 3),
        (b"{ plug k.plus at self; }", false, false, 2),
        (b"{ fail x; }", false, false, 3),
        (b"{ fail -1; }", false, false, 4),
        (b"{ if x { } else if x { } }", false, false, 5),
        (b"{ else { } }", false, false, 4),
        (b"{ x = 1;", false, false, 0),
    ];
    for (text, two, is_read, left) in cases {
        assert!(rt; text.len() < 1000);
        assert_eq!(rt; read(&rt, text, two), Some((is_read, left)));
    }
}

#[test]
fn counts_levels_of_blocks(rt: HostRuntime) -> Result<(), Fail> {
    for (ifs, is_read, left) in [(15, true, 0), (16, false, 4)] {
        let mut text = Vec::new(rt.alloc());
        text.extend_from_slice(b"{ ")?;
        for _ in 0..ifs {
            text.extend_from_slice(b"if 1 { ")?;
        }
        if is_read {
            for _ in 0..ifs {
                text.extend_from_slice(b"} ")?;
            }
            text.extend_from_slice(b"}")?;
        } else {
            text.extend_from_slice(b"}")?;
        }
        assert!(rt; text.len() < 1000);
        assert_eq!(rt; read(&rt, text.as_slice(), false), Some((is_read, left)));
    }
    Ok(())
}
