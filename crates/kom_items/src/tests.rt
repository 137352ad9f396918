ghost use Rattle.std.specs.Prelude.{◌<◌, length};

use crate::items::read_item;
use kom_parse::Reader;
use kom_text::{Tokens, tokens};

/// Whether a declaration was read, and how many tokens were left.
fn read(rt: &HostRuntime, text: &[u8], two: bool) -> Option<(bool, usize)>
    requires { length text.now < 1000 }
{
    let Tokens::List(list) = tokens(rt.alloc(), text) else {
        return None;
    };
    let mut reader = Reader::new(rt.alloc(), text, list.as_slice());
    let is_read = read_item(&mut reader, two).is_ok();
    Some((is_read, reader.left()))
}

#[test]
fn reads_as_far_as_it_goes_on(rt: HostRuntime) {
    let cases: [(&[u8], bool, bool, usize); 12] = [
        (b"provides p : P; }", false, true, 1),
        (b"requires p : P;", false, true, 0),
        (b"var v; var w = -5;", false, true, 6),
        (b"var w = -5;", false, true, 0),
        (b"var w = - - 5;", false, false, 3),
        (b"slot s;", false, true, 0),
        (b"slot s : C(1, -2, 3);", false, true, 0),
        (b"slot s : C;", false, false, 1),
        (b"channel k : P from self.p to free;", false, true, 0),
        (
            b"channel k : P from a.p to b.q plus when E.x == 1 minus when E.y >= -2;",
            false,
            true,
            0,
        ),
        (
            b"channel k : P from a.p to b.q minus when E.y > 2 plus when E.x == 1;",
            false,
            false,
            8,
        ),
        (b"}", false, false, 1),
    ];
    for (text, two, is_read, left) in cases {
        assert!(rt; text.len() < 1000);
        assert_eq!(rt; read(&rt, text, two), Some((is_read, left)));
    }
}

#[test]
fn reads_handlers(rt: HostRuntime) {
    let cases: [(&[u8], bool, bool, usize); 12] = [
        (b"on E at p as h { }", false, true, 0),
        (b"on E at p as h off { }", false, true, 0),
        (b"on init(a, b) as h { }", false, true, 0),
        (b"on init(a, b) as h off { }", false, false, 3),
        (b"on init as h { }", false, false, 4),
        (b"on start as h off { } on", false, true, 1),
        (b"on stop as h { }", false, true, 0),
        (b"on fault(s, n) as h { }", false, true, 0),
        (b"on fault(s) as h { }", false, false, 5),
        (b"on dumped(s) as h { }", false, true, 0),
        (b"on dumped() as h { }", false, false, 5),
        (b"on E as h { }", false, false, 4),
    ];
    for (text, two, is_read, left) in cases {
        assert!(rt; text.len() < 1000);
        assert_eq!(rt; read(&rt, text, two), Some((is_read, left)));
    }
}

#[test]
fn joins_tests_in_version_two(rt: HostRuntime) {
    let text = b"channel k : P from a.p to b.q plus when E.x >= 1 && E.x <= 1 && E.y != 0;";
    assert_eq!(rt; read(&rt, text, true), Some((true, 0)));
    assert_eq!(rt; read(&rt, text, false), Some((false, 13)));
}
