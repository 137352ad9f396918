ghost use Rattle.std.specs.Prelude.{◌<◌, length};

use crate::expr::read_expr;
use crate::numbers::read_int;
use kom_parse::Reader;
use kom_text::{Tokens, tokens};
use std::test::Fail;

/// Whether an expression was read, and how many tokens were left.
fn read(rt: &HostRuntime, text: &[u8]) -> Option<(bool, usize)>
    requires { length text.now < 1000 }
{
    let Tokens::List(list) = tokens(rt.alloc(), text) else {
        return None;
    };
    let mut reader = Reader::new(rt.alloc(), text, list.as_slice());
    let is_read = read_expr(&mut reader).is_ok();
    Some((is_read, reader.left()))
}

#[test]
fn reads_as_far_as_it_goes_on(rt: HostRuntime) {
    let cases: [(&[u8], bool, usize); 9] = [
        (b"a - b - c ;", true, 1),
        (b"1 < 2 < 3", true, 2),
        (b"( ( 1 )", false, 0),
        (b"it . x && ! - y || 1 }", true, 1),
        (b"it x", false, 1),
        (b"on", false, 1),
        (b"1 + ;", false, 1),
        (b"", false, 0),
        (b"answer", true, 0),
    ];
    for (text, is_read, left) in cases {
        assert!(rt; text.len() < 1000);
        assert_eq!(rt; read(&rt, text), Some((is_read, left)));
    }
}

#[test]
fn counts_operators(rt: HostRuntime) -> Result<(), Fail> {
    for (operators, is_read, left) in [(32, true, 0), (33, false, 2)] {
        let mut text = Vec::new(rt.alloc());
        for _ in 0..operators {
            text.extend_from_slice(b"1 + ")?;
        }
        text.extend_from_slice(b"1")?;
        assert!(rt; text.len() < 1000);
        assert_eq!(rt; read(&rt, text.as_slice()), Some((is_read, left)));
    }
    Ok(())
}

#[test]
fn counts_parentheses(rt: HostRuntime) -> Result<(), Fail> {
    for (parens, is_read, left) in [(64, true, 0), (65, false, 2)] {
        let mut text = Vec::new(rt.alloc());
        for _ in 0..parens {
            text.extend_from_slice(b"( ")?;
        }
        text.extend_from_slice(b"1 ")?;
        if is_read {
            for _ in 0..parens {
                text.extend_from_slice(b") ")?;
            }
        }
        assert!(rt; text.len() < 1000);
        assert_eq!(rt; read(&rt, text.as_slice()), Some((is_read, left)));
    }
    Ok(())
}

/// The number that was read, and how many tokens were left.
fn read_number(rt: &HostRuntime, text: &[u8]) -> Option<(Option<i64>, usize)>
    requires { length text.now < 1000 }
{
    let Tokens::List(list) = tokens(rt.alloc(), text) else {
        return None;
    };
    let mut reader = Reader::new(rt.alloc(), text, list.as_slice());
    let number = read_int(&mut reader).ok();
    Some((number, reader.left()))
}

#[test]
fn reads_numbers_with_a_sign(rt: HostRuntime) {
    let cases: [(&[u8], Option<i64>, usize); 5] = [
        (b"007 ;", Some(7), 1),
        (b"- 7", Some(-7), 0),
        (b"-9223372036854775807", Some(-9223372036854775807), 0),
        (b"- - 1", None, 2),
        (b"x", None, 1),
    ];
    for (text, number, left) in cases {
        assert!(rt; text.len() < 1000);
        assert_eq!(rt; read_number(&rt, text), Some((number, left)));
    }
}
