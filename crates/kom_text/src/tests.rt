ghost use Rattle.std.specs.Prelude.{◌<◌, length};

use crate::lexer::tokens;
use crate::number::number_value;
use crate::place::place_of;
use crate::token::{TokenKind, Tokens};
use std::test::Fail;

/// What `tokens` answers, as text: kinds and spans, or the place of a refusal.
fn told(rt: &HostRuntime, text: &[u8]) -> Result<String, Fail>
    requires { length text.now < 100 }
{
    let alloc = rt.alloc();
    match tokens(alloc, text) {
        Tokens::List(list) => {
            let mut all = String::new(alloc);
            for token in &list {
                let kind = match token.kind {
                    TokenKind::Word => "word",
                    TokenKind::Number => "number",
                    TokenKind::Sign => "sign",
                };
                let from = token.from;
                let until = token.until;
                all.push_str(format!(in alloc; "{kind} {from} {until};")?.as_str())?;
            }
            Ok(all)
        }
        Tokens::BadByte { at } => Ok(format!(in alloc; "bad {at}")?),
        Tokens::NumberTooBig { at } => Ok(format!(in alloc; "big {at}")?),
        Tokens::Memory => Ok(format!(in alloc; "memory")?),
    }
}

#[test]
fn cuts_the_longest_each_time(rt: HostRuntime) -> Result<(), Fail> {
    let cases: [(&[u8], &str); 11] = [
        (b"", ""),
        (b" \t\r\n# all\x00 \xff", ""),
        (b"a_1 12b", "word 0 3;number 4 6;word 6 7;"),
        (b"<==", "sign 0 2;sign 2 3;"),
        (
            b"a&&b||!c",
            "word 0 1;sign 1 3;word 3 4;sign 4 6;sign 6 7;word 7 8;",
        ),
        (b"x # y\nz", "word 0 1;word 6 7;"),
        (b"9223372036854775807 00", "number 0 19;number 20 22;"),
        (b"1 9223372036854775808 99999999999999999999", "big 2"),
        (b"99999999999999999999 & 1", "bad 21"),
        (b"a | b", "bad 2"),
        (b"a \xc3", "bad 2"),
    ];
    for (text, want) in cases {
        assert!(rt; text.len() < 100);
        let got = told(&rt, text)?;
        assert_eq!(rt; got.as_str(), want);
    }
    Ok(())
}

#[test]
fn finds_places(rt: HostRuntime) {
    let text = b"ab\n\ncd\n";
    assert_eq!(rt; place_of(text, 0), (1, 1));
    assert_eq!(rt; place_of(text, 2), (1, 3));
    assert_eq!(rt; place_of(text, 5), (3, 2));
    assert_eq!(rt; place_of(text, 7), (4, 1));
}

#[test]
fn reads_numbers(rt: HostRuntime) {
    assert_eq!(rt; number_value(b"0012"), Some(12));
    assert_eq!(rt;
        number_value(b"9223372036854775807"),
        Some(9223372036854775807)
    );
    assert_eq!(rt; number_value(b"9223372036854775808"), None);
}
