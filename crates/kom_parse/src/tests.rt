ghost use Rattle.std.specs.Prelude.{◌<◌, length};

use crate::reader::Reader;
use kom_text::{TokenKind, Tokens, tokens};
use std::test::Fail;

#[test]
fn reads_token_by_token(rt: HostRuntime) -> Result<(), Fail> {
    let text = b"let x = 007 ;";
    let Tokens::List(list) = tokens(rt.alloc(), text) else {
        return Ok(());
    };
    let mut reader = Reader::new(rt.alloc(), text, list.as_slice());
    assert_eq!(rt; reader.left(), 5);
    assert_eq!(rt; reader.word(b"let").ok(), Some(0));
    assert!(rt; reader.sign(b"=").is_err());
    let name = reader.any_word().map_err(|_| Fail::from("no word"))?;
    assert_eq!(rt; name.name.bytes(), b"x".as_slice());
    assert_eq!(rt; name.at, 4);
    assert!(rt; reader.any_word().is_err());
    assert!(rt; !reader.eat(TokenKind::Sign, b";"));
    assert!(rt; reader.eat(TokenKind::Sign, b"="));
    let number = reader.number().map_err(|_| Fail::from("no number"))?;
    assert_eq!(rt; number.value, 7);
    assert_eq!(rt; number.at, 8);
    assert!(rt; reader.sees(TokenKind::Sign, b";"));
    assert_eq!(rt; reader.sign(b";").ok(), Some(12));
    assert_eq!(rt; reader.left(), 0);
    Ok(())
}
