use crate::{Block, Expr, Handler, Name, On, Slots, Stmt, Subs};
use kom_base::{At, Copied};
use std::test::Fail;

#[test]
fn keeps_the_bytes_of_a_name(rt: HostRuntime) -> Result<(), Fail> {
    let name = Name::of(rt.alloc(), b"left")?;
    assert_eq!(rt; name.bytes(), b"left".as_slice());
    assert_eq!(rt; name.copy(rt.alloc())?.bytes(), b"left".as_slice());
    Ok(())
}

#[test]
fn copies_blocks_in_blocks(rt: HostRuntime) -> Result<(), Fail> {
    let mut inner = Block::new(rt.alloc());
    inner.push(Stmt::Fail(7))?;
    let mut block = Block::new(rt.alloc());
    block.push(Stmt::While {
        test: Expr::Number(1),
        block: inner,
    })?;
    let handler = Handler {
        name: Name::of(rt.alloc(), b"go")?,
        on: On::Start,
        off: true,
        block,
    };
    let copy = handler.copy(rt.alloc())?;
    let Some(Stmt::While { block, .. }) = copy.block.at(0) else {
        assert!(rt; false, "a loop was copied");
        return Ok(());
    };
    assert!(rt; copy.off);
    assert_eq!(rt; block.len(), 1);
    assert!(rt; matches!(block.at(0), Some(Stmt::Fail(7))));
    Ok(())
}

#[test]
fn changes_lists_of_bodies(rt: HostRuntime) -> Result<(), Fail> {
    let mut slots = Slots::new(rt.alloc());
    slots.push(None)?;
    slots.set(0, Some(3));
    assert_eq!(rt; slots.at(0), Some(&Some(3)));
    let mut subs = Subs::new(rt.alloc());
    subs.push(4)?;
    subs.push(5)?;
    let gone = subs.remove(0);
    assert_eq!(rt; gone, 4);
    assert_eq!(rt; subs.copy(rt.alloc())?.as_slice(), [5].as_slice());
    Ok(())
}
