use crate::{Earliest, NameSet};
use std::test::Fail;

#[test]
fn numbers_names(rt: HostRuntime) -> Result<(), Fail> {
    let mut names = NameSet::new(rt.alloc());
    names.add(rt.alloc(), b"one")?;
    names.add(rt.alloc(), b"two")?;
    names.add(rt.alloc(), b"one")?;
    assert_eq!(rt; names.len(), 2);
    assert_eq!(rt; names.number(b"two"), Some(1));
    assert_eq!(rt; names.number(b"three"), None);
    names.truncate(1);
    assert!(rt; names.holds(b"one") && !names.holds(b"two"));
    Ok(())
}

#[test]
fn keeps_the_least_place(rt: HostRuntime) -> Result<(), Fail> {
    let mut places = Earliest::new(rt.alloc());
    places.note(rt.alloc(), b"a", 7)?;
    places.note(rt.alloc(), b"b", 9)?;
    places.note(rt.alloc(), b"a", 3)?;
    places.note(rt.alloc(), b"a", 5)?;
    assert_eq!(rt; places.place(b"a"), Some(3));
    assert_eq!(rt; places.place(b"b"), Some(9));
    assert_eq!(rt; places.place(b"c"), None);
    Ok(())
}
