use crate::{Text, add_head, add_number_or_none, add_unreached};
use kom_base::{Comp, Values};
use kom_record::Places;
use std::alloc::{AllocError, Global};
use std::process::Abort;
use std::test::Fail;

fn places(alloc: Global) -> Result<Places, AllocError> {
    let mut places = Places::new(alloc);
    places.push(4)?;
    Ok(places)
}

fn values(alloc: Global) -> Result<Values, AllocError> {
    let mut values = Values::new(alloc);
    values.push(-5)?;
    Ok(values)
}

#[test]
fn pieces_are_joined_by_spaces(rt: HostRuntime) -> Result<(), Fail> {
    let mut text = Text::new(rt.alloc());
    add_head(&mut text, 12, 0)?;
    text.add_dotted(b"k", b"plus")?;
    text.add_numbers(&values(rt.alloc())?)?;
    add_number_or_none(&mut text, Some(Comp(3)))?;
    add_number_or_none(&mut text, None)?;
    text.add(b"\n")?;
    add_unreached(&mut text, &places(rt.alloc())?)?;
    assert_eq!(rt;
        text.as_bytes(),
        b"12 0 k.plus -5 3 none\n  unreached 4\n".as_slice()
    );
    Ok(())
}
