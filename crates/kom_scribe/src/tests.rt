use crate::{Draft, Known};
use kom_trees::{Node, SlotOf};
use std::alloc::{AllocError, Global};
use std::process::Abort;
use std::test::Fail;

const FIRST: SlotOf = SlotOf { comp: 0, slot: 1 };

const OTHER: SlotOf = SlotOf { comp: 0, slot: 2 };

// two instances in slots of the first one, of which one is gone
fn draft(alloc: Global) -> Result<Draft, AllocError> {
    let mut draft = Draft::new(alloc);
    let in_first = Node {
        kind: 4,
        at: Some(FIRST),
    };
    let in_other = Node {
        kind: 5,
        at: Some(OTHER),
    };
    draft.add_nodes(&[in_first, in_other])?;
    draft.add_gone(FIRST)?;
    Ok(draft)
}

#[test]
fn a_slot_is_empty_after_its_occupant(rt: HostRuntime) -> Result<(), Fail> {
    let known = Known::new(rt.alloc());
    let draft = draft(rt.alloc())?;
    assert_eq!(rt; known.count(&draft), 2);
    assert_eq!(rt; known.occupant(&draft, FIRST), None);
    assert_eq!(rt; known.occupant(&draft, OTHER), Some(1));
    Ok(())
}
