ghost use Rattle.std.specs.Prelude.{◌≡◌, ℕ, List, IfOk, slice_get};
ghost use Rattle.std.specs.Option.{option_copied};

use crate::numbers::Comp;
use crate::values::{Event, Values};
use sqlite_items::Items;
use std::alloc::{AllocError, Global};

/// A value of which an equal one can be made.
pub trait Copied {
    /// An equal value in memory of its own. The error is want of memory.
    fn copy(&self, alloc: Global) -> Result<Self, AllocError>
    where
        Self: Sized,
        ensures { IfOk result (λ c. c ≡ self.now) };
}

impl Copied for u8 {
    fn copy(&self, _alloc: Global) -> Result<u8, AllocError> {
        Ok(*self)
    }
}

impl Copied for u16 {
    fn copy(&self, _alloc: Global) -> Result<u16, AllocError> {
        Ok(*self)
    }
}

impl Copied for u32 {
    fn copy(&self, _alloc: Global) -> Result<u32, AllocError> {
        Ok(*self)
    }
}

impl Copied for Comp {
    fn copy(&self, _alloc: Global) -> Result<Comp, AllocError> {
        Ok(*self)
    }
}

impl<T: Copied> Copied for Option<T> {
    fn copy(&self, alloc: Global) -> Result<Option<T>, AllocError> {
        match self {
            Some(value) => Ok(Some(value.copy(alloc)?)),
            None => Ok(None),
        }
    }
}

impl Copied for Values {
    fn copy(&self, alloc: Global) -> Result<Values, AllocError> {
        Values::copy(self, alloc)
    }
}

impl Copied for Event {
    fn copy(&self, alloc: Global) -> Result<Event, AllocError> {
        Event::copy(self, alloc)
    }
}

impl<T: Copied + Drop> Copied for Items<T> {
    fn copy(&self, alloc: Global) -> Result<Items<T>, AllocError> {
        let mut copy = Items::new(alloc);
        for item in self.as_slice() {
            copy.push(item.copy(alloc)?)?;
        }
        Ok(copy)
    }
}

/// Reading a list by place.
pub trait At<T> {
    /// The list that the value stands for.

    ghost items: { Self → List T };

    /// The item at a place, from 0; `None` exactly where the place is not below the length. It
    /// takes no memory.
    fn at(&self, i: usize) -> Option<&T>
        ensures { option_copied result ≡ slice_get (items self.now) i };
}

impl<T> At<T> for Items<T> {
    ghost items = { λ list. list };

    fn at(&self, i: usize) -> Option<&T> {
        self.get(i)
    }
}

#[cfg(test)]
mod tests {
    use super::*;
    use std::test::Fail;

    #[test]
    fn copies_a_list(rt: HostRuntime) -> Result<(), Fail> {
        let mut list = Items::new(rt.alloc());
        list.push(Some(7u16))?;
        list.push(None)?;
        let copy = list.copy(rt.alloc())?;
        assert_eq!(rt; copy.as_slice(), list.as_slice());
        assert_eq!(rt; copy.at(0), Some(&Some(7)));
        assert_eq!(rt; copy.at(2), None);
        Ok(())
    }

    #[test]
    fn copies_events(rt: HostRuntime) -> Result<(), Fail> {
        let mut values = Values::new(rt.alloc());
        values.push(-5)?;
        values.push(6)?;
        values.set(1, 8);
        let mut events = Items::new(rt.alloc());
        events.push(Event { kind: 4, values })?;
        let copy = events.copy(rt.alloc())?;
        match copy.at(0) {
            Some(event) => {
                assert_eq!(rt; event.kind, 4);
                assert_eq!(rt; event.values.len(), 2);
                assert_eq!(rt; event.values.at(1), Some(8));
            }
            None => assert!(rt; false, "the event is there"),
        }
        Ok(())
    }
}
