ghost use Rattle.std.specs.Prelude.{◌≡◌};
ghost use Rattle.kom_events.specs.Selectors.{compares, holds, matches, passes_test};

use crate::event_types::EventTypes;
use kom_base::{Copied, Event};
use sqlite_items::Items;
use std::alloc::{AllocError, Global};

/// How a test compares an attribute, on the left, with its number, on the right.
#[derive(Clone, Copy, Debug, PartialEq, Eq)]
pub enum Op {
    Eq,
    Ne,
    Lt,
    Le,
    Gt,
    Ge,
}

/// One test of a selector: of the events of type `kind` and its subtypes, those for which the
/// attribute numbered `attr`, inherited ones first, compares so with `number`.
#[derive(Clone, Copy, Debug, PartialEq, Eq)]
pub struct Test {
    pub kind: u16,
    pub attr: u8,
    pub op: Op,
    pub number: i64,
}

/// What a channel lets pass in one direction: the events that pass each of these tests. The
/// empty list lets all pass. Contracts see the list.
pub type Selector = Items<Test>;

impl Copied for Test {
    fn copy(&self, _alloc: Global) -> Result<Test, AllocError> {
        Ok(*self)
    }
}

/// Whether a selector lets an event pass: whether for each test the event is not kin of the test's
/// type or the test holds. It takes no memory.
pub fn matches(types: &EventTypes, selector: &Selector, event: &Event) -> bool
    ensures { result ≡ matches types.now selector.now event.now }
{
    selector
        .as_slice()
        .iter()
        .all(|test| test.lets_pass(types, event))
}

impl Test {
    fn lets_pass(&self, types: &EventTypes, event: &Event) -> bool
        ensures { result ≡ passes_test types.now event.now self.now }
    {
        !types.is_kin(event.kind, self.kind) || self.holds(event)
    }

    fn holds(&self, event: &Event) -> bool
        ensures { result ≡ holds self.now event.now }
    {
        let value = event.values.at(self.attr as usize).unwrap_or(0);
        self.op.compare(value, self.number)
    }
}

impl Op {
    fn compare(self, a: i64, b: i64) -> bool
        ensures { result ≡ compares self a b }
    {
        match self {
            Op::Eq => a == b,
            Op::Ne => a != b,
            Op::Lt => a < b,
            Op::Le => a <= b,
            Op::Gt => a > b,
            Op::Ge => a >= b,
        }
    }
}
