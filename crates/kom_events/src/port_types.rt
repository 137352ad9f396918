ghost use Rattle.std.specs.Prelude.{◌≡◌, ◌<◌, length, slice_get, Some, IsOkAnd};
ghost use Rattle.kom_events.specs.Ports.{lists, listed, passes};

use crate::event_types::EventTypes;
use kom_base::{Copied, Dir};
use sqlite_items::Items;
use std::alloc::{AllocError, Global};
use std::marker::Model;

/// A list of event types, by number. Contracts see the list.
pub type Kinds = Items<u16>;

/// The row of one port type: the event types that are listed for each direction.
#[derive(Debug, Drop)]
pub struct PortRow {
    pub plus: Kinds,
    pub minus: Kinds,
}

/// The port types of a system, named by their places from 0. Contracts see the list of their rows.
#[derive(Debug, Drop)]
pub struct PortTypes {
    rows: Vec<PortRow>,
}

impl Model for PortTypes {
    ghost use Rattle.std.specs.Prelude.{List};
    ghost use Rattle.kom_events.specs.declared.port_types.PortRow.{PortRow};

    ghost Value = { List PortRow };

    ghost view = { λ t. t.rows.items };
}

impl PortTypes {
    /// The port types with these rows. It never wants memory.
    pub fn build(_alloc: Global, rows: Vec<PortRow>) -> Result<PortTypes, AllocError>
        ensures { IsOkAnd result (λ types. types ≡ rows.items) }
    {
        Ok(PortTypes { rows })
    }

    /// How many port types there are.
    pub fn len(&self) -> usize
        ensures { result ≡ length self.now }
    {
        self.rows.len()
    }

    /// The row of a type. It takes no memory.
    pub fn row(&self, port: u16) -> &PortRow
        requires { port < length self.now }
        ensures { slice_get self.now port ≡ Some result.now }
    {
        &self.rows[port as usize]
    }

    /// Whether events of a type pass a port of this type in this direction: whether the
    /// direction's list has the type or an ancestor of it. It takes no memory.
    pub fn passes(&self, types: &EventTypes, port: u16, dir: Dir, kind: u16) -> bool
        ensures { result ≡ passes types.now self.now port dir kind }
    {
        match self.rows.get(port as usize) {
            Some(row) => row.lists(types, dir, kind),
            None => false,
        }
    }
}

impl Copied for PortRow {
    fn copy(&self, alloc: Global) -> Result<PortRow, AllocError> {
        Ok(PortRow {
            plus: self.plus.copy(alloc)?,
            minus: self.minus.copy(alloc)?,
        })
    }
}

impl PortRow {
    /// Whether the direction's list has the type or an ancestor of it.
    fn lists(&self, types: &EventTypes, dir: Dir, kind: u16) -> bool
        ensures { result ≡ lists types.now (listed self.now dir) kind }
    {
        let kinds = match dir {
            Dir::Plus => &self.plus,
            Dir::Minus => &self.minus,
        };
        kinds.as_slice().iter().any(|k| types.is_kin(kind, *k))
    }
}
