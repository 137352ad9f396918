ghost use Rattle.std.specs.Prelude.{◌≡◌, []};
ghost use Rattle.kom_entering.specs.Lists.{next_number};

use kom_base::{Chan, Dir, EntryNo};
use kom_record::Places;
use sqlite_items::Items;
use std::alloc::Global;

/// An event that comes into a direction of a channel, by the number of its offer.
#[derive(Clone, Copy, Debug, PartialEq, Eq)]
pub struct Coming {
    pub chan: Chan,
    pub dir: Dir,
    pub no: EntryNo,
}

/// An event that goes out to the environment by a channel of the root, by the number of its offer.
#[derive(Clone, Copy, Debug, PartialEq, Eq)]
pub struct Going {
    pub chan: Chan,
    pub no: EntryNo,
}

/// What the offers of an entry come to, noted one after another.
#[derive(Debug, Drop)]
pub struct Entering {
    /// The position of the entry in the record.
    pub position: u32,
    /// How many offers there are, which is the place of the next one.
    pub offers: u32,
    /// What comes into channels, in order of place.
    pub comings: Items<Coming>,
    /// What goes out, in order of place.
    pub goings: Items<Going>,
    /// The places of the answers that enter no channel, rising.
    pub unreached: Places,
}

impl Entering {
    /// Of an entry with no offers at a position. It takes no memory.
    pub(crate) fn new(alloc: Global, position: u32) -> Entering
        ensures { result ≡ record { position = position; offers = 0; comings = []; goings = []; unreached = [] } }
    {
        Entering {
            position,
            offers: 0,
            comings: Items::new(alloc),
            goings: Items::new(alloc),
            unreached: Items::new(alloc),
        }
    }

    /// The number of the next offer.
    pub(crate) fn number(&self) -> EntryNo
        ensures { result ≡ next_number self.now }
    {
        EntryNo {
            position: self.position,
            place: self.offers,
        }
    }
}
