ghost use Rattle.std.specs.Prelude.{◌≡◌, Bool};
ghost use Rattle.kom_wiring.specs.Wires.{place_at, with_end, with_held};

use kom_base::{Dir, Half};

/// A channel: where its ends are plugged, `None` where one is free, and whether it is held.
#[derive(Clone, Copy, Debug)]
pub struct Link {
    pub plus: Option<Half>,
    pub minus: Option<Half>,
    pub held: bool,
}

/// Where an end of a channel is plugged.
pub fn place(link: &Link, end: Dir) -> Option<Half>
    ensures { result ≡ place_at link.now end }
{
    match end {
        Dir::Plus => link.plus,
        Dir::Minus => link.minus,
    }
}

/// The channel with an end at another place.
pub fn moved(link: &Link, end: Dir, at: &Option<Half>) -> Link
    ensures { result ≡ with_end link.now end at.now }
{
    match end {
        Dir::Plus => Link {
            plus: *at,
            minus: link.minus,
            held: link.held,
        },
        Dir::Minus => Link {
            plus: link.plus,
            minus: *at,
            held: link.held,
        },
    }
}

/// The channel, held or not.
pub fn marked(link: &Link, held: bool) -> Link
    ensures { result ≡ with_held link.now held }
{
    Link {
        plus: link.plus,
        minus: link.minus,
        held,
    }
}
