ghost use Rattle.std.specs.Prelude.{◌≡◌, if◌then◌else◌, Some, None};
ghost use Rattle.kom_wiring.specs.Wires.{is_at, place_at};
ghost use Rattle.std.specs.Ordering.{eq_by_cmp, as_partial_cmp};
ghost use Rattle.std.specs.Cmp.{eq_by_cmp_equiv, partial_equiv_from_equiv, partial_order_from_total};
ghost use Rattle.std.proofs.Common.{refl};
ghost use Rattle.kom_wiring.specs.Sockets.{place_cmp, socket_cmp, socket_total};

use crate::link::{Link, place};
use kom_base::{Chan, Dir, Half};
use std::cmp::Ordering;

/// An end of a channel and where it is plugged; `None` where it is free. Sockets are in the order
/// of the places, then of the channels.
#[derive(Clone, Copy, Debug)]
pub struct Socket {
    pub at: Option<Half>,
    pub chan: Chan,
    pub end: Dir,
}

impl PartialEq for Socket {
    ghost eq = { eq_by_cmp socket_cmp };

    ghost laws = { partial_equiv_from_equiv (eq_by_cmp_equiv socket_total) };

    fn eq(&self, other: &Socket) -> bool {
        self.cmp(other).is_eq()
    }
}

impl Eq for Socket {
    ghost laws = { eq_by_cmp_equiv socket_total };
}

impl PartialOrd for Socket {
    ghost partial_cmp = { as_partial_cmp socket_cmp };

    ghost laws = { partial_order_from_total socket_total };

    fn partial_cmp(&self, other: &Socket) -> Option<Ordering> {
        Some(self.cmp(other))
    }
}

impl Ord for Socket {
    ghost cmp = { socket_cmp };

    ghost total = { socket_total };

    ghost matches_partial_cmp = { λ a b. refl };

    ghost matches_eq = { λ a b. refl };

    fn cmp(&self, other: &Socket) -> Ordering {
        match compare_places(&self.at, &other.at) {
            Ordering::Less => Ordering::Less,
            Ordering::Equal => self.chan.cmp(&other.chan).then(self.end.cmp(&other.end)),
            Ordering::Greater => Ordering::Greater,
        }
    }
}

fn compare_places(a: &Option<Half>, b: &Option<Half>) -> Ordering
    ensures { result ≡ place_cmp a.now b.now }
{
    a.cmp(b)
}

/// The socket of an end of a channel.
pub fn socket_of(link: &Link, x: Chan, end: Dir) -> Socket
    ensures { result ≡ record { at = place_at link.now end; chan = x; end = end } }
{
    Socket {
        at: place(link, end),
        chan: x,
        end,
    }
}

/// The channel of a socket that is plugged at a half.
pub fn channel_at(socket: &Socket, half: &Half) -> Option<Chan>
    ensures { result ≡ (if is_at half.now socket.now.at then Some socket.now.chan else None) }
{
    match &socket.at {
        Some(at) if at == half => Some(socket.chan),
        _ => None,
    }
}
