ghost use Rattle.std.specs.Prelude.{◌≡◌, if◌then◌else◌, Some, None};
ghost use Rattle.std.specs.Ordering.{eq_by_cmp, as_partial_cmp, is_eq};
ghost use Rattle.std.specs.Cmp.{eq_by_cmp_equiv, partial_equiv_from_equiv, partial_order_from_total};
ghost use Rattle.std.proofs.Common.{refl};
ghost use Rattle.kom_queues.specs.Fronts.{place_cmp, front_cmp, front_total, front_of, waits_for};

use kom_base::{Chan, Comp, Dir, EntryNo};
use std::cmp::Ordering;

/// A number and the component that it waits for.
#[derive(Clone, Copy, Debug, PartialEq, Eq, PartialOrd, Ord)]
pub struct Arrival {
    pub comp: Comp,
    pub no: EntryNo,
}

/// What stands at the front of a direction and waits for a component; `None` where nothing does.
/// Fronts are in the order of the components, then of the numbers, then of the channels.
#[derive(Clone, Copy, Debug)]
pub struct Front {
    pub at: Option<Arrival>,
    pub chan: Chan,
    pub dir: Dir,
}

impl PartialEq for Front {
    ghost eq = { eq_by_cmp front_cmp };

    ghost laws = { partial_equiv_from_equiv (eq_by_cmp_equiv front_total) };

    fn eq(&self, other: &Front) -> bool {
        self.cmp(other).is_eq()
    }
}

impl Eq for Front {
    ghost laws = { eq_by_cmp_equiv front_total };
}

impl PartialOrd for Front {
    ghost partial_cmp = { as_partial_cmp front_cmp };

    ghost laws = { partial_order_from_total front_total };

    fn partial_cmp(&self, other: &Front) -> Option<Ordering> {
        Some(self.cmp(other))
    }
}

impl Ord for Front {
    ghost cmp = { front_cmp };

    ghost total = { front_total };

    ghost matches_partial_cmp = { λ a b. refl };

    ghost matches_eq = { λ a b. refl };

    fn cmp(&self, other: &Front) -> Ordering {
        match compare_places(&self.at, &other.at) {
            Ordering::Less => Ordering::Less,
            Ordering::Equal => self.chan.cmp(&other.chan).then(self.dir.cmp(&other.dir)),
            Ordering::Greater => Ordering::Greater,
        }
    }
}

fn compare_places(a: &Option<Arrival>, b: &Option<Arrival>) -> Ordering
    ensures { result ≡ place_cmp a.now b.now }
{
    a.cmp(b)
}

/// The channel, direction and number of a front that waits for a component.
pub fn found(front: &Front, c: Comp) -> Option<(Chan, Dir, EntryNo)>
    ensures { result ≡ waits_for front.now c }
{
    match &front.at {
        Some(at) if at.comp == c => Some((front.chan, front.dir, at.no)),
        _ => None,
    }
}

/// Whether two fronts are one.
pub fn is_same(a: &Front, b: &Front) -> bool
    ensures { result ≡ is_eq (front_cmp b.now a.now) }
{
    b.cmp(a).is_eq()
}

/// The front of a direction at which this waits.
pub fn make_front(at: &Option<Arrival>, x: Chan, d: Dir) -> Front
    ensures { result ≡ front_of at.now x d }
{
    Front {
        at: *at,
        chan: x,
        dir: d,
    }
}
