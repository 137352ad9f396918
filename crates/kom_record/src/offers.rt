ghost use Rattle.std.specs.Prelude.{◌≡◌, ℕ, ◌<◌, ◌∷◌, filter, length, slice_get};
ghost use Rattle.std.specs.Option.{option_copied, option_map, option_and_then};
ghost use Rattle.kom_record.specs.Entries.{entry_at, before, item_at};
ghost use Rattle.kom_record.specs.Offers.{offer_at, offers, offers_for, offers_event, event_of, back_by, relayed_back, relayed_from};

use crate::entry::{Entry, Outcome};
use crate::item::{Back, Item};
use crate::record::Record;
use kom_base::{EntryNo, Event};
use kom_lang::Effect;

impl Record {
    /// The event that was offered with this number; `None` exactly where there is no such offer. It
    /// takes no memory.
    #[tactic(auto, using(crate::proofs::Positions::entry_at_past), unfolding(crate::specs::Offers::offer_at))]
    pub fn offer(&self, no: EntryNo) -> Option<&Event>
        ensures { option_copied result ≡ option_map (λ o. o.event) (offer_at self.now.history no) }
    {
        if no.position as usize >= self.len() {
            return None;
        }
        match self.at(no.position as usize) {
            Some(entry) => self.entry_event(no.position, entry, no.place as usize),
            None => None,
        }
    }

    /// How the event that was offered with this number goes on; `None` exactly where there is no
    /// such offer. It takes no memory.
    #[tactic(auto, using(crate::proofs::Positions::entry_at_past), unfolding(crate::specs::Offers::offer_at))]
    pub fn back(&self, no: EntryNo) -> Option<Back>
        ensures { result ≡ option_map (λ o. o.back) (offer_at self.now.history no) }
    {
        if no.position as usize >= self.len() {
            return None;
        }
        match self.at(no.position as usize) {
            Some(entry) => self.entry_back(no.position, entry, no.place as usize),
            None => None,
        }
    }

    // the event of an offer of the entry at position `end`
    #[tactic(auto, unfolding(crate::specs::Offers::offers))]
    fn entry_event<'a>(&'a self, end: u32, entry: &'a Entry, place: usize) -> Option<&'a Event>
        requires { end < length self.now.history }
        ensures { option_copied result ≡ option_map (λ o. o.event) (slice_get (offers (before self.now.history end) entry.now) place) }
    {
        match entry {
            Entry::Took { .. } => None,
            Entry::Did { took, outcome, .. } => match outcome {
                Outcome::Void => None,
                Outcome::Fault(_) => None,
                Outcome::Done { effects, .. } => self.done_event(
                    end,
                    *took,
                    effects.as_slice(),
                    place,
                ),
            },
            Entry::Moved { released, .. } => match released.get(place) {
                Some(release) => Some(&release.event),
                None => None,
            },
        }
    }

    // how an offer of the entry at position `end` goes on
    #[tactic(auto, unfolding(crate::specs::Offers::offers))]
    fn entry_back(&self, end: u32, entry: &Entry, place: usize) -> Option<Back>
        requires { end < length self.now.history }
        ensures { result ≡ option_map (λ o. o.back) (slice_get (offers (before self.now.history end) entry.now) place) }
    {
        match entry {
            Entry::Took { .. } => None,
            Entry::Did { took, outcome, .. } => match outcome {
                Outcome::Void => None,
                Outcome::Fault(_) => None,
                Outcome::Done { effects, .. } => self.done_back(
                    end,
                    *took,
                    effects.as_slice(),
                    place,
                ),
            },
            Entry::Moved { released, .. } => match released.get(place) {
                Some(_) => Some(Back::Plain),
                None => None,
            },
        }
    }

    // the event of an offer of a Did at position `end`
    fn done_event<'a>(
        &'a self,
        end: u32,
        took: u32,
        effects: &'a [Effect],
        place: usize,
    ) -> Option<&'a Event>
        requires { end < length self.now.history }
        ensures { (c : ℕ) → let P = before self.now.history end in option_copied result ≡ option_map (λ o. o.event) (slice_get (offers_for P c took effects.now (item_at P took)) place) }
    {
        match self.item_before(end, took) {
            Some(Item::Arrival { event, .. }) => {
                if place == 0 {
                    Some(event)
                } else {
                    effect_event(effects, true, place - 1)
                }
            }
            Some(Item::Control(_)) => effect_event(effects, false, place),
            None => None,
        }
    }

    // the Back of an offer of a Did at position `end`
    fn done_back(&self, end: u32, took: u32, effects: &[Effect], place: usize) -> Option<Back>
        requires { end < length self.now.history }
        ensures { (c : ℕ) → let P = before self.now.history end in result ≡ option_map (λ o. o.back) (slice_get (offers_for P c took effects.now (item_at P took)) place) }
    {
        match self.item_before(end, took) {
            Some(Item::Arrival { back, .. }) => {
                if place == 0 {
                    Some(self.passed_on(end, *back))
                } else {
                    effect_back(took, effects, true, place - 1)
                }
            }
            Some(Item::Control(_)) => effect_back(took, effects, false, place),
            None => None,
        }
    }

    // how an arrived event goes on when a Did at position `end` passes it on
    #[tactic(auto, unfolding(crate::specs::Offers::relayed_back))]
    fn passed_on(&self, end: u32, back: Back) -> Back
        requires { end < length self.now.history }
        ensures { result ≡ relayed_back (before self.now.history end) back }
    {
        match back {
            Back::Plain => Back::Plain,
            Back::Home => Back::Home,
            Back::To(s) => match self.item_before(end, s) {
                Some(Item::Arrival { no, .. }) => match self.relayed_took(end, *no) {
                    Some(took) => Back::To(took),
                    None => Back::Home,
                },
                Some(Item::Control(_)) => Back::Home,
                None => Back::Home,
            },
        }
    }

    // the Took by which the event of this number had come to the component that passed it on
    #[tactic(auto, unfolding(crate::specs::Offers::relayed_from))]
    fn relayed_took(&self, end: u32, no: EntryNo) -> Option<u32>
        requires { end < length self.now.history }
        ensures { result ≡ relayed_from (before self.now.history end) no }
    {
        if no.place != 0 {
            return None;
        }
        match self.entry_before(end, no.position) {
            Some(Entry::Did { took, .. }) => match self.item_before(end, *took) {
                Some(Item::Arrival { .. }) => Some(*took),
                Some(Item::Control(_)) => None,
                None => None,
            },
            Some(Entry::Took { .. }) => None,
            Some(Entry::Moved { .. }) => None,
            None => None,
        }
    }

    // the item of a Took that stands before a position
    #[tactic(auto, unfolding(crate::specs::Entries::item_at))]
    fn item_before(&self, end: u32, took: u32) -> Option<&Item>
        requires { end < length self.now.history }
        ensures { option_copied result ≡ item_at (before self.now.history end) took }
    {
        match self.entry_before(end, took) {
            Some(Entry::Took { item, .. }) => Some(item),
            Some(Entry::Did { .. }) => None,
            Some(Entry::Moved { .. }) => None,
            None => None,
        }
    }

    // an entry that stands before a position
    #[tactic(auto, using(crate::proofs::Positions::entry_at_before, crate::proofs::Positions::entry_at_before_past))]
    fn entry_before(&self, end: u32, i: u32) -> Option<&Entry>
        requires { end < length self.now.history }
        ensures { option_copied result ≡ entry_at (before self.now.history end) i }
    {
        if i < end { self.at(i as usize) } else { None }
    }
}

// the event at a place among those that effects offer
fn effect_event(effects: &[Effect], to_arrival: bool, place: usize) -> Option<&Event>
    ensures { option_copied result ≡ option_and_then event_of (slice_get (filter (offers_event to_arrival) effects.now) place) }
{
    match offering(effects, to_arrival, place) {
        Some(Effect::Trigger { event, .. }) => Some(event),
        Some(Effect::Answer { event }) => Some(event),
        _ => None,
    }
}

// the Back at a place among the offers of effects
fn effect_back(took: u32, effects: &[Effect], to_arrival: bool, place: usize) -> Option<Back>
    ensures { result ≡ option_and_then (back_by took) (slice_get (filter (offers_event to_arrival) effects.now) place) }
{
    match offering(effects, to_arrival, place) {
        Some(Effect::Trigger { .. }) => Some(Back::Plain),
        Some(Effect::Answer { .. }) => Some(Back::To(took)),
        _ => None,
    }
}

// the effect at a place among those that offer an event; an answer does where the item is an arrival
fn offering(effects: &[Effect], to_arrival: bool, place: usize) -> Option<&Effect>
    ensures { option_copied result ≡ slice_get (filter (offers_event to_arrival) effects.now) place }
{
    let mut left = place;
    for effect in effects {
        if is_offering(effect, to_arrival) {
            if left == 0 {
                return Some(effect);
            }
            left -= 1;
        }
    }
    None
}

fn is_offering(effect: &Effect, to_arrival: bool) -> bool
    ensures { result ≡ offers_event to_arrival effect.now }
{
    match effect {
        Effect::Trigger { .. } => true,
        Effect::Answer { .. } => to_arrival,
        _ => false,
    }
}
