ghost use Rattle.std.specs.Prelude.{◌≡◌, ◌-◌, ◌+◌, ◌<◌, ◌≤◌, ◌^◌, [], ◌∷◌, ◌++◌, map, not, filter, Some, None, IsSome, IfSome, IfOk, OnOk, MatchOption, IsTrue, ◌↔◌, length};
ghost use Rattle.std.specs.Option.{option_copied};
ghost use Rattle.kom_base.specs.Lists.{least};
ghost use Rattle.std.specs.Prelude.{nat_lt};
ghost use Rattle.kom_index.specs.Stock.{entries, spare};
ghost use Rattle.kom_index.specs.Entries.{Rises, value_of, inserted, without};
ghost use Rattle.kom_env.specs.Keys.{number_cmp, first_no};
ghost use Rattle.kom_env.specs.Waiting.{is_due, is_tagged, release_of, due_key, tag_key, IsOneOf};

use crate::few::Few;
use crate::keys::{Due, Tag};
use kom_base::{Chan, EntryNo, Event};
use kom_index::Ordered;
use kom_record::Release;
use std::alloc::{AllocError, Global};
use std::marker::Model;

/// A release that is due at a time: its channel, and its event.
#[derive(Debug, Drop)]
pub struct Wait {
    pub due: u64,
    pub chan: Chan,
    pub kind: u16,
    pub values: Few,
}

/// The least and the greatest number of an event.
const FIRST: EntryNo = EntryNo {
    position: 0,
    place: 0,
};

const LAST: EntryNo = EntryNo {
    position: u32::MAX,
    place: u32::MAX,
};

/// The releases that are still to come, each with the number of the event that asked for it.
///
/// Contracts see the list of them by rising number, and for how many more there is room. Each call
/// costs the logarithm of their number, and what it lists or takes away.
#[derive(Drop)]
pub struct Agenda {
    waits: Ordered<EntryNo, Wait>,
    dues: Ordered<Due, ()>,
    tags: Ordered<Tag, ()>,
}

impl Model for Agenda {
    ghost use Rattle.std.specs.Prelude.{List, ℕ};
    ghost use Rattle.kom_base.specs.declared.numbers.EntryNo.{EntryNo};
    ghost use Rattle.kom_env.specs.declared.agenda.Wait.{Wait};

    ghost Value = { List (EntryNo × Wait) × ℕ };

    ghost use Rattle.kom_env.specs.Sound.{IsSound};

    ghost view = { λ a. a.waits };

    ghost invariant = { λ a. IsSound a.waits.0 a.waits.1 a.dues.0 a.dues.1 a.tags.0 a.tags.1 };
}

impl Agenda {
    ghost use Rattle.kom_env.specs.Waiting.{is_due, is_tagged, release_of, due_key, tag_key, IsOneOf};

    /// The agenda with no release. It takes no memory.
    pub fn new(alloc: Global) -> Agenda
        ensures { result ≡ ([], 0) }
    {
        Agenda {
            waits: Ordered::new(alloc),
            dues: Ordered::new(alloc),
            tags: Ordered::new(alloc),
        }
    }

    /// Makes room for `n` more releases. On want of memory there is no less room than before.
    pub fn reserve(&mut self, n: usize) -> Result<(), AllocError>
        ensures same { entries self.new ≡ entries self.old }
        ensures ok { OnOk result (n ≤ spare self.new) }
        ensures not_less { spare self.old ≤ spare self.new }
    {
        self.tags.reserve(n)?;
        self.dues.reserve(n)?;
        self.waits.reserve(n)
    }

    /// The release of a number.
    pub fn get(&self, no: EntryNo) -> Option<&Wait>
        ensures { option_copied result ≡ value_of number_cmp no (entries self.now) }
    {
        self.waits.get(&no)
    }

    /// Adds a release whose number is not there. It takes no memory.
    pub fn add(&mut self, no: EntryNo, wait: Wait)
        requires spare { 0 < spare self.old }
        requires absent { value_of number_cmp no (entries self.old) ≡ None }
        ensures adds { entries self.new ≡ inserted number_cmp no wait (entries self.old) }
        ensures spare { spare self.new ≡ spare self.old - 1 }
    {
        let _parts = parts_of(no);
        self.dues.insert(due_of(no, &wait), ());
        self.tags.insert(tag_of(no, &wait), ());
        self.waits.insert(no, wait);
    }

    /// Takes the release of a number that is there away. Its room is free again.
    fn remove(&mut self, no: EntryNo)
        requires { IsSome (value_of number_cmp no (entries self.old)) }
        ensures rest { entries self.new ≡ without number_cmp no (entries self.old) }
        ensures spare { spare self.new ≡ spare self.old + 1 }
        ensures len { length (entries self.new) + 1 ≡ length (entries self.old) }
    {
        let wait = self.waits.remove(&no);
        self.dues.remove(&due_of(no, &wait));
        self.tags.remove(&tag_of(no, &wait));
    }

    /// The least time at which a release is due, if there is a release.
    pub fn first_due(&self) -> Option<u64>
        ensures { result ≡ least nat_lt (map (λ e. e.1.due) (entries self.now)) }
    {
        let low = Due { time: 0, no: FIRST };
        match self.dues.first_from(&low) {
            Some(due) => Some(time_of(due)),
            None => None,
        }
    }

    /// How many releases are due at a time.
    pub fn count_at(&self, time: u64) -> usize
        ensures count { result ≡ length (filter (is_due time) (entries self.now)) }
        ensures small { result < 2 ^ 63 }
    {
        let low = Due { time, no: FIRST };
        let high = Due { time, no: LAST };
        self.dues.count_between(&low, &high)
    }

    /// The numbers of the releases that are due at a time, in order.
    fn numbers_at(&self, alloc: Global, time: u64) -> Result<Vec<Due>, AllocError>
        ensures rises { Rises number_cmp (entries self.now) }
        ensures numbers { IfOk result (λ v. map (λ d. d.no) v.items ≡ map (λ e. e.0) (filter (is_due time) (entries self.now))) }
    {
        let low = Due { time, no: FIRST };
        let high = Due { time, no: LAST };
        self.dues.keys_between(alloc, &low, &high)
    }

    /// Adds what is due at a time at the end of a list, by rising number. On want of memory the list
    /// has some of it.
    pub fn release_at(
        &self,
        alloc: Global,
        time: u64,
        out: &mut Vec<Release>,
    ) -> Result<(), AllocError>
        ensures { OnOk result (out.new.items ≡ out.old.items ++ map release_of (filter (is_due time) (entries self.now))) }
    {
        let dues = self.numbers_at(alloc, time)?;
        for due in &dues {
            release(self, due.no, alloc, out)?;
        }
        Ok(())
    }

    /// The number of a release that is due at a time, if one is.
    fn first_at(&self, time: u64) -> Option<EntryNo>
        ensures found { IsOneOf (is_due time) (entries self.now) result }
        ensures rises { Rises number_cmp (entries self.now) }
    {
        let low = Due { time, no: FIRST };
        match self.dues.first_from(&low) {
            Some(due) if due.time == time => Some(due.no),
            _ => None,
        }
    }

    /// The number of a release with the channel and first value of a tag, if there is one. The tag
    /// has the least number.
    fn first_like(&self, low: &Tag) -> Option<EntryNo>
        requires { low.now.no ≡ first_no }
        ensures found { IsOneOf (is_tagged low.now.chan low.now.id) (entries self.now) result }
        ensures rises { Rises number_cmp (entries self.now) }
    {
        match self.tags.first_from(low) {
            Some(tag) if is_like(tag, low) => Some(tag.no),
            _ => None,
        }
    }

    /// Takes all releases that are due at a time away. Their room is free again.
    pub fn discard_due(&mut self, time: u64)
        ensures rest { entries self.new ≡ filter (λ e. not (is_due time e)) (entries self.old) }
        ensures spare { spare self.old ≤ spare self.new }
    {
        while let Some(no) = self.first_at(time) {
            self.remove(no);
        }
    }

    /// Takes all releases with the channel and first value of a tag away. Their room is free again.
    /// The tag has the least number.
    pub fn discard_like(&mut self, low: &Tag)
        requires { low.now.no ≡ first_no }
        ensures rest { entries self.new ≡ filter (λ e. not (is_tagged low.now.chan low.now.id e)) (entries self.old) }
        ensures spare { spare self.old ≤ spare self.new }
    {
        while let Some(no) = self.first_like(low) {
            self.remove(no);
        }
    }
}

/// Adds the release of a number that is there at the end of a list.
fn release(
    agenda: &Agenda,
    no: EntryNo,
    alloc: Global,
    out: &mut Vec<Release>,
) -> Result<(), AllocError>
    requires { IsSome (value_of number_cmp no (entries agenda.now)) }
    ensures { OnOk result (IfSome (value_of number_cmp no (entries agenda.now)) (λ w. out.new.items ≡ out.old.items ++ release_of (no, w) ∷ [])) }
{
    let Some(wait) = agenda.get(no) else {
        return Ok(());
    };
    let values = wait.values.values(alloc)?;
    out.push(Release {
        chan: wait.chan,
        event: Event {
            kind: wait.kind,
            values,
        },
    })?;
    Ok(())
}

/// Whether two tags have one channel and one first value.
fn is_like(a: &Tag, b: &Tag) -> bool
    ensures { IsTrue result ↔ ((a.now.chan ≡ b.now.chan) × (a.now.id ≡ b.now.id)) }
{
    a.chan == b.chan && a.id == b.id
}

/// The tag of a channel and a first value with the least number.
pub fn low_tag(chan: Chan, id: i64) -> Tag
    ensures { result ≡ record { chan = chan; id = id; no = first_no } }
{
    Tag {
        chan,
        id,
        no: FIRST,
    }
}

fn time_of(due: &Due) -> u64
    ensures { result ≡ due.now.time }
{
    due.time
}

/// The parts of a number, of 32 bits each.
fn parts_of(no: EntryNo) -> (u32, u32)
    ensures { result ≡ (no.position, no.place) }
{
    (no.position, no.place)
}

fn due_of(no: EntryNo, wait: &Wait) -> Due
    ensures { result ≡ due_key no wait.now }
{
    Due { time: wait.due, no }
}

fn tag_of(no: EntryNo, wait: &Wait) -> Tag
    ensures { result ≡ tag_key no wait.now }
{
    Tag {
        chan: wait.chan,
        id: wait.values.first(),
        no,
    }
}
