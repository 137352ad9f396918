ghost use Rattle.std.specs.Prelude.{◌≡◌, ◌<◌, ◌+◌, ◌==◌, ℕ, if◌then◌else◌, ◌++◌, [], length, slice_index_or, OnOk, OnErr};
ghost use Rattle.std.specs.Option.{option_to_list, IfNone};
ghost use Rattle.kom_sim.specs.Line.{at_end, all_at_end};

use kom_base::Comp;
use kom_record::Wakes;
use std::alloc::{AllocError, Global};
use std::collections::VecDeque;
use std::marker::Model;

/// The components that wait for their turn. Contracts see the list of their numbers, each once, the
/// one whose turn is next first.
///
/// A component that goes to the end is not looked for in the queue: it may stand in it more than
/// once, and counts where it stands last.
#[derive(Drop)]
pub struct Line {
    queue: VecDeque<Comp>,
    /// How often each component stands in the queue.
    counts: Vec<usize>,
}

/// Makes room for the count of a component, which begins at 0. On want of memory the counts are as
/// before.
fn reach(counts: &mut Vec<usize>, c: Comp) -> Result<(), AllocError>
    ensures same { (d : ℕ) → slice_index_or counts.new.items d 0 ≡ slice_index_or counts.old.items d 0 }
    ensures ok { OnOk result (c < length counts.new.items) }
{
    while counts.len() <= c.0 as usize {
        counts.push(0)?;
    }
    Ok(())
}

/// Counts a component once more.
fn count_one_more(counts: &mut Vec<usize>, c: Comp)
    requires there { c < length counts.old.items }
    requires small { slice_index_or counts.old.items c 0 < 18_446_744_073_709_551_615 }
    ensures { (d : ℕ) → slice_index_or counts.new.items d 0 ≡ slice_index_or counts.old.items d 0 + (if c == d then 1 else 0) }
{
    counts[c.0 as usize] += 1;
}

/// Counts a component once less, and says whether it is counted no more.
fn count_one_less(counts: &mut Vec<usize>, c: Comp) -> bool
    requires { 0 < slice_index_or counts.old.items c 0 }
    ensures counts { (d : ℕ) → slice_index_or counts.old.items d 0 ≡ (if c == d then 1 else 0) + slice_index_or counts.new.items d 0 }
    ensures last { result ≡ (slice_index_or counts.new.items c 0 == 0) }
{
    let at = c.0 as usize;
    counts[at] -= 1;
    counts[at] == 0
}

impl Model for Line {
    ghost use Rattle.std.specs.Prelude.{List, ℕ, ◌≡◌, ◌==◌, slice_index_or, count_by};
    ghost use Rattle.kom_sim.specs.Line.{last_of_each};

    ghost Value = { List ℕ };

    ghost view = { λ l. last_of_each l.queue.items };

    ghost invariant = { λ l. (c : ℕ) → slice_index_or l.counts.items c 0 ≡ count_by (λ d. d == c) l.queue.items };
}

impl Line {
    /// The empty line. It takes no memory.
    pub fn new(alloc: Global) -> Line
        ensures { result ≡ [] }
    {
        Line {
            queue: VecDeque::new(alloc),
            counts: Vec::new(alloc),
        }
    }

    /// Puts a component at the end. The error is want of memory, and the line is then as before.
    pub fn push(&mut self, c: Comp) -> Result<(), AllocError>
        ensures ok { OnOk result (self.new ≡ at_end self.old c) }
        ensures err { OnErr result (self.new ≡ self.old) }
    {
        reach(&mut self.counts, c)?;
        self.queue.push_back(c)?;
        count_one_more(&mut self.counts, c);
        Ok(())
    }

    /// Takes the first component out; `None` exactly where there is none. It takes no memory.
    pub fn pop(&mut self) -> Option<Comp>
        ensures first { self.old ≡ option_to_list result ++ self.new }
        ensures none { IfNone result (self.new ≡ []) }
    {
        while let Some(c) = self.queue.pop_front() {
            if count_one_less(&mut self.counts, c) {
                return Some(c);
            }
        }
        None
    }

    /// Puts these components at the end, one after another. After want of memory some of them may
    /// be there.
    pub fn push_all(&mut self, wakes: &Wakes) -> Result<(), AllocError>
        ensures { OnOk result (self.new ≡ all_at_end self.old wakes.now) }
    {
        for i in 0..wakes.len() {
            if let Some(c) = wakes.at(i) {
                self.push(*c)?;
            }
        }
        Ok(())
    }
}
