ghost use Rattle.std.specs.Prelude.{◌≡◌, ◌++◌, [], not, OnOk, codes};
ghost use Rattle.kom_lang.specs.Declarations.{Declarations};
ghost use Rattle.kom_record.specs.declared.plan.Plan.{Plan};
ghost use Rattle.kom_record.specs.Entries.{History};
ghost use Rattle.kom_record.specs.Legal.{IsLegal};
ghost use Rattle.kom_record.specs.Trace.{number, ending, end_lines, joined};
ghost use Rattle.kom_trace.specs.Counting.{HasCounted, IsTallyOf, closed_by, finished_by};
ghost use Rattle.kom_trace.specs.Seen.{end_text};

use crate::counts::Counts;
use kom_base::Comp;
use kom_lines::Text;
use kom_record::{Plan, Tally};
use std::alloc::AllocError;

fn add_fault(text: &mut Text, fault: u16, c: Comp) -> Result<(), AllocError>
    ensures { OnOk result (text.new ≡ text.old ++ (codes "end fault" ++ number fault ++ codes " comp" ++ number c)) }
{
    text.add(b"end fault")?;
    text.add_number(u64::from(fault))?;
    text.add(b" comp")?;
    text.add_number(u64::from(c.0))
}

/// Adds how the record ended.
fn add_ending(text: &mut Text, unhandled: Option<(u16, Comp)>, more: bool) -> Result<(), AllocError>
    ensures { OnOk result (text.new ≡ text.old ++ ending unhandled (not more)) }
{
    match unhandled {
        Some((fault, c)) => add_fault(text, fault, c),
        None if more => text.add(b"end budget"),
        None => text.add(b"end quiet"),
    }
}

/// Adds how many entries there are of each kind.
fn add_entries(text: &mut Text, counts: &Counts) -> Result<(), AllocError>
    ensures { OnOk result (text.new ≡ text.old ++ (codes "took" ++ number counts.now.took ++ codes " did" ++ number counts.now.did ++ codes " moved" ++ number counts.now.moved)) }
{
    text.add(b"took")?;
    text.add_number(counts.took)?;
    text.add(b" did")?;
    text.add_number(counts.did)?;
    text.add(b" moved")?;
    text.add_number(counts.moved)
}

/// Adds what the record leaves.
fn add_left(text: &mut Text, tally: &Tally) -> Result<(), AllocError>
    ensures { OnOk result (text.new ≡ text.old ++ (codes " queued" ++ number tally.now.queued ++ codes " out" ++ number tally.now.out)) }
{
    text.add(b" queued")?;
    text.add_number(tally.queued)?;
    text.add(b" out")?;
    text.add_number(tally.out)
}

/// Adds the two last lines of the text of a record, of which `tally` says what it leaves.
pub fn add_end_lines(text: &mut Text, counts: &Counts, tally: &Tally) -> Result<(), AllocError>
    ensures { OnOk result ((S : Declarations) (Z : Plan) (P : History) → HasCounted S counts.now P → IsTallyOf S Z P tally.now → text.new ≡ text.old ++ joined (end_lines S Z P)) }
{
    add_ending(text, counts.unhandled, tally.more)?;
    text.add(b"\n")?;
    add_entries(text, counts)?;
    add_left(text, tally)?;
    text.add(b"\n")?;
    Ok(())
}

/// Whether the record that was counted is closed: a fault was not handled, or the plan's steps or
/// instants are used up.
fn is_closed(counts: &Counts, plan: &Plan) -> bool
    ensures { result ≡ closed_by counts.now plan.now }
{
    counts.unhandled.is_some()
        || u64::from(plan.steps) <= counts.took
        || u64::from(plan.instants) <= counts.moved
}

/// Whether it is finished: no job is in hand, and it is closed or there is nothing to do.
fn is_finished(counts: &Counts, plan: &Plan, tally: &Tally) -> bool
    ensures { result ≡ finished_by counts.now plan.now tally.now }
{
    counts.took == counts.did && (is_closed(counts, plan) || !tally.more)
}

/// Adds what the text of a record ends with: its two last lines where it is finished, else nothing.
pub fn add_end(
    text: &mut Text,
    counts: &Counts,
    plan: &Plan,
    tally: &Tally,
) -> Result<(), AllocError>
    ensures { OnOk result ((S : Declarations) (P : History) → HasCounted S counts.now P → ∥ IsLegal S plan.now P ∥₁ → IsTallyOf S plan.now P tally.now → text.new ≡ text.old ++ end_text S plan.now P) }
{
    if is_finished(counts, plan, tally) {
        add_end_lines(text, counts, tally)?;
    }
    Ok(())
}
