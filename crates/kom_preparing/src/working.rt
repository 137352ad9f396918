ghost use Rattle.std.specs.Prelude.{◌≡◌, ◌≤◌, ◌+◌, ℕ, List, length, IfOk, IfSome, IsSome, Option};
ghost use Rattle.kom_base.specs.declared.numbers.Dir as dirs;
ghost use Rattle.kom_entering.specs.Lists.{IsEntering, numbers_into};
ghost use Rattle.kom_record.specs.declared.entry.Entry.TheVariants.{Did};
ghost use Rattle.kom_record.specs.declared.entry.Outcome.TheVariants as outcome;
ghost use Rattle.kom_state.specs.Parts.{state_of};
ghost use Rattle.kom_turns.specs.Runs.{IsRun, Stands, history_of, system_of};
ghost use Rattle.kom_preparing.specs.Preparing.{HasReacted, WasReacted};

use kom_base::Comp;
use kom_coming::{comings_fit, places_fit};
use kom_entering::Entering;
use kom_lang::{Body, Effect};
use kom_record::Item;
use kom_state::RunState;
use kom_turns::Run;
use std::alloc::{AllocError, Global};

/// What the entry of the handling brings into channels, what goes out, and which of its answers reach
/// nothing.
pub fn entering_of(
    run: &Run,
    alloc: Global,
    c: Comp,
    took: u32,
    item: &Item,
    body: &Body,
    effects: &[Effect],
) -> Result<Entering, AllocError>
    requires run { IsRun run.now }
    requires reacted { HasReacted c took item.now body.now effects.now run.now }
    ensures entering { IfOk result (λ v. (w : ℕ) → Stands run.now → WasReacted w c took item.now body.now effects.now run.now → (by : ℕ) (to : Option ℕ) (places : List ℕ) → IsEntering (system_of run.now) (history_of run.now) (Did by c took (outcome.Done body.now effects.now) to places) v) }
    ensures once { IfOk result (λ v. (x : ℕ) (d : dirs.Dir) → length (numbers_into v.comings x d) ≤ v.offers) }
{
    comings_fit();
    places_fit();
    run.system.well_formed();
    let entering = Entering::of(
        alloc,
        &run.system,
        &run.state,
        &run.kept,
        c,
        took,
        item,
        effects,
    )?;
    Ok(entering)
}

/// The depth of a living component.
pub fn depth_of(state: &RunState, c: Comp) -> u8
    requires { IsSome ((state_of state.now).bodies c) }
    ensures { IfSome ((state_of state.now).bodies c) (λ b. result ≡ b.depth) }
{
    match state.body(c) {
        Some(body) => body.depth,
        None => unreachable!(),
    }
}
