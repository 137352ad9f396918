ghost use Rattle.std.specs.Prelude.{◌≡◌, ◌<◌, ◌≤◌, IsSome, Some};
ghost use Rattle.std.specs.Option.{option_map};
ghost use Rattle.std.specs.Ordering.{nat_cmp};
ghost use Rattle.kom_index.specs.Entries.{value_of};
ghost use Rattle.kom_index.specs.Stock.{entries};
ghost use Rattle.kom_endings.specs.Ended.{IsJobEnded};

use kom_base::Comp;
use kom_record::Entry;
use kom_turns::Run;

/// Adds the entry with which a worker ends its job of a component. It takes no memory.
pub fn end_job(run: &mut Run, w: u32, c: Comp, did: Entry)
    requires room { 1 ≤ run.old.kept.spare }
    requires job { IsSome (value_of nat_cmp w (entries run.old.jobs)) }
    requires made { c < run.old.busy.bound }
    ensures { IsJobEnded w c did run.old run.new }
{
    let _ = run.jobs.remove(&w);
    run.busy.set(c, false);
    run.kept.add(did);
}

/// The position of the Took of a worker's job. It costs the logarithm of the number of jobs in hand.
pub fn position_of(run: &Run, w: u32) -> u32
    requires { IsSome (value_of nat_cmp w (entries run.now.jobs)) }
    ensures { option_map (λ h. h.took) (value_of nat_cmp w (entries run.now.jobs)) ≡ Some result }
{
    match run.jobs.get(&w) {
        Some(held) => held.took,
        None => unreachable!(),
    }
}
