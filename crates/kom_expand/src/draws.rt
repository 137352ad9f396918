ghost use Rattle.std.specs.Prelude.{◌≡◌, ◌≤◌, ◌<◌, true, IfOk};
ghost use Rattle.std.specs.List.{list_all};
ghost use Rattle.kom_scenario.specs.Sound.{arg_is_sound, longest};
ghost use Rattle.kom_expand.specs.Drawn as spec;

use kom_base::{Chan, Event, Values};
use kom_record::Raise;
use kom_scenario::{Arg, Raising};
use rand_core::utils::NextWord;
use rand_pcg::Lcg64Xsh32;
use std::alloc::{AllocError, Global};

/// A number from `low` to `high`, by the next word of the generator.
pub fn drawn(generator: &mut Lcg64Xsh32, low: u32, high: u32) -> u32
    requires pair { low ≤ high }
    requires most { high ≤ longest }
    ensures value { (result, generator.new) ≡ spec.drawn low high generator.old }
    ensures within { result ≤ high }
{
    low + generator.next_word() % (high - low + 1)
}

/// The value of an argument in the event of a number.
fn value_of(generator: &mut Lcg64Xsh32, index: u32, arg: &Arg) -> i64
    requires { arg_is_sound arg.now ≡ true }
    ensures { (result, generator.new) ≡ spec.value_of index arg.now generator.old }
{
    match arg {
        Arg::Number(number) => *number,
        Arg::Index => index as i64,
        Arg::Draw { low, high } => drawn(generator, *low, *high) as i64,
    }
}

/// The values of the arguments, drawn from left to right. After want of memory nothing is said of
/// the generator, which is dropped then.
#[tactic(auto, unfolding(crate::specs::Drawn::values_of))]
fn values_of(
    alloc: Global,
    generator: &mut Lcg64Xsh32,
    index: u32,
    args: &[Arg],
) -> Result<Values, AllocError>
    requires { list_all arg_is_sound args.now ≡ true }
    ensures { IfOk result (λ values. (values, generator.new) ≡ spec.values_of index args.now generator.old) }
{
    let mut values = Values::new(alloc);
    for arg in args {
        values.push(value_of(generator, index, arg))?;
    }
    Ok(values)
}

/// The event of a number, at a time.
pub fn event_at(
    alloc: Global,
    generator: &mut Lcg64Xsh32,
    raising: &Raising,
    index: u32,
    time: u64,
) -> Result<Raise, AllocError>
    requires { list_all arg_is_sound raising.now.args ≡ true }
    ensures { IfOk result (λ event. (event, generator.new) ≡ spec.event_at raising.now index time generator.old) }
{
    let values = values_of(alloc, generator, index, raising.args.as_slice())?;
    Ok(Raise {
        time,
        chan: Chan(raising.port as u32),
        event: Event {
            kind: raising.kind,
            values,
        },
    })
}
