ghost use Rattle.std.specs.Prelude.{◌≡◌, ◌≤◌};
ghost use Rattle.std.specs.List.{flat_map};
ghost use Rattle.kom_scenario.specs.Scenes.{size};
ghost use Rattle.kom_scenario.specs.Numbers as spec;
ghost use Rattle.kom_scenario.specs.Rules.{first_place};

use crate::places::{earlier, place_if};
use kom_parse::Numeral;
use kom_scengram::{ArgPart, SettingPart, SourcePart, StartPart};

/// The greatest time, distance, gap, delay and drawn number.
pub const LONGEST: u64 = 1_000_000_000;

/// The most steps, instants, events of a process and events in all.
pub const MOST: u64 = 100_000;

/// The value of a number that is written without a sign.
pub fn size(number: Numeral) -> u64
    ensures value { result ≡ size number }
    ensures fits { result ≤ 9223372036854775807 }
{
    number.value.max(0) as u64
}

fn too_long(number: Numeral) -> Option<u32>
    ensures { result ≡ first_place (spec.too_long number) }
{
    place_if(size(number) > LONGEST, number.at)
}

fn not_so_many(number: Numeral) -> Option<u32>
    ensures { result ≡ first_place (spec.not_so_many number) }
{
    let count = size(number);
    place_if(count < 1 || count > MOST, number.at)
}

fn no_pair(low: Numeral, high: Numeral) -> Option<u32>
    ensures { result ≡ first_place (spec.no_pair low high) }
{
    let turned = place_if(size(high) < size(low), high.at);
    earlier(too_long(low), earlier(too_long(high), turned))
}

fn setting_numbers(part: &SettingPart) -> Option<u32>
    ensures { result ≡ first_place (spec.setting_numbers part.now) }
{
    match part {
        SettingPart::Seed { .. } => None,
        SettingPart::Steps { value, .. } => not_so_many(*value),
        SettingPart::Instants { value, .. } => not_so_many(*value),
        SettingPart::Network { low, high, .. } => no_pair(*low, *high),
    }
}

/// The first place of a number out of its range among settings.
#[tactic(auto, using(crate::proofs::Least::flat_map_more))]
pub fn settings_numbers(parts: &[SettingPart]) -> Option<u32>
    ensures { result ≡ first_place (flat_map spec.setting_numbers parts.now) }
{
    let mut found = None;
    for part in parts {
        found = earlier(found, setting_numbers(part));
    }
    found
}

fn arg_numbers(part: &ArgPart) -> Option<u32>
    ensures { result ≡ first_place (spec.arg_numbers part.now) }
{
    match part {
        ArgPart::Number(_) => None,
        ArgPart::Index => None,
        ArgPart::Draw { low, high } => no_pair(*low, *high),
    }
}

#[tactic(auto, using(crate::proofs::Least::flat_map_more))]
fn args_numbers(parts: &[ArgPart]) -> Option<u32>
    ensures { result ≡ first_place (flat_map spec.arg_numbers parts.now) }
{
    let mut found = None;
    for part in parts {
        found = earlier(found, arg_numbers(part));
    }
    found
}

fn start_numbers(part: &StartPart) -> Option<u32>
    ensures { result ≡ first_place (spec.start_numbers part.now) }
{
    match part {
        StartPart::At(time) => too_long(*time),
        StartPart::After { by, .. } => too_long(*by),
    }
}

/// The first place of a number out of its range in a source.
pub fn source_numbers(part: &SourcePart) -> Option<u32>
    ensures { result ≡ first_place (spec.source_numbers part.now) }
{
    match part {
        SourcePart::At { time, raise, .. } => {
            earlier(too_long(*time), args_numbers(raise.args.as_slice()))
        }
        SourcePart::Process(p) => {
            let gap = no_pair(p.low, p.high);
            let rest = earlier(gap, args_numbers(p.raise.args.as_slice()));
            earlier(start_numbers(&p.start), earlier(not_so_many(p.count), rest))
        }
    }
}
