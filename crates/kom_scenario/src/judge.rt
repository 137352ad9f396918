ghost use Rattle.std.specs.Prelude.{◌≡◌, ℕ, List, [], None, IfOk};
ghost use Rattle.kom_system.specs.Contents.{Contents};
ghost use Rattle.kom_scenario.specs.Names.{Knows};
ghost use Rattle.kom_scenario.specs.Named.{process_number};
ghost use Rattle.kom_scenario.specs.Rules as spec;
ghost use Rattle.kom_scenario.specs.Rules.{first_place, along};
ghost use Rattle.kom_scenario.specs.Judged.{IsJudged};

use crate::counts::crowded;
use crate::known::Known;
use crate::late::late;
use crate::numbers::settings_numbers;
use crate::places::earlier;
use crate::processes::{Linked, link};
use crate::raises::{Check, first_in};
use crate::scene::scene_of;
use crate::settings::set_twice;
use crate::tree::Scene;
use kom_scengram::ScenarioParts;
use kom_system::System;
use std::alloc::{AllocError, Global};

const TWICE: u8 = 6;

const UNKNOWN: u8 = 7;

const NUMBERS: u8 = 8;

const NOT_IN: u8 = 9;

const MISCOUNTED: u8 = 10;

const CROWDED: u8 = 11;

const LATE: u8 = 12;

#[tactic(auto, unfolding(crate::specs::Rules::twice))]
fn twice(linked: &Linked<'_>, tree: &ScenarioParts) -> Option<u32>
    requires { linked.now.twice ≡ first_place (along spec.named_twice [] tree.now.sources) }
    ensures { result ≡ first_place (spec.twice tree.now) }
{
    earlier(set_twice(tree.settings.as_slice()), linked.twice)
}

#[tactic(auto, unfolding(crate::specs::Rules::unknown))]
fn unknown(known: &Known<'_>, linked: &Linked<'_>, tree: &ScenarioParts) -> Option<u32>
    requires { linked.now.unknown ≡ first_place (along spec.process_unknown [] tree.now.sources) }
    ensures { result ≡ first_place (spec.unknown known.now.system.now tree.now) }
{
    earlier(
        first_in(known, Check::Names, tree.sources.as_slice()),
        linked.unknown,
    )
}

#[tactic(auto, unfolding(crate::specs::Rules::numbers))]
fn numbers(known: &Known<'_>, tree: &ScenarioParts) -> Option<u32>
    ensures { result ≡ first_place (spec.numbers tree.now) }
{
    earlier(
        settings_numbers(tree.settings.as_slice()),
        first_in(known, Check::Numbers, tree.sources.as_slice()),
    )
}

#[tactic(auto, unfolding(crate::specs::Rules::misplaced))]
fn misplaced(known: &Known<'_>, tree: &ScenarioParts) -> Option<u32>
    ensures { result ≡ first_place (spec.misplaced known.now.system.now tree.now) }
{
    first_in(known, Check::Types, tree.sources.as_slice())
}

#[tactic(auto, unfolding(crate::specs::Rules::unmatched))]
fn unmatched(known: &Known<'_>, tree: &ScenarioParts) -> Option<u32>
    ensures { result ≡ first_place (spec.unmatched known.now.system.now tree.now) }
{
    first_in(known, Check::Counts, tree.sources.as_slice())
}

/// The least broken rule but for the last, with its first place.
fn first_broken(known: &Known<'_>, linked: &Linked<'_>, tree: &ScenarioParts) -> Option<(u8, u32)>
    requires twice { linked.now.twice ≡ first_place (along spec.named_twice [] tree.now.sources) }
    requires unknown { linked.now.unknown ≡ first_place (along spec.process_unknown [] tree.now.sources) }
    ensures { result ≡ spec.least_broken (spec.first_rules known.now.system.now tree.now) }
{
    if let Some(at) = twice(linked, tree) {
        return Some((TWICE, at));
    }
    if let Some(at) = unknown(known, linked, tree) {
        return Some((UNKNOWN, at));
    }
    if let Some(at) = numbers(known, tree) {
        return Some((NUMBERS, at));
    }
    if let Some(at) = misplaced(known, tree) {
        return Some((NOT_IN, at));
    }
    if let Some(at) = unmatched(known, tree) {
        return Some((MISCOUNTED, at));
    }
    if let Some(at) = crowded(tree.sources.as_slice()) {
        return Some((CROWDED, at));
    }
    None
}

/// A tree that breaks no rule with numbers for its names, or the rule that it breaks.
#[derive(Debug, Drop)]
pub enum Judged {
    Scene(Scene),
    /// The least broken rule of 6 to 12, with the first place where it is broken.
    Broken { rule: u8, at: u32 },
}

/// Looks at the last rule; the others are not broken.
fn last_broken(
    alloc: Global,
    known: &Known<'_>,
    linked: &Linked<'_>,
    tree: &ScenarioParts,
) -> Result<Judged, AllocError>
    requires unbroken { spec.least_broken (spec.first_rules known.now.system.now tree.now) ≡ None }
    requires linked { Knows linked.now.names (process_number tree.now.sources) }
    ensures { IfOk result (IsJudged known.now.system.now tree.now) }
{
    let scene = scene_of(alloc, known, &linked.names, tree)?;
    let place = late(alloc, tree.sources.as_slice(), scene.sources.as_slice())?;
    match place {
        Some(at) => Ok(Judged::Broken { rule: LATE, at }),
        None => Ok(Judged::Scene(scene)),
    }
}

/// Looks whether a tree breaks a rule for a system.
pub fn judge(alloc: Global, system: &System, tree: &ScenarioParts) -> Result<Judged, AllocError>
    ensures { IfOk result (IsJudged system.now tree.now) }
{
    let known = Known::of(alloc, system)?;
    let linked = link(alloc, tree.sources.as_slice())?;
    if let Some((rule, at)) = first_broken(&known, &linked, tree) {
        return Ok(Judged::Broken { rule, at });
    }
    last_broken(alloc, &known, &linked, tree)
}
