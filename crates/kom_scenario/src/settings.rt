ghost use Rattle.std.specs.Prelude.{◌≡◌, ℕ, ◌||◌, []};
ghost use Rattle.kom_scengram.specs.declared.parts.SettingPart.{SettingPart as Part};
ghost use Rattle.kom_scenario.specs.Scenes as spec;
ghost use Rattle.kom_scenario.specs.Rules.{first_place, along, set_twice, setting_at};
ghost use Rattle.kom_scenario.specs.Seen.{has};

use crate::places::{earlier, place_if};
use kom_scengram::SettingPart;

/// What a setting sets.
#[derive(Clone, Copy, Debug, PartialEq, Eq)]
pub enum Setting {
    Seed,
    Steps,
    Instants,
    Network,
}

fn setting_of(part: &SettingPart) -> Setting
    ensures { result ≡ spec.setting_of part.now }
{
    match part {
        SettingPart::Seed { .. } => Setting::Seed,
        SettingPart::Steps { .. } => Setting::Steps,
        SettingPart::Instants { .. } => Setting::Instants,
        SettingPart::Network { .. } => Setting::Network,
    }
}

/// The place of a setting's word.
fn setting_at(part: &SettingPart) -> u32
    ensures { result ≡ setting_at part.now }
{
    match part {
        SettingPart::Seed { at, .. } => *at,
        SettingPart::Steps { at, .. } => *at,
        SettingPart::Instants { at, .. } => *at,
        SettingPart::Network { at, .. } => *at,
    }
}

fn same_setting(a: Setting, b: Setting) -> bool
    ensures { result ≡ spec.same_setting a b }
{
    a == b
}

/// The first setting with this word.
#[tactic(auto, unfolding(crate::specs::Scenes::set))]
pub fn set(parts: &[SettingPart], setting: Setting) -> Option<SettingPart>
    ensures { result ≡ spec.set parts.now setting }
{
    for part in parts {
        if same_setting(setting_of(part), setting) {
            return Some(*part);
        }
    }
    None
}

/// Which settings have come.
#[derive(Clone, Copy)]
pub struct Seen {
    pub seed: bool,
    pub steps: bool,
    pub instants: bool,
    pub network: bool,
}

impl Seen {
    fn has(&self, setting: Setting) -> bool
        ensures { result ≡ has self.now setting }
    {
        match setting {
            Setting::Seed => self.seed,
            Setting::Steps => self.steps,
            Setting::Instants => self.instants,
            Setting::Network => self.network,
        }
    }

    fn note(&mut self, setting: Setting)
        ensures { (x : Setting) → has self.new x ≡ (has self.old x || spec.same_setting setting x) }
    {
        match setting {
            Setting::Seed => self.seed = true,
            Setting::Steps => self.steps = true,
            Setting::Instants => self.instants = true,
            Setting::Network => self.network = true,
        }
    }
}

/// The first place where a setting comes again.
pub fn set_twice(parts: &[SettingPart]) -> Option<u32>
    ensures { result ≡ first_place (along set_twice [] parts.now) }
{
    let mut seen = Seen {
        seed: false,
        steps: false,
        instants: false,
        network: false,
    };
    let mut found = None;
    for part in parts {
        let setting = setting_of(part);
        let again = place_if(seen.has(setting), setting_at(part));
        found = earlier(found, again);
        seen.note(setting);
    }
    found
}
