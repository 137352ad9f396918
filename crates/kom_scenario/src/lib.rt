//! Scenarios: what they may not break for a system, and the value of a text that breaks nothing.
#![tactic(auto)]

mod counts;
mod judge;
mod known;
mod late;
mod names;
mod numbers;
mod places;
mod processes;
mod raises;
mod read;
mod scenario;
mod scene;
mod settings;
mod tree;

pub use late::moment_of;
pub use read::{ScenarioRead, read_scenario};
pub use scenario::Scenario;
pub use settings::Setting;
pub use tree::{Arg, Args, Process, Raising, Scene, Source, Sources, Start};
