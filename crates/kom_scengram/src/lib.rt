//! Reads scenario files: from the bytes of a text to its syntax tree.
#![tactic(auto)]

mod args;
mod file;
mod parts;
mod settings;
mod sources;
mod text;

pub use parts::{
    ArgPart, ArgParts, Moment, ProcessPart, RaisePart, ScenarioParts, SettingPart, SettingParts,
    SourcePart, SourceParts, StartPart,
};
pub use text::read_scenario_parts;

#[cfg(test)]
mod tests;
