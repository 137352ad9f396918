ghost use Rattle.std.specs.Prelude.{◌≡◌, ℕ, List, [], OnOk, IfOk, Some, None, if◌then◌else◌};
ghost use Rattle.kom_base.specs.Lists.{either};
ghost use Rattle.kom_scengram.specs.declared.parts.SourcePart.{SourcePart as Part};
ghost use Rattle.kom_scenario.specs.Names.{found, Knows};
ghost use Rattle.kom_scenario.specs.Named.{is_process, process_number};
ghost use Rattle.kom_scenario.specs.Rules as spec;
ghost use Rattle.kom_scenario.specs.Rules.{first_place, along};

use crate::names::Names;
use crate::places::{earlier, place_if};
use kom_scengram::{SourcePart, StartPart};
use std::alloc::{AllocError, Global};

/// A process of a name that one before it has.
fn named_twice(names: &Names<'_>, source: &SourcePart) -> Option<u32>
    ensures { (before : List Part) → Knows names.now (process_number before) → result ≡ first_place (spec.named_twice before source.now) }
{
    match source {
        SourcePart::At { .. } => None,
        SourcePart::Process(process) => {
            let name = &process.name;
            place_if(names.find(name.name.bytes()).is_some(), name.at)
        }
    }
}

/// A process that begins after one that is not before it.
fn process_unknown(names: &Names<'_>, source: &SourcePart) -> Option<u32>
    ensures { (before : List Part) → Knows names.now (process_number before) → result ≡ first_place (spec.process_unknown before source.now) }
{
    match source {
        SourcePart::At { .. } => None,
        SourcePart::Process(process) => match &process.start {
            StartPart::At(_) => None,
            StartPart::After { process, .. } => {
                place_if(names.find(process.name.bytes()).is_none(), process.at)
            }
        },
    }
}

fn note<'t>(names: &mut Names<'t>, source: &'t SourcePart, number: usize) -> Result<(), AllocError>
    ensures { OnOk result ((q : List ℕ) → found names.new q ≡ either (found names.old q) (if is_process q source.now then Some number else None)) }
{
    match source {
        SourcePart::At { .. } => Ok(()),
        SourcePart::Process(process) => names.add(process.name.name.bytes(), number),
    }
}

/// The names of processes, and the first places where they break a rule.
#[derive(Drop)]
pub struct Linked<'t> {
    pub names: Names<'t>,
    /// A name comes again.
    pub twice: Option<u32>,
    /// A process is named that is not declared before.
    pub unknown: Option<u32>,
}

/// Looks at the names of processes in the order of the text.
pub fn link(alloc: Global, sources: &[SourcePart]) -> Result<Linked<'_>, AllocError>
    ensures names { IfOk result (λ x. Knows x.names (process_number sources.now)) }
    ensures twice { IfOk result (λ x. x.twice ≡ first_place (along spec.named_twice [] sources.now)) }
    ensures unknown { IfOk result (λ x. x.unknown ≡ first_place (along spec.process_unknown [] sources.now)) }
{
    let mut names = Names::new(alloc);
    let mut twice = None;
    let mut unknown = None;
    for (k, source) in sources.iter().enumerate() {
        twice = earlier(twice, named_twice(&names, source));
        unknown = earlier(unknown, process_unknown(&names, source));
        note(&mut names, source, k)?;
    }
    Ok(Linked {
        names,
        twice,
        unknown,
    })
}
