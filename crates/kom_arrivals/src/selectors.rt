ghost use Rattle.std.specs.Prelude.{◌≡◌, ◌++◌, IfOk};
ghost use Rattle.std.specs.List.{flat_map};
ghost use Rattle.kom_base.specs.declared.numbers.Dir.TheVariants.{Plus, Minus};
ghost use Rattle.kom_rules.specs.Names.{first_place};
ghost use Rattle.kom_rules.specs.Fitting.{unrelated, wrong_tests_of, wrong_tests};

use crate::typed::Typed;
use kom_base::Dir;
use kom_system::{ChannelPart, ComponentPart, Parts, Spot, TestPart};
use kom_tables::TypeTables;
use kom_walks::{Of, earlier, first_of};
use std::alloc::{AllocError, Global};

/// What says which tests for a direction of a channel are of no type that is related to what the
/// channel's port type lists.
#[derive(Drop)]
struct Tests<'a> {
    typed: &'a Typed<'a>,
    port: &'a Spot,
    dir: Dir,
}

impl Of<TestPart> for Tests<'_> {
    ghost places = { λ s t. unrelated s.typed.now.parts.now s.port.now s.dir t.kind };

    fn first(&self, test: &TestPart) -> Option<u32> {
        self.typed.unrelated(self.port, self.dir, &test.kind)
    }
}

/// The first such test for one direction.
fn of_tests<'x>(typed: &'x Typed<'x>, port: &'x Spot, dir: Dir, tests: &[TestPart]) -> Option<u32>
    ensures { result ≡ first_place (flat_map (λ t. unrelated typed.now.parts.now port.now dir t.kind) tests.now) }
{
    first_of(&Tests { typed, port, dir }, tests)
}

#[derive(Drop)]
struct Channels<'a> {
    typed: &'a Typed<'a>,
}

impl Of<ChannelPart> for Channels<'_> {
    ghost places = { λ s. wrong_tests_of s.typed.now.parts.now };

    fn first(&self, part: &ChannelPart) -> Option<u32> {
        let plus = of_tests(self.typed, &part.port, Dir::Plus, part.plus_when.as_slice());
        let minus = of_tests(
            self.typed,
            &part.port,
            Dir::Minus,
            part.minus_when.as_slice(),
        );
        earlier(plus, minus)
    }
}

impl Of<ComponentPart> for Channels<'_> {
    ghost places = { λ s c. flat_map (wrong_tests_of s.typed.now.parts.now) c.channels };

    fn first(&self, part: &ComponentPart) -> Option<u32> {
        first_of(self, part.channels.as_slice())
    }
}

/// The first test of a channel whose event type is neither kin nor ancestor of one that the
/// channel's port type lists for the direction, at the event type's name; `None` exactly where there
/// is none. The error is want of memory.
pub fn wrong_tests(alloc: Global, parts: &Parts) -> Result<Option<u32>, AllocError>
    ensures { IfOk result (λ first. first ≡ first_place (wrong_tests parts.now)) }
{
    let tables = TypeTables::of(alloc, parts)?;
    let typed = Typed {
        parts,
        tables: &tables,
    };
    Ok(first_of(&Channels { typed: &typed }, parts.components.as_slice()))
}
