ghost use Rattle.std.specs.Prelude.{◌≡◌, ℕ, List};
ghost use Rattle.std.specs.List.{flat_map};
ghost use Rattle.kom_rules.specs.Names.{first_place};
ghost use Rattle.kom_rules.specs.Walks.{statements, of_statements};
ghost use Rattle.kom_system.specs.declared.parts.StmtPart.{out-StmtPart};

use crate::places::{Of, first_of};
use crate::statements::{OfStatement, first_in_block};
use kom_system::{ComponentPart, HandlerPart, OnPart, Parts, StmtPart};

/// Blocks are nested no deeper in a file.
const MAX_LEVELS: u8 = 16;

/// What says of the statements of a file, given the component type and what the handler handles, at
/// which places something holds.
pub trait OfHandling {
    ghost use Rattle.kom_system.specs.declared.parts.ComponentPart.{ComponentPart as Component};
    ghost use Rattle.kom_system.specs.declared.parts.OnPart.{OnPart as Handled};
    ghost use Rattle.kom_rules.specs.Walks.{One as Statement};

    /// The places for a statement itself, without the statements in its blocks.

    ghost says: { Self → Component → Handled → Statement → List ℕ };

    /// The first of them.
    fn first_said(&self, part: &ComponentPart, on: &OnPart, stmt: &StmtPart) -> Option<u32>
        ensures { result ≡ first_place (says self.now part.now on.now (out-StmtPart stmt.now)) };
}

#[derive(Drop)]
struct InHandler<'a, S> {
    says: &'a S,
    part: &'a ComponentPart,
    on: &'a OnPart,
}

impl<S: OfHandling> OfStatement for InHandler<'_, S> {
    ghost of = { λ s. S.says s.says.now s.part.now s.on.now };

    fn first_of_statement(&self, stmt: &StmtPart) -> Option<u32> {
        self.says.first_said(self.part, self.on, stmt)
    }
}

#[derive(Drop)]
struct InPart<'a, S> {
    says: &'a S,
    part: &'a ComponentPart,
}

impl<S: OfHandling> Of<HandlerPart> for InPart<'_, S> {
    ghost places = { λ s h. flat_map (λ x. S.says s.says.now s.part.now h.on x.stmt) (statements h) };

    fn first(&self, handler: &HandlerPart) -> Option<u32> {
        let says = InHandler {
            says: self.says,
            part: self.part,
            on: &handler.on,
        };
        first_in_block(&says, MAX_LEVELS, handler.block.as_slice())
    }
}

#[derive(Drop)]
struct InParts<'a, S> {
    says: &'a S,
}

impl<S: OfHandling> Of<ComponentPart> for InParts<'_, S> {
    ghost places = { λ s c. flat_map (λ h. flat_map (λ x. S.says s.says.now c h.on x.stmt) (statements h)) c.handlers };

    fn first(&self, part: &ComponentPart) -> Option<u32> {
        let says = InPart {
            says: self.says,
            part,
        };
        first_of(&says, part.handlers.as_slice())
    }
}

/// The first place of the statements of all handlers. It takes no memory.
pub fn first_of_statements<S: OfHandling>(says: &S, parts: &Parts) -> Option<u32>
    ensures { result ≡ first_place (of_statements (λ whole. S.says says.now) parts.now) }
{
    first_of(&InParts { says }, parts.components.as_slice())
}
