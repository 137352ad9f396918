ghost use Rattle.std.specs.Prelude.{◌≡◌, ℕ, List};
ghost use Rattle.std.specs.List.{flat_map};
ghost use Rattle.kom_rules.specs.Names.{Name, first_place};
ghost use Rattle.kom_rules.specs.Walks.{standing, with_inside};
ghost use Rattle.kom_system.specs.declared.parts.StmtPart.{out-StmtPart};

use crate::places::earlier;
use kom_system::StmtPart;

/// What says of statements at which places something holds.
pub trait OfStatement {
    /// The places for a statement itself, without the statements in its blocks.

    ghost use Rattle.kom_rules.specs.Walks.{One as Statement};

    ghost of: { Self → Statement → List ℕ };

    /// The first of them.
    fn first_of_statement(&self, stmt: &StmtPart) -> Option<u32>
        ensures { result ≡ first_place (of self.now (out-StmtPart stmt.now)) };
}

/// The first place of the statements of a block and of the blocks inside it, as deep as so many
/// levels. It takes no memory.
#[cycle(statements)]
pub fn first_in_block<S: OfStatement>(says: &S, levels: u8, block: &[StmtPart]) -> Option<u32>
    ensures { (scope : List Name) → result ≡ first_place (flat_map (λ x. S.of says.now x.stmt) (standing levels scope block.now)) }
{
    if levels == 0 {
        return None;
    }
    let mut first = None;
    for stmt in block {
        first = earlier(first, first_in_statement(says, levels - 1, stmt));
    }
    first
}

/// The first place of a statement and of those in its blocks.
#[cycle(statements)]
fn first_in_statement<S: OfStatement>(says: &S, levels: u8, stmt: &StmtPart) -> Option<u32>
    ensures { (scope : List Name) → result ≡ first_place (flat_map (λ x. S.of says.now x.stmt) (with_inside (standing levels) scope (out-StmtPart stmt.now))) }
{
    let own = says.first_of_statement(stmt);
    match stmt {
        StmtPart::If { block, other, .. } => {
            let then = first_in_block(says, levels, block.as_slice());
            let otherwise = match other {
                Some(other) => first_in_block(says, levels, other.as_slice()),
                None => None,
            };
            earlier(own, earlier(then, otherwise))
        }
        StmtPart::While { block, .. } => {
            earlier(own, first_in_block(says, levels, block.as_slice()))
        }
        _ => own,
    }
}
