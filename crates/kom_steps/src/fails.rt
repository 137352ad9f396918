ghost use Rattle.std.specs.Prelude.{◌↔◌, IsTrue, [], ◌∷◌};
ghost use Rattle.kom_steps.specs.Faults.{FailsFit};

use kom_lang::Stmt;

const MAX_FAIL: u16 = 899;

/// Whether each `fail` in a statement, and in blocks inside it, has a number that it may have.
#[cycle(fails)]
fn fail_fits(statement: &Stmt) -> bool
    ensures { IsTrue result ↔ FailsFit (statement.now ∷ []) }
{
    match statement {
        Stmt::If { block, other, .. } => {
            if !fails_fit(block.as_slice()) {
                return false;
            }
            match other {
                Some(other) => fails_fit(other.as_slice()),
                None => true,
            }
        }
        Stmt::While { block, .. } => fails_fit(block.as_slice()),
        Stmt::Fail(number) => *number <= MAX_FAIL,
        _ => true,
    }
}

/// Whether each `fail` in the statements, and in blocks inside them, has a number of at most 899:
/// the condition of `run_statements`. It takes no memory.
#[cycle(fails)]
pub fn fails_fit(block: &[Stmt]) -> bool
    ensures { IsTrue result ↔ FailsFit block.now }
{
    for statement in block {
        if !fail_fits(statement) {
            return false;
        }
    }
    true
}
