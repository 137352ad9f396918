ghost use Rattle.std.specs.Prelude.{◌≡◌, IfOk, string_bytes};
ghost use Rattle.kom_loading.specs.Loading as loading;

use std::alloc::{AllocError, Global};

/// The line, with its newline, that names the broken rule of a file of a kind, `system` or
/// `scenario`, with the line and the column from 1. The error is want of memory.
pub fn refusal_line(
    alloc: Global,
    kind: &str,
    rule: u8,
    line: u32,
    column: u32,
) -> Result<String, AllocError>
    ensures { IfOk result (λ text. string_bytes text ≡ loading.refusal_line kind.now rule line column) }
{
    format!(in alloc; "refused {kind} rule {rule} at {line}:{column}\n")
}
