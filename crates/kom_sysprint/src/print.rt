ghost use Rattle.std.specs.Prelude.{◌≡◌, ◌<◌, ◌++◌, Some, length, slice_get, OnOk, IfOk};
ghost use Rattle.std.specs.List.{flat_map};
ghost use Rattle.kom_lang.specs.Declarations.{kind_of};
ghost use Rattle.kom_sysprint.specs.Canonical.{header_text, kind_text, root_text, canonical_text};

use crate::kinds::{Kinds, add_child};
use crate::lists::Prints;
use crate::types::{add_event_types, add_port_types};
use crate::words::add_number;
use kom_lines::{Names, Text};
use kom_system::System;
use std::alloc::{AllocError, Global};

fn add_header(text: &mut Text, version: u8) -> Result<(), AllocError>
    ensures { OnOk result (text.new ≡ text.old ++ header_text version) }
{
    text.add(b"system ")?;
    add_number(text, u64::from(version))?;
    text.add(b";\n")
}

fn add_kind_at(text: &mut Text, kinds: &Kinds<'_>, k: u16) -> Result<(), AllocError>
    ensures { OnOk result (text.new ≡ text.old ++ kind_text kinds.now.names.now (kind_of kinds.now.names.now.declarations k)) }
{
    kinds.print(text, kinds.names.kind(k))
}

fn add_kinds(text: &mut Text, kinds: &Kinds<'_>) -> Result<(), AllocError>
    ensures { OnOk result (text.new ≡ text.old ++ flat_map (kind_text kinds.now.names.now) kinds.now.names.now.declarations.kinds) }
{
    for k in 0..kinds.names.system().kinds() {
        add_kind_at(text, kinds, k)?;
    }
    Ok(())
}

fn add_root(text: &mut Text, names: &Names<'_>) -> Result<(), AllocError>
    ensures { OnOk result (text.new ≡ text.old ++ root_text names.now) }
{
    text.add(b"root ")?;
    add_child(text, names, names.system().root())?;
    text.add(b";\n")
}

fn add_system(text: &mut Text, alloc: Global, names: &Names<'_>) -> Result<(), AllocError>
    ensures { OnOk result (text.new ≡ text.old ++ canonical_text names.now) }
{
    add_header(text, names.system().version())?;
    add_event_types(text, names)?;
    add_port_types(text, names)?;
    add_kinds(text, &Kinds { alloc, names })?;
    add_root(text, names)
}

/// The canonical text of a system: its version, then all event types, port types and component
/// types that are declared, then the root. Each token has a space behind it, but `;`, `{` and `}`
/// a newline. Each operator stands with its operands in parentheses, and each variable with its
/// first value. Nothing below the sixteenth level of blocks is written, which no file has. The
/// error is want of memory.
pub fn print_system(alloc: Global, system: &System) -> Result<Vec<u8>, AllocError>
    ensures { IfOk result (λ text. text.items ≡ canonical_text system.now) }
{
    let names = Names::of(alloc, system)?;
    let mut text = Text::new(alloc);
    add_system(&mut text, alloc, &names)?;
    Vec::from_slice(alloc, text.as_bytes())
}
