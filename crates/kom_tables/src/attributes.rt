ghost use Rattle.std.specs.Prelude.{◌≡◌, [], ◌∷◌, ◌++◌, map, reverse, slice_index_or, IfOk};
ghost use Rattle.std.specs.List.{flat_map};
ghost use Rattle.kom_rules.specs.Names.{names_of};
ghost use Rattle.kom_rules.specs.Spaces.{built_in_attributes, own_attributes as own_names};
ghost use Rattle.kom_tables.specs.Ancestry.{names_along};

use kom_base::Copied;
use kom_lang::{Name, Names};
use kom_system::{Parts, Spot};
use sqlite_items::{Items, at};
use std::alloc::{AllocError, Global};

/// One name. The error is want of memory, as in all calls below.
fn one(alloc: Global, name: &[u8]) -> Result<Names, AllocError>
    ensures { IfOk result (λ names. names ≡ name.now ∷ []) }
{
    let mut names = Items::new(alloc);
    names.push(Name::of(alloc, name)?)?;
    Ok(names)
}

/// Two names.
fn two(alloc: Global, first: &[u8], second: &[u8]) -> Result<Names, AllocError>
    ensures { IfOk result (λ names. names ≡ first.now ∷ second.now ∷ []) }
{
    let mut names = one(alloc, first)?;
    names.push(Name::of(alloc, second)?)?;
    Ok(names)
}

/// The names of the attributes of the built-in event types.
fn built_in(alloc: Global) -> Result<Items<Names>, AllocError>
    ensures { IfOk result (λ own. own ≡ built_in_attributes) }
{
    let mut own = Items::new(alloc);
    own.push(two(alloc, b"id", b"delay")?)?;
    own.push(one(alloc, b"id")?)?;
    own.push(one(alloc, b"id")?)?;
    own.push(two(alloc, b"src", b"dst")?)?;
    Ok(own)
}

/// The names of some spots.
fn names_of_spots(alloc: Global, spots: &[Spot]) -> Result<Names, AllocError>
    ensures { IfOk result (λ names. names ≡ names_of spots.now) }
{
    let mut names = Items::new(alloc);
    for spot in spots {
        names.push(spot.name.copy(alloc)?)?;
    }
    Ok(names)
}

/// The names of the attributes that each event type adds.
pub fn own_attributes(alloc: Global, parts: &Parts) -> Result<Items<Names>, AllocError>
    ensures { IfOk result (λ own. own ≡ own_names parts.now) }
{
    let mut own = built_in(alloc)?;
    for part in parts.events.as_slice() {
        own.push(names_of_spots(alloc, part.attrs.as_slice())?)?;
    }
    Ok(own)
}

/// The names that one event type adds; none where there is no such type.
fn added_by(alloc: Global, own: &[Names], kind: usize) -> Result<Names, AllocError>
    ensures { IfOk result (λ names. names ≡ slice_index_or own.now kind []) }
{
    match at(own, kind) {
        Some(names) => names.copy(alloc),
        None => Ok(Items::new(alloc)),
    }
}

/// The names that the event types of a line add, those of the last type first.
fn names_of_line(alloc: Global, own: &[Names], line: &[usize]) -> Result<Names, AllocError>
    ensures { IfOk result (λ names. names ≡ names_along own.now line.now) }
{
    let mut names = Items::new(alloc);
    for kind in line {
        let mut more = added_by(alloc, own, *kind)?;
        more.append(names)?;
        names = more;
    }
    Ok(names)
}

/// The names of the attributes of each event type, by the lines of ancestors.
pub fn attributes_of(
    alloc: Global,
    own: &[Names],
    lines: &[Items<usize>],
) -> Result<Items<Names>, AllocError>
    ensures { IfOk result (λ table. table ≡ map (names_along own.now) lines.now) }
{
    let mut table = Items::new(alloc);
    for line in lines {
        table.push(names_of_line(alloc, own, line.as_slice())?)?;
    }
    Ok(table)
}
