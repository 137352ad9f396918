ghost use Rattle.std.specs.Prelude.{◌≡◌, List, IfOk, map, slice_get};
ghost use Rattle.std.specs.Option.{option_copied};
ghost use Rattle.kom_rules.specs.Names.{Name, names_of, number_in, first_place, unknown as unknown_places};
ghost use Rattle.kom_lookups.specs.Numbered.{HasNumbers};

use kom_names::Numbers;
use kom_spaces::Declares;
use kom_system::Spot;
use kom_walks::at_if;
use sqlite_items::at;
use std::alloc::{AllocError, Global};

/// The numbers of the names that some parts declare, from 0 in their order.
pub fn numbers_of<T: Declares>(alloc: Global, parts: &[T]) -> Result<Numbers, AllocError>
    ensures { IfOk result (λ table. HasNumbers table (names_of (map T.named parts.now))) }
{
    let mut table = Numbers::new(alloc);
    for (i, part) in parts.iter().enumerate() {
        table.add(alloc, part.spot().name.bytes(), i)?;
    }
    Ok(table)
}

/// The place of a name that is not in a table.
pub fn unknown(table: &Numbers, spot: &Spot) -> Option<u32>
    ensures { (names : List Name) → HasNumbers table.now names → result ≡ first_place (unknown_places names spot.now) }
{
    let known = table.number(spot.name.bytes()).is_some();
    at_if(!known, spot.at)
}

/// The part that declares a name, by a table of the parts' names.
pub fn find_by<'a, T: Declares>(table: &Numbers, parts: &'a [T], spot: &Spot) -> Option<&'a T>
    ensures { HasNumbers table.now (names_of (map T.named parts.now)) → option_copied result ≡ slice_get parts.now (number_in (names_of (map T.named parts.now)) spot.now.name) }
{
    match table.number(spot.name.bytes()) {
        Some(number) => at(parts, number),
        None => None,
    }
}

/// The first part that declares a name, by a walk through the parts.
pub fn find<'a, T: Declares>(parts: &'a [T], spot: &Spot) -> Option<&'a T>
    ensures { option_copied result ≡ slice_get parts.now (number_in (names_of (map T.named parts.now)) spot.now.name) }
{
    for part in parts {
        if spot.name.bytes() == part.spot().name.bytes() {
            return Some(part);
        }
    }
    None
}
