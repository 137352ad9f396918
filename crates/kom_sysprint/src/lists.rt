ghost use Rattle.std.specs.Prelude.{◌≡◌, ◌<◌, ◌++◌, ℕ, ℤ, List, Some, OnOk, codes, length, slice_get};
ghost use Rattle.std.specs.List.{flat_map};
ghost use Rattle.kom_sysprint.specs.Canonical.{between, separated, arguments, integer};

use crate::words::{add_integer, add_word};
use kom_base::Values;
use kom_lang::Name;
use kom_lines::Text;
use std::alloc::AllocError;

/// What writes each item of a list.
pub trait Prints<T> {
    /// The text of an item.

    ghost printed: { Self → T → List ℕ };

    /// Adds it. The error is want of memory, after which nothing is said of the text.
    fn print(&self, text: &mut Text, item: &T) -> Result<(), AllocError>
        ensures { OnOk result (text.new ≡ text.old ++ printed self.now item.now) };
}

/// Adds the texts of all items.
pub fn add_each<T, P: Prints<T>>(text: &mut Text, prints: &P, items: &[T]) -> Result<(), AllocError>
    ensures { OnOk result (text.new ≡ text.old ++ flat_map (P.printed prints.now) items.now) }
{
    for item in items {
        prints.print(text, item)?;
    }
    Ok(())
}

/// Adds what stands before the item with a number.
fn add_between(text: &mut Text, separator: &[u8], i: usize) -> Result<(), AllocError>
    ensures { OnOk result (text.new ≡ text.old ++ between separator.now i) }
{
    if i > 0 {
        text.add(separator)?;
    }
    Ok(())
}

/// Adds the texts of all items, with a separator between them.
pub fn add_separated<T, P: Prints<T>>(
    text: &mut Text,
    separator: &[u8],
    prints: &P,
    items: &[T],
) -> Result<(), AllocError>
    ensures { OnOk result (text.new ≡ text.old ++ separated separator.now (P.printed prints.now) items.now) }
{
    for (i, item) in items.iter().enumerate() {
        add_between(text, separator, i)?;
        prints.print(text, item)?;
    }
    Ok(())
}

/// Adds the texts of all items in parentheses, with commas between them.
pub fn add_arguments<T, P: Prints<T>>(
    text: &mut Text,
    prints: &P,
    items: &[T],
) -> Result<(), AllocError>
    ensures { OnOk result (text.new ≡ text.old ++ arguments (P.printed prints.now) items.now) }
{
    text.add(b"( ")?;
    add_separated(text, b", ", prints, items)?;
    text.add(b") ")
}

/// Writes names.
#[derive(Drop)]
pub struct Words;

impl Prints<Name> for Words {
    ghost use Rattle.kom_sysprint.specs.Canonical.{word};

    ghost printed = { λ w name. word name };

    fn print(&self, text: &mut Text, name: &Name) -> Result<(), AllocError> {
        add_word(text, name.bytes())
    }
}

/// Adds the value at a place, and what stands before it.
fn add_value_at(text: &mut Text, values: &Values, i: usize) -> Result<(), AllocError>
    requires { i < length values.now }
    ensures { OnOk result ((v : ℤ) → slice_get values.now i ≡ Some v → text.new ≡ text.old ++ (between (codes ", ") i ++ integer v)) }
{
    add_between(text, b", ", i)?;
    match values.at(i) {
        Some(v) => add_integer(text, v),
        None => unreachable!(),
    }
}

fn add_integers(text: &mut Text, values: &Values) -> Result<(), AllocError>
    ensures { OnOk result (text.new ≡ text.old ++ separated (codes ", ") integer values.now) }
{
    for i in 0..values.len() {
        add_value_at(text, values, i)?;
    }
    Ok(())
}

/// Adds values in parentheses, with commas between them.
pub fn add_values(text: &mut Text, values: &Values) -> Result<(), AllocError>
    ensures { OnOk result (text.new ≡ text.old ++ arguments integer values.now) }
{
    text.add(b"( ")?;
    add_integers(text, values)?;
    text.add(b") ")
}
