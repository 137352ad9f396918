ghost use Rattle.std.specs.Prelude.{◌≡◌, ◌<◌, ◌≤◌, ◌+◌, ℕ, List, [], ◌∷◌, ◌++◌, nat_lt, length, take, slice_index_or, IfOk, OnOk, Option, if◌then◌else◌};
ghost use Rattle.kom_rules.specs.Names.{Name as Bytes};
ghost use Rattle.kom_ancestors.specs.Far.{to as leads};
ghost use Rattle.kom_ancestors.specs.Passed.{Passes, names_by as names_led_to};

use crate::steps::{joined as joined_to, led_from};
use kom_base::Copied;
use kom_lang::{Name, Names};
use sqlite_items::{Items, at};
use std::alloc::{AllocError, Global};

/// Names are kept up to this many: one more than a type may have.
const KEPT: usize = 9;

/// For each event type where so many steps to parents lead, and the first 9 names of attributes that
/// the types on the way add, itself included and that at the end not, those of the last one first.
#[derive(Drop)]
pub struct Steps {
    pub to: Items<Option<usize>>,
    pub names: Items<Names>,
}

/// Adds a name at the end where there are fewer than 9. The error is want of memory, as in all calls
/// below.
fn push_if_few(alloc: Global, list: &mut Names, name: &Name) -> Result<(), AllocError>
    ensures { OnOk result (list.new ≡ (if nat_lt (length list.old) 9 then list.old ++ name.now ∷ [] else list.old)) }
{
    if list.len() < KEPT {
        list.push(name.copy(alloc)?)?;
    }
    Ok(())
}

/// Adds names at the end as far as there are no more than 9.
fn push_first(alloc: Global, list: &mut Names, more: &[Name]) -> Result<(), AllocError>
    requires { length list.old ≤ 9 }
    ensures { OnOk result (list.new ≡ take 9 (list.old ++ more.now)) }
{
    for name in more {
        push_if_few(alloc, list, name)?;
    }
    Ok(())
}

/// The names of a type, if there is one.
fn names_by<'a>(names: &'a Items<Names>, next: Option<usize>) -> &'a [Name]
    ensures { result.now ≡ names_led_to names.now next }
{
    let Some(kind) = next else {
        return &[];
    };
    match at(names.as_slice(), kind) {
        Some(list) => list.as_slice(),
        None => &[],
    }
}

/// The first 9 names of two lists, one behind the other.
fn first_names(alloc: Global, front: &[Name], behind: &[Name]) -> Result<Names, AllocError>
    ensures { IfOk result (λ list. list ≡ take 9 (take 9 front.now ++ behind.now)) }
{
    let mut list = Items::new(alloc);
    push_first(alloc, &mut list, front)?;
    push_first(alloc, &mut list, behind)?;
    Ok(list)
}

/// For each type the names on its way by some steps and then by some more.
fn names_joined(
    alloc: Global,
    first: &Steps,
    after: &Items<Names>,
) -> Result<Items<Names>, AllocError>
    ensures count { IfOk result (λ table. length table ≡ length first.now.names) }
    ensures each { IfOk result (λ table. (k : ℕ) → k < length first.now.names → slice_index_or table k [] ≡ take 9 (take 9 (names_led_to after.now (leads first.now.to k)) ++ slice_index_or first.now.names k [])) }
{
    let mut table = Items::new(alloc);
    for (kind, names) in first.names.as_slice().iter().enumerate() {
        let next = led_from(first.to.as_slice(), Some(kind));
        let list = first_names(alloc, names_by(after, next), names.as_slice())?;
        table.push(list)?;
    }
    Ok(table)
}

impl Steps {
    /// No step: each type leads to itself.
    fn none(alloc: Global, count: usize) -> Result<Steps, AllocError>
        ensures { (parents : List (Option ℕ)) (own : List (List Bytes)) → length parents ≡ count → IfOk result (λ steps. Passes steps 0 parents own) }
    {
        let mut to = Items::new(alloc);
        let mut names = Items::new(alloc);
        for kind in 0..count {
            to.push(Some(kind))?;
            names.push(Items::new(alloc))?;
        }
        Ok(Steps { to, names })
    }

    /// One step, where `own` has the names that each type adds.
    fn one(alloc: Global, parents: &[Option<usize>], own: &[Names]) -> Result<Steps, AllocError>
        requires { length own.now ≡ length parents.now }
        ensures { IfOk result (λ steps. Passes steps 1 parents.now own.now) }
    {
        let mut names = Items::new(alloc);
        for list in own {
            names.push(first_names(alloc, &[], list.as_slice())?)?;
        }
        Ok(Steps {
            to: Items::from_slice(alloc, parents)?,
            names,
        })
    }

    /// These steps, and then some more, one at least.
    fn and_then(&self, alloc: Global, more: &Steps) -> Result<Steps, AllocError>
        ensures { (m n : ℕ) (parents : List (Option ℕ)) (own : List (List Bytes)) → Passes self.now m parents own → Passes more.now n parents own → 1 ≤ n → IfOk result (λ steps. Passes steps (m + n) parents own) }
    {
        Ok(Steps {
            to: joined_to(alloc, self.to.as_slice(), more.to.as_slice())?,
            names: names_joined(alloc, self, &more.names)?,
        })
    }

    /// The same only where the test holds, and else these steps.
    fn and_then_if(self, alloc: Global, test: bool, more: &Steps) -> Result<Steps, AllocError>
        ensures { (m n : ℕ) (parents : List (Option ℕ)) (own : List (List Bytes)) → Passes self m parents own → Passes more.now n parents own → 1 ≤ n → IfOk result (λ steps. Passes steps (if test then m + n else m) parents own) }
    {
        if test {
            self.and_then(alloc, more)
        } else {
            Ok(self)
        }
    }

    /// As many steps as there are types, by doubling.
    pub fn all(alloc: Global, parents: &[Option<usize>], own: &[Names]) -> Result<Steps, AllocError>
        requires { length own.now ≡ length parents.now }
        ensures { IfOk result (λ steps. Passes steps (length parents.now) parents.now own.now) }
    {
        let mut done = Steps::none(alloc, parents.len())?;
        let mut power = Steps::one(alloc, parents, own)?;
        let mut left = parents.len();
        'doubling: while left > 0 {
            done = done.and_then_if(alloc, left % 2 == 1, &power)?;
            power = power.and_then(alloc, &power)?;
            left /= 2;
        }
        Ok(done)
    }
}
