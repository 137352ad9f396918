ghost use Rattle.std.specs.Prelude.{◌≡◌, [], ◌++◌, OnOk};
ghost use Rattle.kom_record.specs.Reaction as reaction;

use kom_base::Values;
use kom_record::{Control, Item};
use kom_values::Scope;
use std::alloc::AllocError;

/// What `it` names: the attributes of the event, and `none` where the item is no event.
pub fn attributes_of<'a>(item: &'a Item, none: &'a Values) -> &'a Values
    requires { none.now ≡ [] }
    ensures { result.now ≡ reaction.attributes_of item.now }
{
    match item {
        Item::Arrival { event, .. } => &event.values,
        Item::Control(_) => none,
    }
}

/// The state that a dumped item carries, and `none` where the item is another.
pub fn state_of<'a>(item: &'a Item, none: &'a Values) -> &'a Values
    requires { none.now ≡ [] }
    ensures { result.now ≡ reaction.state_of item.now }
{
    match item {
        Item::Control(Control::Dumped { values, .. }) => values,
        _ => none,
    }
}

fn push_all(scope: &mut Scope, values: &Values) -> Result<(), AllocError>
    ensures { OnOk result (scope.new ≡ scope.old ++ values.now) }
{
    for i in 0..values.len() {
        scope.push(values.at(i).unwrap_or(0))?;
    }
    Ok(())
}

/// The scope with which a handler begins: its parameters.
pub fn begin(item: &Item, scope: &mut Scope) -> Result<(), AllocError>
    ensures { OnOk result (scope.new ≡ reaction.parameters item.now) }
{
    scope.truncate(0);
    match item {
        Item::Control(Control::Init(values)) => push_all(scope, values),
        Item::Control(Control::Fault { slot, number }) => {
            scope.push(i64::from(*slot))?;
            scope.push(i64::from(*number))
        }
        Item::Control(Control::Dumped { slot, .. }) => scope.push(i64::from(*slot)),
        _ => Ok(()),
    }
}
