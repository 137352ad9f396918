ghost use Rattle.kom_sysprint.specs.Examples.{Smallest, SmallestUpgraded, EachForm};

/// The text of the smallest system.
pub fn smallest()
    ensures { Smallest }
{}

/// The text of the smallest system when it is upgraded.
pub fn smallest_upgraded()
    ensures { SmallestUpgraded }
{}

/// The text of a system with each form of declaration, statement and expression.
pub fn each_form()
    ensures { EachForm }
{}
