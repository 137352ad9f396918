ghost use Rattle.kom_sysprint.specs.Upgrading.{SameRecords, SamePlans, SameTexts};

/// A record is legal for a system and a plan exactly where it is for the upgraded system.
pub fn same_records()
    ensures { SameRecords }
{}

/// A plan fits a system exactly where it fits the upgraded one.
pub fn same_plans()
    ensures { SamePlans }
{}

/// A record has the same text with a system and with the upgraded one.
pub fn same_texts()
    ensures { SameTexts }
{}
