ghost use Rattle.std.specs.Prelude.{◌≡◌, Some, None};
ghost use Rattle.kom_rules.specs.Broken.{broken_rule};
ghost use Rattle.kom_rules.specs.Examples.{later_variable, unknown_port, own_container, short_answer, nothing_broken};

/// A law: which rule small files break, and where.
#[tactic(auto, unfolding(crate::specs::Compute::computing))]
pub fn small_files()
    ensures later_name { broken_rule later_variable ≡ Some (record { number = 6; at = 57 }) }
    ensures port_in_slot { broken_rule unknown_port ≡ Some (record { number = 7; at = 79 }) }
    ensures on_the_cycle { broken_rule own_container ≡ Some (record { number = 14; at = 50 }) }
    ensures least_rule { broken_rule short_answer ≡ Some (record { number = 24; at = 54 }) }
    ensures kept { broken_rule nothing_broken ≡ None }
{}
