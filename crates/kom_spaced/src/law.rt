ghost use Rattle.std.specs.Prelude.{◌≡◌, true, List};
ghost use Rattle.std.specs.List.{list_all};
ghost use Rattle.kom_spaced.specs.Spaced.{Written, can_stand, text_of, placed, AreReadAs};

/// A law: where each token is written with a blank behind it, the tokens of the text are these, one
/// after another, and each stands where the ones before it end.
pub fn spaced_is_read()
    ensures { (ts : List Written) → list_all can_stand ts ≡ true → AreReadAs (text_of ts) (placed 0 ts) }
{}
