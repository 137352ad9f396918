ghost use Rattle.std.specs.Prelude.{◌≡◌, ℕ, List, []};
ghost use Rattle.kom_text.specs.Pieces.{Piece, IsCut, IsBad};

/// A law: a text is cut in one way only, up to its end or to the first byte that begins no piece.
/// So `tokens` has one answer for each text, want of memory aside.
pub fn cuts_once()
    ensures { (ps qs : List Piece) (text rest more : List ℕ) → IsCut ps text rest → IsCut qs text more → IsBad rest → IsBad more → (ps ≡ qs) × (rest ≡ more) }
{}

/// A law: no piece begins at the end of a text.
pub fn ends_stuck()
    ensures { let ends : List ℕ = [] in IsBad ends }
{}
