ghost use Rattle.std.specs.Prelude.{◌≡◌, ℕ, List, ◌++◌};
ghost use Rattle.kom_scenario.specs.Numbers.{place_if};
ghost use Rattle.kom_scenario.specs.Rules.{first_place, earlier};

fn first_of(a: Option<u32>, b: Option<u32>) -> Option<u32>
    ensures { result ≡ earlier a b }
{
    match (a, b) {
        (Some(x), Some(y)) => Some(if y < x { y } else { x }),
        (Some(x), None) => Some(x),
        (None, y) => y,
    }
}

/// The earlier of two places that may be there.
#[tactic(auto, using(crate::proofs::Least::earlier_of))]
pub fn earlier(a: Option<u32>, b: Option<u32>) -> Option<u32>
    ensures { (xs ys : List ℕ) → a ≡ first_place xs → b ≡ first_place ys → result ≡ first_place (xs ++ ys) }
{
    first_of(a, b)
}

/// A place, where the test holds.
pub fn place_if(test: bool, at: u32) -> Option<u32>
    ensures { result ≡ first_place (place_if test at) }
{
    if test { Some(at) } else { None }
}
