ghost use Rattle.std.specs.Prelude.{◌≡◌};
ghost use Rattle.kom_scenario.specs.Sound.{IsSound};

use crate::tree::Scene;
use std::marker::Model;

/// A scenario whose numbers are within their limits. Contracts see the tree of its file with
/// numbers for names.
#[derive(Debug, Drop)]
pub struct Scenario {
    scene: Scene,
}

impl Model for Scenario {
    ghost use Rattle.kom_scenario.specs.declared.tree.Scene.{Scene};
    ghost use Rattle.kom_scenario.specs.Sound.{IsSound};

    ghost Value = { Scene };

    ghost view = { λ s. s.scene };

    ghost invariant = { λ s. IsSound s.scene };
}

impl Scenario {
    /// A scenario of this tree.
    pub fn of(scene: Scene) -> Scenario
        requires { IsSound scene }
        ensures { result ≡ scene }
    {
        Scenario { scene }
    }

    /// The tree. It takes no memory.
    pub fn scene(&self) -> &Scene
        ensures value { result.now ≡ self.now }
        ensures sound { IsSound result.now }
    {
        &self.scene
    }
}
