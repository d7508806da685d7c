//! Changes of a part of a linear hybrid automaton.
ghost use Rattle.std.specs.Prelude.{◌≡◌};
ghost use Rattle.hybrid.specs.Systems.{IsKeptHybrid};
ghost use Rattle.hybrid.specs.Changes.{changed_hybrid, FitsHybrid};

use crate::hybrid::Hybrid;
use poly_pair::Poly;

/// A change of a hybrid automaton.
#[derive(Drop)]
pub enum HybridChange {
    /// The invariant of a location is replaced.
    Invariant(usize, Poly),
    /// The flow of a location is replaced.
    Flow(usize, Poly),
}

impl HybridChange {
    /// Makes the change.
    pub fn apply(self, automaton: &mut Hybrid)
        requires { FitsHybrid automaton.old self }
        ensures changed { automaton.new ≡ changed_hybrid automaton.old self }
        ensures kept { IsKeptHybrid automaton.new }
    {
        match self {
            HybridChange::Invariant(location, p) => automaton.set_inv(location, p),
            HybridChange::Flow(location, p) => automaton.set_flow(location, p),
        }
        let _ = automaton.system();
    }
}
