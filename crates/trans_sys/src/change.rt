//! Changes of a part of a transition system.
ghost use Rattle.std.specs.Prelude.{◌≡◌, OnOk, OnErr};
ghost use Rattle.trans_sys.specs.Systems.{IsKeptSystem};
ghost use Rattle.trans_sys.specs.Changes.{changed_system, FitsSystem};

use crate::system::System;
use poly_pair::Poly;
use row_core::Memory;

/// A change of a transition system.
#[derive(Drop)]
pub enum SystemChange {
    /// The initial states of a location are replaced.
    Initial(usize, Poly),
    /// A transition is appended: its source, its target and its relation.
    Transition(usize, usize, Poly),
}

impl SystemChange {
    /// Makes the change. Out of memory, the system is as before.
    pub fn apply(self, system: &mut System) -> Result<(), Memory>
        requires { FitsSystem system.old self }
        ensures ok { OnOk result (system.new ≡ changed_system system.old self) }
        ensures kept { IsKeptSystem system.new }
        ensures err { OnErr result (system.new ≡ system.old) }
    {
        let made = match self {
            SystemChange::Initial(location, p) => {
                system.set_init(location, p);
                Ok(())
            }
            SystemChange::Transition(source, target, relation) => {
                system.push_trans(source, target, relation)
            }
        };
        let _ = system.dim();
        made
    }
}
