//! Changes of a part of a transition system or of a hybrid automaton.
ghost use Rattle.std.specs.Prelude.{◌≡◌, Some, IsSome, OnOk, OnErr};
ghost use Rattle.name_table.specs.Table.{entry_of, put};
ghost use Rattle.calc_state.specs.Changes.{changed_part, FitsPart};
ghost use Rattle.calc_state.specs.Entries.{IsKeptEntry};
ghost use Rattle.calc_state.specs.declared.entry.Entry.{Entry as AnyEntry};

use crate::entry::Entry;
use hybrid::HybridChange;
use name_table::Names;
use row_core::Memory;
use trans_sys::SystemChange;

/// A change of a part of an entry.
pub enum PartChange {
    /// Of a transition system.
    System(SystemChange),
    /// Of a hybrid automaton.
    Hybrid(HybridChange),
}

// Written by hand, so that a function that drops a change calls this one, and doesn't free each
// part itself.
impl Drop for PartChange {
    fn drop(self) {
        match self {
            PartChange::System(_) | PartChange::Hybrid(_) => (),
        }
    }
}

/// Changes a part of the entry under the name. Out of memory, the table is as before.
pub fn change_under(names: &mut Names<Entry>, name: &[u8], change: PartChange) -> Result<(), Memory>
    requires there { IsSome (entry_of names.old name.now) }
    requires fits { (e : AnyEntry) → entry_of names.old name.now ≡ Some e → FitsPart e change }
    ensures ok { OnOk result ((e : AnyEntry) → entry_of names.old name.now ≡ Some e
        → names.new ≡ put names.old name.now (changed_part e change)) }
    ensures kept { OnOk result ((e : AnyEntry) → entry_of names.old name.now ≡ Some e
        → IsKeptEntry (changed_part e change)) }
    ensures err { OnErr result (names.new ≡ names.old) }
{
    match names.get_mut(name) {
        Some(entry) => change.apply(entry),
        None => unreachable!(),
    }
}

impl PartChange {
    /// Makes the change, where the entry is of the kind that it is for. Out of memory, the
    /// entry is as before.
    pub fn apply(self, entry: &mut Entry) -> Result<(), Memory>
        requires { FitsPart entry.old self }
        ensures ok { OnOk result (entry.new ≡ changed_part entry.old self) }
        ensures kept { OnOk result (IsKeptEntry entry.new) }
        ensures err { OnErr result (entry.new ≡ entry.old) }
    {
        match self {
            PartChange::System(change) => match entry {
                Entry::System(system) => change.apply(system),
                _ => unreachable!(),
            },
            PartChange::Hybrid(change) => match entry {
                Entry::Hybrid(automaton) => {
                    change.apply(automaton);
                    Ok(())
                }
                _ => unreachable!(),
            },
        }
    }
}
