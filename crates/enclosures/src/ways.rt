//! The ways in which constraints can fail.
ghost use Rattle.std.specs.Prelude.{◌≡◌, ◌+◌, ◌-◌, ◌^◌, ◌<◌, ◌++◌, ◌∷◌, [], length, IfOk, OnOk};
ghost use Rattle.row_core.specs.Range.{AllInRange};
ghost use Rattle.row_core.specs.Content.{IsPrimitive};
ghost use Rattle.cons_sys.specs.Constraints.{constraint_at};
ghost use Rattle.enclosures.specs.Ways.{ways_of, ways};

use cons_sys::{ConKind, ConsSys};
use row_core::{Memory, RowBuf};
use std::alloc::Global;

/// Appends the ways in which a constraint can fail.
fn push_ways(alloc: Global, system: &mut ConsSys, row: &[i128], kind: ConKind) -> Result<(), Memory>
    requires wide { length row.now ≡ system.old.dim + 1 }
    requires in_range { AllInRange row.now }
    requires primitive { IsPrimitive row.now }
    ensures dim { system.new.dim ≡ system.old.dim }
    ensures list { OnOk result (system.new.list ≡ system.old.list ++ ways_of (row.now, kind)) }
{
    let _narrow = system.dim();
    let turned = RowBuf::negated(alloc, row)?;
    match kind {
        ConKind::Eq => {
            system.push_primitive(row, ConKind::Gt)?;
            system.push_primitive(turned.cells(), ConKind::Gt)
        }
        ConKind::Ge => system.push_primitive(turned.cells(), ConKind::Gt),
        ConKind::Gt => system.push_primitive(turned.cells(), ConKind::Ge),
    }
}

/// The ways in which the constraints of a system can fail, in order.
pub(crate) fn ways(alloc: Global, cons: &ConsSys) -> Result<ConsSys, Memory>
    ensures { IfOk result (λ system. system ≡ ways cons.now) }
{
    let mut system = ConsSys::new(alloc, cons.dim());
    for index in 0..cons.len() {
        push_ways(alloc, &mut system, cons.row(index), cons.kind(index))?;
    }
    Ok(system)
}

/// A system of the one constraint.
pub(crate) fn one_of(alloc: Global, cons: &ConsSys, index: usize) -> Result<ConsSys, Memory>
    requires { index < length cons.now.list }
    ensures dim { IfOk result (λ system. system.dim ≡ cons.now.dim) }
    ensures list { IfOk result (λ system. system.list ≡ constraint_at cons.now.list index ∷ []) }
{
    let mut system = ConsSys::new(alloc, cons.dim());
    system.push_primitive(cons.row(index), cons.kind(index))?;
    Ok(system)
}
