//! The inequalities of a system, and their complements.
ghost use Rattle.std.specs.Prelude.{◌≡◌, ◌+◌, ◌-◌, ◌^◌, ◌++◌, ◌∷◌, [], length, map, IfOk, OnOk};
ghost use Rattle.row_core.specs.Range.{AllInRange};
ghost use Rattle.row_core.specs.Content.{IsPrimitive};
ghost use Rattle.cover_search.specs.Inequalities.{halves, inequalities, is_strict, opposite, complement};

use cons_sys::{ConKind, ConsSys};
use row_core::{Memory, RowBuf};
use std::alloc::Global;

/// Appends the inequalities of a constraint.
fn push_halves(
    alloc: Global,
    system: &mut ConsSys,
    row: &[i128],
    kind: ConKind,
) -> Result<(), Memory>
    requires wide { length row.now ≡ system.old.dim + 1 }
    requires in_range { AllInRange row.now }
    requires primitive { IsPrimitive row.now }
    ensures dim { system.new.dim ≡ system.old.dim }
    ensures list { OnOk result (system.new.list ≡ system.old.list ++ halves (row.now, kind)) }
{
    match kind {
        ConKind::Eq => {
            system.push_primitive(row, ConKind::Ge)?;
            let _narrow = system.dim();
            let turned = RowBuf::negated(alloc, row)?;
            system.push_primitive(turned.cells(), ConKind::Ge)
        }
        ConKind::Ge => system.push_primitive(row, ConKind::Ge),
        ConKind::Gt => system.push_primitive(row, ConKind::Gt),
    }
}

/// The inequalities of a system, in order.
pub(crate) fn inequalities_of(alloc: Global, cons: &ConsSys) -> Result<ConsSys, Memory>
    ensures { IfOk result (λ system. system ≡ inequalities cons.now) }
{
    let mut system = ConsSys::new(alloc, cons.dim());
    for index in 0..cons.len() {
        push_halves(alloc, &mut system, cons.row(index), cons.kind(index))?;
    }
    Ok(system)
}

/// The kind of the complement of an inequality.
fn opposite(kind: ConKind) -> ConKind
    ensures { result ≡ opposite kind }
{
    match kind {
        ConKind::Eq => ConKind::Eq,
        ConKind::Ge => ConKind::Gt,
        ConKind::Gt => ConKind::Ge,
    }
}

/// Whether an inequality of the kind is strict.
pub(crate) fn is_strict(kind: ConKind) -> bool
    ensures { result ≡ is_strict kind }
{
    match kind {
        ConKind::Eq => false,
        ConKind::Ge => false,
        ConKind::Gt => true,
    }
}

/// The complements of all inequalities, in order.
pub(crate) fn complements_of(alloc: Global, rows: &ConsSys) -> Result<ConsSys, Memory>
    ensures dim { IfOk result (λ system. system.dim ≡ rows.now.dim) }
    ensures list { IfOk result (λ system. system.list ≡ map complement rows.now.list) }
{
    let mut system = ConsSys::new(alloc, rows.dim());
    for index in 0..rows.len() {
        let turned = RowBuf::negated(alloc, rows.row(index))?;
        system.push_primitive(turned.cells(), opposite(rows.kind(index)))?;
    }
    Ok(system)
}
