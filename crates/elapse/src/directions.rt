//! Generators as directions.
ghost use Rattle.std.specs.Prelude.{◌≡◌, ◌+◌, ◌-◌, ◌^◌, ◌<◌, ◌++◌, ◌⊎◌, length, IfOk, OnOk};
ghost use Rattle.row_core.specs.Range.{AllInRange};
ghost use Rattle.elapse.specs.Directions.{AreDirections, GainsDirection, direction_kind};

use gens_sys::{GenKind, GenPushErr, GensSys};
use row_core::Memory;
use std::alloc::Global;

/// The kind of a generator of the kind as a direction.
fn direction_kind(kind: GenKind) -> GenKind
    ensures { result ≡ direction_kind kind }
{
    match kind {
        GenKind::Line => GenKind::Line,
        GenKind::Ray | GenKind::Point | GenKind::ClosurePoint => GenKind::Ray,
    }
}

/// Appends the vector as a direction, unless it is 0 as one.
fn push_direction(
    alloc: Global,
    directions: &mut GensSys,
    row: &[i128],
    kind: GenKind,
) -> Result<(), Memory>
    requires wide { length row.now ≡ directions.old.dim + 1 }
    requires in_range { AllInRange row.now }
    ensures dim { directions.new.dim ≡ directions.old.dim }
    ensures list { OnOk result (GainsDirection directions.old.dim directions.old.list
        directions.new.list row.now kind) }
{
    let last = directions.dim();
    let mut direction = row.to_vec(alloc)?;
    direction[last] = 0;
    match directions.push(&direction, direction_kind(kind)) {
        Ok(()) => Ok(()),
        Err(GenPushErr::ZeroVector) => Ok(()),
        Err(GenPushErr::BadDivisor) => unreachable!(),
        Err(GenPushErr::Memory) => Err(Memory),
    }
}

/// The generators as directions, without those that are 0 as directions.
pub(crate) fn directions(alloc: Global, gens: &GensSys) -> Result<GensSys, Memory>
    ensures dim { IfOk result (λ list. list.dim ≡ gens.now.dim) }
    ensures list { IfOk result (λ list. AreDirections gens.now.dim gens.now.list list.list) }
{
    let mut directions = GensSys::new(alloc, gens.dim());
    for index in 0..gens.len() {
        push_direction(alloc, &mut directions, gens.row(index), gens.kind(index))?;
    }
    Ok(directions)
}
