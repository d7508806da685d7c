//! Systems of mapped generators.
ghost use Rattle.std.specs.Prelude.{◌≡◌, ℕ, ◌+◌, ◌-◌, ◌^◌, ◌<◌, length, pos, ◌<ℤ◌, All, IfOk, IfErr, OnOk};
ghost use Rattle.row_core.specs.Vectors.{cell};
ghost use Rattle.row_core.specs.Range.{InRange, AllInRange};
ghost use Rattle.gens_sys.specs.Kinds.{HasBadDivisor};
ghost use Rattle.gens_sys.specs.Generators.{FitDimension};
ghost use Rattle.mapped_systems.specs.Maps.{substituted, with_zeros, picked, remaining, kept_variables};
ghost use Rattle.mapped_systems.specs.MappedLists.{GainsMapped, IsMappedSystem};
ghost use Rattle.row_core.specs.Refusals.{IsOverflowIn};
ghost use Rattle.mapped_systems.specs.Refusals.{SomeLeavesInImage};

use crate::columns::{kept_variables, put_picked, put_with_zeros};
use crate::substitution::put_image;
use gens_sys::{GenKind, GenPushErr, GensSys};
use row_core::{ConvErr, Memory, Summing, bits};
use std::alloc::Global;

/// Appends a mapped vector, made primitive. A line or a ray that became 0 is left out.
fn push_mapped(gens: &mut GensSys, row: &[i128], kind: GenKind) -> Result<(), Memory>
    requires wide { length row.now ≡ gens.old.dim + 1 }
    requires in_range { AllInRange row.now }
    requires divisor { ¬ (HasBadDivisor kind (cell row.now gens.old.dim)) }
    ensures dim { gens.new.dim ≡ gens.old.dim }
    ensures list { OnOk result (GainsMapped gens.old.list gens.new.list row.now kind) }
{
    match gens.push(row, kind) {
        Ok(()) => Ok(()),
        Err(GenPushErr::ZeroVector) => Ok(()),
        Err(GenPushErr::Memory) => Err(Memory),
        Err(GenPushErr::BadDivisor) => unreachable!(),
    }
}

/// The generators in which the variable is replaced.
pub fn image_generators(
    alloc: Global,
    gens: &GensSys,
    var: usize,
    expr: &[i128],
    den: i128,
) -> Result<GensSys, ConvErr>
    requires var { var < gens.now.dim }
    requires wide { length expr.now ≡ gens.now.dim + 1 }
    requires expr_in_range { AllInRange expr.now }
    requires den_in_range { InRange den }
    requires positive { pos 0 <ℤ den }
    ensures fit { FitDimension gens.now }
    ensures system { IfOk result (IsMappedSystem (substituted var expr.now den)
        gens.now.dim gens.now) }
    ensures overflow { IfErr result
        (IsOverflowIn (SomeLeavesInImage var expr.now den gens.now.list)) }
{
    let mut mapped = GensSys::with_room(alloc, gens.dim(), gens.len())?;
    let mut image = Vec::with_capacity(alloc, gens.dim() + 1)?;
    let summing = Summing::of(bits(expr), gens.bits(), expr.len());
    for index in 0..gens.len() {
        match put_image(&mut image, var, expr, den, summing, gens.row(index)) {
            Ok(()) => {}
            Err(cause) => return Err(cause),
        }
        push_mapped(&mut mapped, &image, gens.kind(index))?;
    }
    Ok(mapped)
}

/// The generators with more variables behind, all 0.
pub fn padded_generators(alloc: Global, gens: &GensSys, count: usize) -> Result<GensSys, Memory>
    requires narrow { gens.now.dim + count < 2 ^ 32 - 2 }
    ensures fit { FitDimension gens.now }
    ensures system { IfOk result (IsMappedSystem (with_zeros gens.now.dim count)
        (gens.now.dim + count) gens.now) }
{
    let mut mapped = GensSys::with_room(alloc, gens.dim() + count, gens.len())?;
    let mut image = Vec::with_capacity(alloc, gens.dim() + count + 1)?;
    for index in 0..gens.len() {
        put_with_zeros(&mut image, gens.dim(), count, gens.row(index))?;
        push_mapped(&mut mapped, &image, gens.kind(index))?;
    }
    Ok(mapped)
}

/// The generators' entries at the columns, and then the divisors.
pub fn picked_generators(
    alloc: Global,
    gens: &GensSys,
    columns: &[usize],
) -> Result<GensSys, Memory>
    requires columns { All (λ (j : ℕ). j < gens.now.dim) columns.now }
    requires narrow { length columns.now < 2 ^ 32 - 2 }
    ensures fit { FitDimension gens.now }
    ensures system { IfOk result (IsMappedSystem (picked columns.now gens.now.dim)
        (length columns.now) gens.now) }
{
    let divisor = gens.dim();
    let mut mapped = GensSys::with_room(alloc, columns.len(), gens.len())?;
    let mut image = Vec::with_capacity(alloc, columns.len() + 1)?;
    for index in 0..gens.len() {
        put_picked(&mut image, columns, divisor, gens.row(index))?;
        push_mapped(&mut mapped, &image, gens.kind(index))?;
    }
    Ok(mapped)
}

/// The generators without the named variables.
pub fn remaining_generators(
    alloc: Global,
    gens: &GensSys,
    named: &[usize],
) -> Result<GensSys, Memory>
    ensures fit { FitDimension gens.now }
    ensures system { IfOk result (IsMappedSystem (remaining gens.now.dim named.now)
        (length (kept_variables gens.now.dim named.now)) gens.now) }
{
    let columns = kept_variables(alloc, gens.dim(), named)?;
    picked_generators(alloc, gens, &columns)
}
