//! The axes of the universe.
ghost use Rattle.std.specs.Prelude.{◌≡◌, ℕ, ◌+◌, ◌-◌, ◌^◌, ◌<◌, ◌++◌, ◌∷◌, [], List, length, map, IfOk};
ghost use Rattle.row_core.specs.Range.{AllInRange};
ghost use Rattle.gens_sys.specs.declared.kind.GenKind.TheVariants.{Line};
ghost use Rattle.stored_systems.specs.Axes.{axis, axes_upto};

use crate::storing_generators::push_generator;
use gens_sys::{GenKind, GensSys};
use row_core::Memory;
use std::alloc::Global;

/// The row that is 1 at a column, and 0 at each other column.
pub fn axis(alloc: Global, dim: usize, index: usize) -> Result<Vec<i128>, Memory>
    requires narrow { dim < 2 ^ 32 - 2 }
    requires below { index < dim }
    ensures row { IfOk result (λ v. v.items ≡ axis dim index) }
    ensures wide { IfOk result (λ v. length v.items ≡ dim + 1) }
    ensures in_range { IfOk result (λ v. AllInRange v.items) }
{
    let mut row = vec![in alloc; 0i128; dim + 1]?;
    row[index] = 1;
    Ok(row)
}

/// All axes, as lines.
pub fn axes(alloc: Global, dim: usize) -> Result<GensSys, Memory>
    requires { dim < 2 ^ 32 - 2 }
    ensures dim { IfOk result (λ gens. gens.dim ≡ dim) }
    ensures list { IfOk result (λ gens. gens.list ≡ map (λ l. (l, Line)) (axes_upto dim dim)) }
{
    let mut gens = GensSys::with_room(alloc, dim, dim)?;
    for index in 0..dim {
        push_generator(&mut gens, &axis(alloc, dim, index)?, GenKind::Line)?;
    }
    Ok(gens)
}
