//! The generators that a canonical system stands for.
ghost use Rattle.std.specs.Prelude.{◌≡◌, ◌+◌, ◌-◌, ◌^◌, ◌<◌, ◌++◌, ◌∷◌, [], length, All, IfOk, OnOk};
ghost use Rattle.row_core.specs.Range.{AllInRange};
ghost use Rattle.row_core.specs.Vectors.{cell};
ghost use Rattle.row_core.specs.Content.{IsPrimitive};
ghost use Rattle.row_core.specs.Lists.{vectors};
ghost use Rattle.row_core.specs.MarkedLists.{AreLists};
ghost use Rattle.gens_sys.specs.declared.kind.GenKind.TheVariants.{Line};
ghost use Rattle.gens_sys.specs.Generators.{vector_kind};
ghost use Rattle.stored_systems.specs.StoredForms.{stored_generators};
ghost use Rattle.stored_systems.specs.Entries.{FitsKind};

use gens_sys::{GenKind, GensSys};
use row_core::{Memory, RowList};
use std::alloc::Global;

/// The generators that a canonical system of vectors stands for: its lines as lines, and its rays
/// as rays or points by their last entries. The rows are taken over without a copy.
pub fn stored_generators(
    alloc: Global,
    dim: usize,
    lines: RowList,
    rays: RowList,
) -> Result<GensSys, Memory>
    requires narrow { dim < 2 ^ 32 - 2 }
    requires lists { AreLists (dim + 1) lines rays }
    requires primitive_lines { All IsPrimitive (vectors lines.rows) }
    requires primitive_rays { All IsPrimitive (vectors rays.rows) }
    requires fit_lines { All (λ l. FitsKind dim (l, Line)) (vectors lines.rows) }
    requires fit_rays { All (λ r. FitsKind dim (r, vector_kind (cell r dim))) (vectors rays.rows) }
    ensures dim { IfOk result (λ gens. gens.dim ≡ dim) }
    ensures list { IfOk result
        (λ gens. gens.list ≡ stored_generators dim (vectors lines.rows) (vectors rays.rows)) }
{
    let mut rows = lines;
    rows.append(rays)?;
    prove!(rows.width() == dim + 1);
    GensSys::of_rows(alloc, dim, rows)
}

/// Appends a primitive vector that fits its kind.
pub fn push_generator(gens: &mut GensSys, row: &[i128], kind: GenKind) -> Result<(), Memory>
    requires wide { length row.now ≡ gens.old.dim + 1 }
    requires in_range { AllInRange row.now }
    requires primitive { IsPrimitive row.now }
    requires fits { FitsKind gens.old.dim (row.now, kind) }
    ensures dim { gens.new.dim ≡ gens.old.dim }
    ensures list { OnOk result (gens.new.list ≡ gens.old.list ++ (row.now, kind) ∷ []) }
{
    gens.push_primitive(row, kind)
}
