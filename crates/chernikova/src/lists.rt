//! Systems that a conversion gave and that are taken up again, and lists that are joined.
ghost use Rattle.std.specs.Prelude.{◌≡◌, ◌++◌, true, false, IfOk};
ghost use Rattle.row_core.specs.Lists.{AreMarked};
ghost use Rattle.chernikova.specs.Conversion.{IsReopened};

use crate::cone::Cone;
use crate::system::System;
use row_core::{Memory, RowList};
use row_store::VectorList;

/// The system that a conversion gave, to take in further rows.
pub(crate) fn system_of_cone(cone: Cone) -> System
    requires lines { AreMarked true cone.lines.rows }
    requires rays { AreMarked false cone.rays.rows }
    ensures { IsReopened cone result }
{
    let Cone { lines, rays, sat } = cone;
    System {
        lines: VectorList::of_list(lines, true),
        rays: VectorList::of_list(rays, false),
        sat,
    }
}

/// The rows of a list, and then those of another.
pub(crate) fn rows_of_both(first: &RowList, second: &RowList) -> Result<RowList, Memory>
    requires { second.now.width ≡ first.now.width }
    ensures width { IfOk result (λ both. both.width ≡ first.now.width) }
    ensures rows { IfOk result (λ both. both.rows ≡ first.now.rows ++ second.now.rows) }
{
    let mut both = first.clone()?;
    both.push_all(second)?;
    Ok(both)
}
