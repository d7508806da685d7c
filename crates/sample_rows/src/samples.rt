//! The constraints of a sample.
ghost use Rattle.std.specs.Prelude.{◌≡◌, ◌+◌, ◌^◌, ◌<◌, ◌++◌, List, length, IfOk};
ghost use Rattle.row_core.specs.Range.{AllInRange};
ghost use Rattle.row_core.specs.Lists.{Pointwise};
ghost use Rattle.sample_rows.specs.Samples.{IsSample, IsInequalityOf, sides};

use crate::draws::Draws;
use cons_sys::{ConKind, ConsSys};
use row_core::Memory;
use std::alloc::Global;

/// The cube in which each variable is from 0 to 10.
fn cube(alloc: Global) -> Result<ConsSys, Memory>
    ensures dim { IfOk result (λ cons. cons.dim ≡ 3) }
    ensures list { IfOk result (λ cons. Pointwise IsInequalityOf sides cons.list) }
{
    let mut cons = ConsSys::new(alloc, 3);
    cons.push(&[1, 0, 0, 0], ConKind::Ge)?;
    cons.push(&[-1, 0, 0, 10], ConKind::Ge)?;
    cons.push(&[0, 1, 0, 0], ConKind::Ge)?;
    cons.push(&[0, -1, 0, 10], ConKind::Ge)?;
    cons.push(&[0, 0, 1, 0], ConKind::Ge)?;
    cons.push(&[0, 0, -1, 10], ConKind::Ge)?;
    Ok(cons)
}

/// The constraints of the sample with `n` drawn rows: those of the cube, and then the rows.
pub fn sample_constraints(alloc: Global, n: usize) -> Result<ConsSys, Memory>
    ensures { IfOk result (IsSample n) }
{
    let mut cons = cube(alloc)?;
    let mut draws = Draws::new();
    for row in 0..n {
        cons.push(&draws.row(alloc)?, ConKind::Ge)?;
    }
    Ok(cons)
}
