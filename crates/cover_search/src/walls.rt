//! Systems of inequalities with the complements of all of these.
ghost use Rattle.std.specs.Prelude.{◌≡◌, length, map, IfOk};
ghost use Rattle.cover_search.specs.Inequalities.{AreInequalities, inequalities, complement};

use crate::halfspaces::Halfspaces;
use cons_sys::ConsSys;
use row_core::Memory;
use std::alloc::Global;
use std::marker::Model;

/// Inequalities and their complements, both with the rows that encode them.
#[derive(Drop)]
pub struct Walls {
    inner: Halfspaces,
    outer: Halfspaces,
}

impl Model for Walls {
    ghost use Rattle.cons_sys.specs.Constraints.{Constraints};
    ghost use Rattle.cover_search.specs.Inequalities.{AreComplements};

    ghost Value = { Constraints };

    ghost view = { λ w. w.inner };

    ghost invariant = { λ w. AreComplements w.inner w.outer };
}

impl Walls {
    /// The inequalities of a system.
    pub fn of(alloc: Global, cons: &ConsSys) -> Result<Walls, Memory>
        ensures { IfOk result (λ w. w ≡ inequalities cons.now) }
    {
        let inner = Halfspaces::of(alloc, cons)?;
        let outer = inner.complements(alloc)?;
        Ok(Walls { inner, outer })
    }

    /// Lends the inequalities.
    pub(crate) fn inner(&self) -> &Halfspaces
        ensures { result.now ≡ self.now }
    {
        &self.inner
    }

    /// Lends their complements.
    pub(crate) fn outer(&self) -> &Halfspaces
        ensures dim { result.now.dim ≡ self.now.dim }
        ensures list { result.now.list ≡ map complement self.now.list }
        ensures len { length result.now.list ≡ length self.now.list }
        ensures inequalities { AreInequalities self.now → AreInequalities result.now }
    {
        &self.outer
    }

    /// The number of inequalities.
    pub(crate) fn len(&self) -> usize
        ensures { result ≡ length self.now.list }
    {
        self.inner.len()
    }
}
