//! Half-spaces: inequalities with the rows that encode them.
ghost use Rattle.std.specs.Prelude.{◌≡◌, ◌+◌, length, map, IfOk};
ghost use Rattle.nnc_enc.specs.Encoding.{encoded_constraint};
ghost use Rattle.cover_search.specs.Inequalities.{inequalities, complement};

use crate::inequalities::{complements_of, inequalities_of};
use cons_sys::ConsSys;
use nnc_enc::encode_further_cons;
use row_core::{Memory, RowList};
use std::alloc::Global;
use std::marker::Model;

/// Constraints with the rows that encode them.
#[derive(Drop)]
pub(crate) struct Halfspaces {
    cons: ConsSys,
    rows: RowList,
}

impl Model for Halfspaces {
    ghost use Rattle.cons_sys.specs.Constraints.{Constraints};
    ghost use Rattle.cover_search.specs.Regions.{HasRows};

    ghost Value = { Constraints };

    ghost view = { λ h. h.cons };

    ghost invariant = { λ h. HasRows h.cons h.rows };
}

impl Halfspaces {
    /// The constraints as they are.
    fn encoded(alloc: Global, cons: ConsSys) -> Result<Halfspaces, Memory>
        ensures { IfOk result (λ h. h ≡ cons) }
    {
        let rows = encode_further_cons(alloc, &cons)?;
        Ok(Halfspaces { cons, rows })
    }

    /// The inequalities of a system.
    pub(crate) fn of(alloc: Global, cons: &ConsSys) -> Result<Halfspaces, Memory>
        ensures { IfOk result (λ h. h ≡ inequalities cons.now) }
    {
        Halfspaces::encoded(alloc, inequalities_of(alloc, cons)?)
    }

    /// The complements of all inequalities.
    pub(crate) fn complements(&self, alloc: Global) -> Result<Halfspaces, Memory>
        ensures dim { IfOk result (λ h. h.dim ≡ self.now.dim) }
        ensures list { IfOk result (λ h. h.list ≡ map complement self.now.list) }
    {
        Halfspaces::encoded(alloc, complements_of(alloc, &self.cons)?)
    }

    /// The number of inequalities.
    pub(crate) fn len(&self) -> usize
        ensures { result ≡ length self.now.list }
    {
        self.cons.len()
    }

    /// Lends them as constraints.
    pub(crate) fn cons(&self) -> &ConsSys
        ensures { result.now ≡ self.now }
    {
        &self.cons
    }

    /// Lends the rows that encode them.
    pub(crate) fn rows(&self) -> &RowList
        ensures width { result.now.width ≡ self.now.dim + 2 }
        ensures rows { result.now.rows ≡ map (encoded_constraint self.now.dim) self.now.list }
    {
        &self.rows
    }
}
