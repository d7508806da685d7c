//! A list of constraints over one dimension.
ghost use Rattle.std.specs.Prelude.{◌≡◌, ℕ, ◌+◌, ◌-◌, ◌^◌, ◌<◌, ◌≤◌, ◌==◌, ◌↔◌, List, [], ◌∷◌, ◌++◌};
ghost use Rattle.std.specs.Prelude.{length, map, ℤ, All, MatchResult, IfOk, IsTrue, Err, Contains};
ghost use Rattle.row_core.specs.Range.{AllInRange};
ghost use Rattle.row_core.specs.Sizes.{AllHaveBits, AllAreBelow};
ghost use Rattle.row_core.specs.Content.{IsPrimitive};
ghost use Rattle.row_core.specs.Lists.{vectors};
ghost use Rattle.row_core.specs.Points.{IsPoint};
ghost use Rattle.row_core.specs.declared.PairOver.{PairOver};
ghost use Rattle.cons_sys.specs.Constraints.{Constraints, FitDimension, Gains, In};
ghost use Rattle.cons_sys.specs.Constraints.{constraint_of, constraint_at, row_at, kind_at};
ghost use Rattle.cons_sys.specs.declared.kind.ConKind.{ConKind};
ghost use Rattle.cons_sys.specs.Testing.{Answers, AnswersAt, LeavesRange};

use crate::kind::ConKind;
use row_core::{MarkedRows, Memory, OverKind, PairOver, RowBuf, RowList, dot};
use std::alloc::{AllocError, Global};
use std::marker::Model;

/// Constraints over one dimension. Each row is kept primitive.
#[derive(Debug)]
pub struct ConsSys {
    alloc: Global,
    dim: usize,
    rows: MarkedRows<ConKind>,
}

// Written by hand, so that a function that drops a system calls this one, and doesn't free each
// part itself.
impl Drop for ConsSys {
    fn drop(self) {
        let ConsSys {
            alloc: _,
            dim: _,
            rows: _,
        } = self;
    }
}

/// The constraints of a system that are still to come, each row with its kind.
pub type Iter<'a> = row_core::Iter<'a, ConKind>;

impl Model for ConsSys {
    ghost Value = { Constraints };

    ghost view = { λ s. record { dim = s.dim; list = s.rows } };

    ghost invariant = { λ s. FitDimension (record { dim = s.dim; list = s.rows }) };
}

impl ConsSys {
    /// Returns the empty list of constraints over `dim` variables.
    pub fn new(alloc: Global, dim: usize) -> ConsSys
        requires { dim < 2 ^ 32 - 2 }
        ensures dim { result.dim ≡ dim }
        ensures empty { result.list ≡ [] }
    {
        ConsSys {
            alloc,
            dim,
            rows: MarkedRows::new(alloc),
        }
    }

    /// Returns the empty list of constraints over `dim` variables, with room for some of them.
    pub fn with_room(alloc: Global, dim: usize, constraints: usize) -> Result<ConsSys, Memory>
        requires { dim < 2 ^ 32 - 2 }
        ensures dim { IfOk result (λ system. system.dim ≡ dim) }
        ensures empty { IfOk result (λ system. system.list ≡ []) }
    {
        let rows = MarkedRows::with_room(alloc, dim + 1, constraints)?;
        Ok(ConsSys { alloc, dim, rows })
    }

    /// The constraints over `dim` variables of rows that are primitive already: equalities where
    /// they are marked so, and else that the value is at least 0. The rows are taken over without a
    /// copy.
    pub fn of_rows(alloc: Global, dim: usize, rows: RowList) -> Result<ConsSys, Memory>
        requires narrow { dim < 2 ^ 32 - 2 }
        requires wide { rows.width ≡ dim + 1 }
        requires primitive { All IsPrimitive (vectors rows.rows) }
        ensures dim { IfOk result (λ system. system.dim ≡ dim) }
        ensures list { IfOk result (λ system. system.list ≡ map constraint_of rows.rows) }
    {
        let mut kinds = Vec::with_capacity(alloc, rows.len())?;
        for index in 0..rows.len() {
            kinds.push_reserved(kind_of(rows.is_eq(index)));
        }
        let rows = rows.into_marked().with_marks(kinds);
        Ok(ConsSys { alloc, dim, rows })
    }

    /// Appends a copy of the constraint, its row made primitive. Out of memory, the list is as
    /// before.
    pub fn push(&mut self, row: &[i128], kind: ConKind) -> Result<(), Memory>
        requires wide { length row.now ≡ self.old.dim + 1 }
        requires in_range { AllInRange row.now }
        ensures dim { self.new.dim ≡ self.old.dim }
        ensures list { MatchResult result (λ _. Gains self.old.list self.new.list row.now kind)
            (λ _. self.new.list ≡ self.old.list) }
    {
        self.rows.push_primitive(row, kind)?;
        Ok(())
    }

    /// Appends a copy of a constraint whose row is primitive already. Out of memory, the list is as
    /// before.
    pub fn push_primitive(&mut self, row: &[i128], kind: ConKind) -> Result<(), Memory>
        requires wide { length row.now ≡ self.old.dim + 1 }
        requires in_range { AllInRange row.now }
        requires primitive { IsPrimitive row.now }
        ensures dim { self.new.dim ≡ self.old.dim }
        ensures list { MatchResult result
            (λ _. self.new.list ≡ self.old.list ++ (row.now, kind) ∷ [])
            (λ _. self.new.list ≡ self.old.list) }
    {
        self.rows.push_copy(row, kind)?;
        Ok(())
    }

    /// Appends the constraint, its row made primitive; that of the first one is taken over without
    /// a copy. Out of memory, the list is as before, and the row is dropped.
    pub fn push_row(&mut self, row: RowBuf, kind: ConKind) -> Result<(), Memory>
        requires { length row ≡ self.old.dim + 1 }
        ensures dim { self.new.dim ≡ self.old.dim }
        ensures list { MatchResult result (λ _. Gains self.old.list self.new.list row kind)
            (λ _. self.new.list ≡ self.old.list) }
    {
        let row = row.into_primitive();
        self.rows.push(row, kind)?;
        Ok(())
    }

    /// Returns these constraints and then the later ones, all over one dimension.
    pub fn followed_by(&self, later: &ConsSys) -> Result<ConsSys, Memory>
        requires same_dimension { later.now.dim ≡ self.now.dim }
        ensures dim { IfOk result (λ both. both.dim ≡ self.now.dim) }
        ensures list { IfOk result (λ both. both.list ≡ self.now.list ++ later.now.list) }
    {
        let rows = self.rows.followed_by(&later.rows)?;
        Ok(ConsSys {
            alloc: self.alloc,
            dim: self.dim,
            rows,
        })
    }

    /// The allocator that the list keeps.
    #[inline]
    pub fn allocator(&self) -> Global {
        self.alloc
    }

    /// The number of variables.
    #[inline]
    pub fn dim(&self) -> usize
        ensures value { result ≡ self.now.dim }
        ensures narrow { self.now.dim < 2 ^ 32 - 2 }
        ensures rows { FitDimension self.now }
    {
        self.dim
    }

    /// The number of constraints.
    #[inline]
    pub fn len(&self) -> usize
        ensures { result ≡ length self.now.list }
    {
        self.rows.len()
    }

    /// Whether there is no constraint.
    #[inline]
    pub fn is_empty(&self) -> bool
        ensures { result ≡ (length self.now.list == 0) }
    {
        self.rows.is_empty()
    }

    /// Lends the row of constraint `i`.
    #[inline]
    pub fn row(&self, i: usize) -> &[i128]
        requires { i < length self.now.list }
        ensures value { result.now ≡ row_at self.now.list i }
        ensures wide { length (row_at self.now.list i) ≡ self.now.dim + 1 }
        ensures narrow { self.now.dim < 2 ^ 32 - 2 }
        ensures in_range { AllInRange (row_at self.now.list i) }
        ensures primitive { IsPrimitive (row_at self.now.list i) }
    {
        self.rows.row(i)
    }

    /// The kind of constraint `i`.
    #[inline]
    pub fn kind(&self, i: usize) -> ConKind
        requires { i < length self.now.list }
        ensures { result ≡ kind_at self.now.list i }
    {
        self.rows.mark(i)
    }

    /// Whether constraint `i` has the row and the kind.
    fn is_at(&self, i: usize, row: &[i128], kind: ConKind) -> bool
        requires { i < length self.now.list }
        ensures { IsTrue result ↔ (constraint_at self.now.list i ≡ (row.now, kind)) }
    {
        self.kind(i) == kind && self.row(i) == row
    }

    /// Whether a constraint with the row and the kind stands in the list.
    pub fn has(&self, row: &[i128], kind: ConKind) -> bool
        ensures { IsTrue result ↔ Contains self.now.list (row.now, kind) }
    {
        for i in 0..self.len() {
            if self.is_at(i, row, kind) {
                return true;
            }
        }
        false
    }

    /// How many bits the numbers of all rows have at most. No smaller number would do.
    pub fn bits(&self) -> u32
        ensures within { AllHaveBits result self.now.list }
        ensures least { (n : ℕ) → AllAreBelow (2 ^ n) self.now.list → result ≤ n }
    {
        self.rows.bits()
    }

    /// Lends the constraints in order, each row with its kind.
    #[inline]
    pub fn iter(&self) -> Iter<'_>
        ensures { result ≡ self.now.list }
    {
        self.rows.iter()
    }

    /// Whether constraint `i` holds at a vector.
    fn holds_one(&self, i: usize, v: &[i128]) -> Result<bool, PairOver>
        requires index { i < length self.now.list }
        requires wide { length v.now ≡ self.now.dim + 1 }
        ensures { AnswersAt self.now.list v.now i result }
    {
        match dot(self.row(i), v) {
            Ok(value) => Ok(self.kind(i).allows(value)),
            Err(column) => Err(PairOver {
                kind: OverKind::Dot,
                left: i,
                right: 0,
                column,
                turned: false,
            }),
        }
    }

    /// Tests the constraints in order, up to the first that fails or leaves the range.
    fn test_in_order(&self, v: &[i128]) -> Result<bool, PairOver>
        requires { length v.now ≡ self.now.dim + 1 }
        ensures { Answers self.now.list v.now result }
    {
        for i in 0..self.rows.len() {
            if !self.holds_one(i, v)? {
                return Ok(false);
            }
        }
        Ok(true)
    }

    /// Whether each constraint holds at a point. The constraints are tested in order, up to the
    /// first that fails.
    ///
    /// # Errors
    ///
    /// A constraint that is reached and whose dot with the point leaves the range: `left` numbers
    /// it, and `right` is 0 and stands for the point.
    pub fn holds_at(&self, v: &[i128]) -> Result<bool, PairOver>
        requires point { IsPoint self.now.dim v.now }
        requires in_range { AllInRange v.now }
        ensures answer { Answers self.now.list v.now result }
        ensures holds { IfOk result (λ b. IsTrue b ↔ In self.now v.now) }
        ensures over { (over : PairOver) → (result ≡ Err over)
            ↔ LeavesRange self.now.list v.now over }
    {
        self.test_in_order(v)
    }
}

impl Clone for ConsSys {
    ghost is_clone = { λ system copy. copy ≡ system };

    fn clone(&self) -> Result<ConsSys, AllocError> {
        Ok(ConsSys {
            alloc: self.alloc,
            dim: self.dim,
            rows: self.rows.clone()?,
        })
    }
}

impl<'a> IntoIterator for &'a ConsSys {
    type Item = (&'a [i128], ConKind);

    type IntoIter = Iter<'a>;

    ghost into_iter_gives = { λ system it. it ≡ system.now.list };

    fn into_iter(self) -> Iter<'a> {
        self.iter()
    }
}

/// The kind of a row that is marked as an equality, or isn't.
fn kind_of(eq: bool) -> ConKind
    ensures { (row : List ℤ) → constraint_of (row, eq) ≡ (row, result) }
{
    if eq { ConKind::Eq } else { ConKind::Ge }
}
