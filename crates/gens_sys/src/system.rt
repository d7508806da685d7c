//! A list of generators over one dimension.
ghost use Rattle.std.specs.Prelude.{◌≡◌, ℕ, ◌+◌, ◌-◌, ◌^◌, ◌<◌, ◌≤◌, ◌==◌, ◌↔◌, List, [], ◌∷◌, ◌++◌};
ghost use Rattle.std.specs.Prelude.{length, map, ℤ, All, MatchResult, IfOk, Err};
ghost use Rattle.row_core.specs.Vectors.{cell};
ghost use Rattle.row_core.specs.Range.{AllInRange};
ghost use Rattle.row_core.specs.Sizes.{AllHaveBits, AllAreBelow};
ghost use Rattle.gens_sys.specs.Kinds.{HasBadDivisor, IsZeroDirection};
ghost use Rattle.gens_sys.specs.Generators.{Generators, IsGenerator, FitDimension, Gains};
ghost use Rattle.gens_sys.specs.Generators.{generator_of, generator_at, row_at, kind_at};
ghost use Rattle.gens_sys.specs.declared.kind.GenKind.{GenKind};
ghost use Rattle.gens_sys.specs.Refusals.{Refusal};

use crate::kind::{GenKind, GenPushErr};
use row_core::{MarkedRows, Memory, RowBuf, RowList};
use std::alloc::{AllocError, Global};
use std::marker::Model;

/// Generators over one dimension. Each vector is kept primitive.
#[derive(Debug)]
pub struct GensSys {
    alloc: Global,
    dim: usize,
    rows: MarkedRows<GenKind>,
}

// Written by hand, so that a function that drops a system calls this one, and doesn't free each
// part itself.
impl Drop for GensSys {
    fn drop(self) {
        let GensSys {
            alloc: _,
            dim: _,
            rows: _,
        } = self;
    }
}

/// The generators of a system that are still to come, each vector with its kind.
pub type Iter<'a> = row_core::Iter<'a, GenKind>;

impl Model for GensSys {
    ghost Value = { Generators };

    ghost view = { λ s. record { dim = s.dim; list = s.rows } };

    ghost invariant = { λ s. FitDimension (record { dim = s.dim; list = s.rows }) };
}

impl GensSys {
    /// Returns the empty list of generators over `dim` variables.
    pub fn new(alloc: Global, dim: usize) -> GensSys
        requires { dim < 2 ^ 32 - 2 }
        ensures dim { result.dim ≡ dim }
        ensures empty { result.list ≡ [] }
    {
        GensSys {
            alloc,
            dim,
            rows: MarkedRows::new(alloc),
        }
    }

    /// Returns the empty list of generators over `dim` variables, with room for some of them.
    pub fn with_room(alloc: Global, dim: usize, generators: usize) -> Result<GensSys, Memory>
        requires { dim < 2 ^ 32 - 2 }
        ensures dim { IfOk result (λ system. system.dim ≡ dim) }
        ensures empty { IfOk result (λ system. system.list ≡ []) }
    {
        let rows = MarkedRows::with_room(alloc, dim + 1, generators)?;
        Ok(GensSys { alloc, dim, rows })
    }

    /// The generators over `dim` variables of rows that are primitive already and fit their kinds:
    /// lines where they are marked so, and else rays and points by their last entries. The rows are
    /// taken over without a copy.
    pub fn of_rows(alloc: Global, dim: usize, rows: RowList) -> Result<GensSys, Memory>
        requires narrow { dim < 2 ^ 32 - 2 }
        requires wide { rows.width ≡ dim + 1 }
        requires generators { All (λ row. IsGenerator dim (generator_of dim row)) rows.rows }
        ensures dim { IfOk result (λ system. system.dim ≡ dim) }
        ensures list { IfOk result (λ system. system.list ≡ map (generator_of dim) rows.rows) }
    {
        let mut kinds = Vec::with_capacity(alloc, rows.len())?;
        for index in 0..rows.len() {
            kinds.push_reserved(kind_of(rows.is_eq(index), rows.row(index)[dim]));
        }
        let rows = rows.into_marked().with_marks(kinds);
        Ok(GensSys { alloc, dim, rows })
    }

    /// Appends a copy of the vector, made primitive.
    ///
    /// # Errors
    ///
    /// `BadDivisor` for a line or a ray whose last entry isn't 0, and for a point of either kind
    /// whose last entry is below 1; `ZeroVector` for a line or a ray that is all zero. After each
    /// refusal the list is as before.
    pub fn push(&mut self, row: &[i128], kind: GenKind) -> Result<(), GenPushErr>
        requires wide { length row.now ≡ self.old.dim + 1 }
        requires in_range { AllInRange row.now }
        ensures dim { self.new.dim ≡ self.old.dim }
        ensures bad_divisor { (result ≡ Err GenPushErr.BadDivisor)
            ↔ HasBadDivisor kind (cell row.now self.old.dim) }
        ensures zero_vector { (result ≡ Err GenPushErr.ZeroVector) ↔ IsZeroDirection kind row.now }
        ensures list { MatchResult result (λ _. Gains self.old.list self.new.list row.now kind)
            (λ _. self.new.list ≡ self.old.list) }
    {
        self.check(row, kind)?;
        self.store(row, kind)?;
        Ok(())
    }

    /// Appends a copy of a vector that is primitive already and fits its kind. Out of memory, the
    /// list is as before.
    pub fn push_primitive(&mut self, row: &[i128], kind: GenKind) -> Result<(), Memory>
        requires { IsGenerator self.old.dim (row.now, kind) }
        ensures dim { self.new.dim ≡ self.old.dim }
        ensures list { MatchResult result
            (λ _. self.new.list ≡ self.old.list ++ (row.now, kind) ∷ [])
            (λ _. self.new.list ≡ self.old.list) }
    {
        self.rows.push_copy(row, kind)?;
        Ok(())
    }

    /// Appends the vector, made primitive; the first one is taken over without a copy.
    ///
    /// # Errors
    ///
    /// Those of `push`. After each the row is dropped.
    pub fn push_row(&mut self, row: RowBuf, kind: GenKind) -> Result<(), GenPushErr>
        requires { length row ≡ self.old.dim + 1 }
        ensures dim { self.new.dim ≡ self.old.dim }
        ensures bad_divisor { (result ≡ Err GenPushErr.BadDivisor)
            ↔ HasBadDivisor kind (cell row self.old.dim) }
        ensures zero_vector { (result ≡ Err GenPushErr.ZeroVector) ↔ IsZeroDirection kind row }
        ensures list { MatchResult result (λ _. Gains self.old.list self.new.list row kind)
            (λ _. self.new.list ≡ self.old.list) }
    {
        self.check(row.cells(), kind)?;
        self.store_row(row, kind)?;
        Ok(())
    }

    /// Whether the vector may be kept.
    fn check(&self, row: &[i128], kind: GenKind) -> Result<(), GenPushErr>
        requires { length row.now ≡ self.now.dim + 1 }
        ensures { Refusal self.now.dim row.now kind result }
    {
        if kind.has_bad_divisor(row[self.dim]) {
            return Err(GenPushErr::BadDivisor);
        }
        if kind.is_zero_direction(row) {
            return Err(GenPushErr::ZeroVector);
        }
        Ok(())
    }

    /// Appends a vector that may be kept, made primitive.
    fn store_row(&mut self, row: RowBuf, kind: GenKind) -> Result<(), Memory>
        requires wide { length row ≡ self.old.dim + 1 }
        requires divisor { ¬ (HasBadDivisor kind (cell row self.old.dim)) }
        requires nonzero { ¬ (IsZeroDirection kind row) }
        ensures dim { self.new.dim ≡ self.old.dim }
        ensures list { MatchResult result (λ _. Gains self.old.list self.new.list row kind)
            (λ _. self.new.list ≡ self.old.list) }
    {
        let row = row.into_primitive();
        self.rows.push(row, kind)?;
        Ok(())
    }

    /// Appends a copy of a vector that may be kept, made primitive.
    fn store(&mut self, row: &[i128], kind: GenKind) -> Result<(), Memory>
        requires wide { length row.now ≡ self.old.dim + 1 }
        requires in_range { AllInRange row.now }
        requires divisor { ¬ (HasBadDivisor kind (cell row.now self.old.dim)) }
        requires nonzero { ¬ (IsZeroDirection kind row.now) }
        ensures dim { self.new.dim ≡ self.old.dim }
        ensures list { MatchResult result (λ _. Gains self.old.list self.new.list row.now kind)
            (λ _. self.new.list ≡ self.old.list) }
    {
        self.rows.push_primitive(row, kind)?;
        Ok(())
    }

    /// Returns these generators and then the later ones, all over one dimension.
    pub fn followed_by(&self, later: &GensSys) -> Result<GensSys, Memory>
        requires same_dimension { later.now.dim ≡ self.now.dim }
        ensures dim { IfOk result (λ both. both.dim ≡ self.now.dim) }
        ensures list { IfOk result (λ both. both.list ≡ self.now.list ++ later.now.list) }
    {
        let rows = self.rows.followed_by(&later.rows)?;
        Ok(GensSys {
            alloc: self.alloc,
            dim: self.dim,
            rows,
        })
    }

    /// The number of variables.
    #[inline]
    pub fn dim(&self) -> usize
        ensures value { result ≡ self.now.dim }
        ensures narrow { self.now.dim < 2 ^ 32 - 2 }
        ensures rows { FitDimension self.now }
    {
        self.dim
    }

    /// The number of generators.
    #[inline]
    pub fn len(&self) -> usize
        ensures { result ≡ length self.now.list }
    {
        self.rows.len()
    }

    /// Whether there is no generator.
    #[inline]
    pub fn is_empty(&self) -> bool
        ensures { result ≡ (length self.now.list == 0) }
    {
        self.rows.is_empty()
    }

    /// Lends the vector of generator `i`.
    #[inline]
    pub fn row(&self, i: usize) -> &[i128]
        requires { i < length self.now.list }
        ensures value { result.now ≡ row_at self.now.list i }
        ensures wide { length (row_at self.now.list i) ≡ self.now.dim + 1 }
        ensures narrow { self.now.dim < 2 ^ 32 - 2 }
        ensures in_range { AllInRange (row_at self.now.list i) }
        ensures generator { IsGenerator self.now.dim (generator_at self.now.list i) }
    {
        self.rows.row(i)
    }

    /// The kind of generator `i`.
    #[inline]
    pub fn kind(&self, i: usize) -> GenKind
        requires { i < length self.now.list }
        ensures { result ≡ kind_at self.now.list i }
    {
        self.rows.mark(i)
    }

    /// How many bits the numbers of all vectors have at most. No smaller number would do.
    pub fn bits(&self) -> u32
        ensures within { AllHaveBits result self.now.list }
        ensures least { (n : ℕ) → AllAreBelow (2 ^ n) self.now.list → result ≤ n }
    {
        self.rows.bits()
    }

    /// Lends the generators in order, each vector with its kind.
    #[inline]
    pub fn iter(&self) -> Iter<'_>
        ensures { result ≡ self.now.list }
    {
        self.rows.iter()
    }
}

impl Clone for GensSys {
    ghost is_clone = { λ system copy. copy ≡ system };

    fn clone(&self) -> Result<GensSys, AllocError> {
        Ok(GensSys {
            alloc: self.alloc,
            dim: self.dim,
            rows: self.rows.clone()?,
        })
    }
}

impl<'a> IntoIterator for &'a GensSys {
    type Item = (&'a [i128], GenKind);

    type IntoIter = Iter<'a>;

    ghost into_iter_gives = { λ system it. it ≡ system.now.list };

    fn into_iter(self) -> Iter<'a> {
        self.iter()
    }
}

/// The kind of a row that is marked as a line, or isn't, with the last entry.
fn kind_of(line: bool, divisor: i128) -> GenKind
    ensures { (dim : ℕ) (row : List ℤ) → cell row dim ≡ divisor →
        generator_of dim (row, line) ≡ (row, result) }
{
    if line {
        GenKind::Line
    } else if divisor == 0 {
        GenKind::Ray
    } else {
        GenKind::Point
    }
}
