//! Rows of a file as constraints and as generators.
ghost use Rattle.std.specs.Prelude.{◌≡◌, ℕ, ◌+◌, ◌^◌, ◌<◌, ◌≤◌, ◌∷◌, ◌++◌, [], ℤ, pos, List, length, replicate, if◌then◌else◌, MatchResult, IfOk, OnOk};
ghost use Rattle.std.specs.List.{AllZip, list_any};
ghost use Rattle.row_core.specs.Range.{AllInRange};
ghost use Rattle.cons_sys.specs.Constraints.{Constraint};
ghost use Rattle.cons_sys.specs.declared.kind.ConKind.TheVariants.{Eq, Ge};
ghost use Rattle.gens_sys.specs.declared.kind.GenKind.TheVariants.{Point};
ghost use Rattle.reply_text.specs.declared.faults.Fault.{Fault};
ghost use Rattle.cdd_reading.specs.declared.table.TheConstants.{MAX_WIDTH};
ghost use Rattle.cdd_reading.specs.Files.{turned, IsRowOf, IsKind, is_point, origin};
ghost use Rattle.cdd_reading.specs.Refusals.{IsVectorFault, IsRowsFault};
ghost use Rattle.cdd_reading.specs.Tables.{FitTable, rows_in, IsAdded, IsFirstFault, IsRefusedBy, AreVectors, AreStored};

use crate::table::Table;
use cons_sys::{ConKind, ConsSys};
use gens_sys::{GenKind, GenPushErr, GensSys};
use reply_text::{Fault, ReadErr};
use row_core::{Memory, RowBuf};
use std::alloc::Global;

/// The constraints of the rows, the marked ones as equalities.
pub fn store_constraints(alloc: Global, table: &Table) -> Result<ConsSys, Memory>
    requires { FitTable table.now.width table.now.marks.items table.now.values.items }
    ensures { IfOk result
        (λ cs. (table.now.width ≡ cs.dim + 1) × AllZip IsRowOf (rows_in table.now) cs.list) }
{
    let mut system = ConsSys::new(alloc, table.width - 1);
    let mut rest = table.values.as_slice();
    for marked in table.marks.as_slice() {
        let (row, behind) = rest.split_at(table.width);
        push_constraint(alloc, &mut system, row, *marked)?;
        rest = behind;
    }
    Ok(system)
}

/// The generators of the rows, the marked ones as lines; the origin is added at the end where there
/// are rows and none is a point.
///
/// # Errors
/// The first fault of the first row that has one.
pub fn store_generators(alloc: Global, table: &Table) -> Result<GensSys, ReadErr>
    requires { FitTable table.now.width table.now.marks.items table.now.values.items }
    ensures { MatchResult result
        (λ gs. (table.now.width ≡ gs.dim + 1) × AreVectors (rows_in table.now) gs.dim gs.list)
        (IsRefusedBy (IsRowsFault (rows_in table.now))) }
{
    let mut system = store_vectors(alloc, table)?;
    if system.is_empty() || has_point(&system) {
        return Ok(system);
    }
    match push_origin(alloc, &mut system) {
        Ok(()) => Ok(system),
        Err(Memory) => Err(ReadErr::Memory),
    }
}

/// A copy of the row, its first number at the end.
fn with_first_at_end(alloc: Global, row: &[i128]) -> Result<RowBuf, Memory>
    requires some { 0 < length row.now }
    requires in_range { AllInRange row.now }
    requires narrow { length row.now ≤ MAX_WIDTH }
    ensures row { IfOk result (λ r. r ≡ turned row.now) }
    ensures width { IfOk result (λ r. length r ≡ length row.now) }
{
    let mut cells = Vec::new(alloc);
    cells.extend_from_slice(&row[1..])?;
    cells.push(row[0])?;
    Ok(RowBuf::from_vec(cells))
}

fn con_kind(marked: bool) -> ConKind
    ensures { result ≡ (if marked then Eq else Ge) }
{
    if marked { ConKind::Eq } else { ConKind::Ge }
}

/// Appends the constraint of a row.
fn push_constraint(
    alloc: Global,
    system: &mut ConsSys,
    row: &[i128],
    marked: bool,
) -> Result<(), Memory>
    requires wide { length row.now ≡ system.old.dim + 1 }
    requires in_range { AllInRange row.now }
    requires narrow { length row.now ≤ MAX_WIDTH }
    ensures dim { system.new.dim ≡ system.old.dim }
    ensures list { OnOk result ((c : Constraint) × IsRowOf (row.now, marked) c
        × (system.new.list ≡ system.old.list ++ c ∷ [])) }
{
    let row = with_first_at_end(alloc, row)?;
    system.push_row(row, con_kind(marked))?;
    Ok(())
}

/// The kind of a vector by its first number.
fn gen_kind(first: i128, marked: bool) -> Result<GenKind, Fault>
    ensures { MatchResult result (IsKind marked first) (IsFirstFault marked first) }
{
    if first < 0 {
        return Err(Fault::NegativeFirst);
    }
    match (first > 0, marked) {
        (true, true) => Err(Fault::LinearityOnVertex),
        (true, false) => Ok(GenKind::Point),
        (false, true) => Ok(GenKind::Line),
        (false, false) => Ok(GenKind::Ray),
    }
}

/// Appends the generator of a row.
fn push_vector(
    alloc: Global,
    system: &mut GensSys,
    row: &[i128],
    marked: bool,
) -> Result<(), ReadErr>
    requires some { 0 < length row.now }
    requires wide { length row.now ≡ system.old.dim + 1 }
    requires in_range { AllInRange row.now }
    requires narrow { length row.now ≤ MAX_WIDTH }
    ensures dim { system.new.dim ≡ system.old.dim }
    ensures list { MatchResult result
        (λ _. IsAdded (row.now, marked) system.old.list system.new.list)
        (IsRefusedBy (IsVectorFault marked row.now)) }
{
    let kind = match gen_kind(row[0], marked) {
        Ok(kind) => kind,
        Err(fault) => return Err(ReadErr::Input(fault)),
    };
    let vector = match with_first_at_end(alloc, row) {
        Ok(vector) => vector,
        Err(Memory) => return Err(ReadErr::Memory),
    };
    match system.push_row(vector, kind) {
        Ok(()) => Ok(()),
        Err(GenPushErr::ZeroVector) => Err(ReadErr::Input(Fault::ZeroVector)),
        // It can't come: the kind was taken from the divisor.
        Err(GenPushErr::BadDivisor) => Err(ReadErr::Input(Fault::NegativeFirst)),
        Err(GenPushErr::Memory) => Err(ReadErr::Memory),
    }
}

/// The generators of the rows, without the origin that may be wanted.
fn store_vectors(alloc: Global, table: &Table) -> Result<GensSys, ReadErr>
    requires { FitTable table.now.width table.now.marks.items table.now.values.items }
    ensures { MatchResult result
        (λ gs. (table.now.width ≡ gs.dim + 1) × AreStored (rows_in table.now) gs.list)
        (IsRefusedBy (IsRowsFault (rows_in table.now))) }
{
    let mut system = GensSys::new(alloc, table.width - 1);
    let mut rest = table.values.as_slice();
    for marked in table.marks.as_slice() {
        let (row, behind) = rest.split_at(table.width);
        push_vector(alloc, &mut system, row, *marked)?;
        rest = behind;
    }
    Ok(system)
}

fn has_point(system: &GensSys) -> bool
    ensures { result ≡ list_any is_point system.now.list }
{
    for (_, kind) in system {
        if kind.is_point() {
            return true;
        }
    }
    false
}

/// Appends the origin.
fn push_origin(alloc: Global, system: &mut GensSys) -> Result<(), Memory>
    ensures dim { system.new.dim ≡ system.old.dim }
    ensures list { OnOk result
        (system.new.list ≡ system.old.list ++ (origin system.old.dim, Point) ∷ []) }
{
    let mut cells = vec![in alloc; 0; system.dim()]?;
    cells.push(1)?;
    match system.push_row(RowBuf::from_vec(cells), GenKind::Point) {
        Ok(()) => Ok(()),
        Err(_) => Err(Memory),
    }
}
