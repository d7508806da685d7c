//! The lists of rows that are converted for closed systems.
ghost use Rattle.std.specs.Prelude.{◌≡◌, ◌+◌, ◌-◌, ◌^◌, ◌<◌, ◌++◌, length, map, IfOk, OnOk, MatchBool};
ghost use Rattle.row_core.specs.Range.{AllInRange};
ghost use Rattle.row_core.specs.Lists.{vectors, system_rows};
ghost use Rattle.row_core.specs.MarkedLists.{AreLists};
ghost use Rattle.cons_sys.specs.Constraints.{FitDimension as FitConstraints};
ghost use Rattle.cons_sys.specs.Kinds.{is_equality};
ghost use Rattle.gens_sys.specs.Generators.{FitDimension as FitGenerators};
ghost use Rattle.gens_sys.specs.Kinds.{is_line};
ghost use Rattle.stored_systems.specs.WorkLists.{divisor_row, constraint_row, constraint_list, generator_list, HasPoint, HaveNoPoint};

use cons_sys::{ConKind, ConsSys};
use gens_sys::{GenKind, GensSys};
use row_core::{Memory, RowList};
use std::alloc::Global;

/// The constraint list of a closed system: the row `(0, .., 0, 1)`, then the constraints.
pub fn constraint_list(alloc: Global, cons: &ConsSys) -> Result<RowList, Memory>
    ensures width { IfOk result (λ list. list.width ≡ cons.now.dim + 1) }
    ensures rows { IfOk result (λ list. list.rows ≡ constraint_list cons.now) }
    ensures fit { FitConstraints cons.now }
{
    let mut list = RowList::with_room(alloc, cons.dim() + 1, cons.len().saturating_add(1))?;
    list.push(&divisor_row(alloc, cons.dim())?, false)?;
    push_constraints(&mut list, cons)?;
    Ok(list)
}

/// The constraint list of a closed system with further constraints.
pub fn joined_constraints(alloc: Global, cons: &ConsSys, more: &ConsSys) -> Result<RowList, Memory>
    requires { more.now.dim ≡ cons.now.dim }
    ensures width { IfOk result (λ list. list.width ≡ cons.now.dim + 1) }
    ensures rows { IfOk result
        (λ list. list.rows
        ≡ constraint_list (record { dim = cons.now.dim; list = cons.now.list ++ more.now.list })) }
    ensures fit { FitConstraints cons.now }
    ensures more_fit { FitConstraints more.now }
{
    prove!(more.dim() == cons.dim());
    let rows = cons.len().saturating_add(more.len()).saturating_add(1);
    let mut list = RowList::with_room(alloc, cons.dim() + 1, rows)?;
    list.push(&divisor_row(alloc, cons.dim())?, false)?;
    push_constraints(&mut list, cons)?;
    push_constraints(&mut list, more)?;
    Ok(list)
}

/// The generator list of a closed system.
pub fn generator_list(alloc: Global, gens: &GensSys) -> Result<RowList, Memory>
    ensures width { IfOk result (λ list. list.width ≡ gens.now.dim + 1) }
    ensures rows { IfOk result (λ list. list.rows ≡ generator_list gens.now) }
    ensures fit { FitGenerators gens.now }
{
    let mut list = RowList::with_room(alloc, gens.dim() + 1, gens.len())?;
    push_generators(&mut list, gens)?;
    Ok(list)
}

/// The generator list of a closed system with further generators.
pub fn joined_generators(alloc: Global, gens: &GensSys, more: &GensSys) -> Result<RowList, Memory>
    requires { more.now.dim ≡ gens.now.dim }
    ensures width { IfOk result (λ list. list.width ≡ gens.now.dim + 1) }
    ensures rows { IfOk result
        (λ list. list.rows
        ≡ generator_list (record { dim = gens.now.dim; list = gens.now.list ++ more.now.list })) }
    ensures fit { FitGenerators gens.now }
    ensures more_fit { FitGenerators more.now }
{
    prove!(more.dim() == gens.dim());
    let rows = gens.len().saturating_add(more.len());
    let mut list = RowList::with_room(alloc, gens.dim() + 1, rows)?;
    push_generators(&mut list, gens)?;
    push_generators(&mut list, more)?;
    Ok(list)
}

/// The list that a canonical system is: its lines as equalities, then its rays as inequalities.
pub fn second_list(
    alloc: Global,
    width: usize,
    lines: &RowList,
    rays: &RowList,
) -> Result<RowList, Memory>
    requires narrow { width < 2 ^ 32 }
    requires lists { AreLists width lines.now rays.now }
    ensures width { IfOk result (λ list. list.width ≡ width) }
    ensures rows { IfOk result
        (λ list. list.rows ≡ system_rows (vectors lines.now.rows) (vectors rays.now.rows)) }
{
    let rows = lines.len().saturating_add(rays.len());
    let mut list = RowList::with_room(alloc, width, rows)?;
    list.push_all(lines)?;
    list.push_all(rays)?;
    Ok(list)
}

/// Whether some ray is positive at the column.
pub fn has_point(column: usize, rays: &RowList) -> bool
    requires { column < rays.now.width }
    ensures { MatchBool result
        (HasPoint column (vectors rays.now.rows)) (HaveNoPoint column (vectors rays.now.rows)) }
{
    for index in 0..rays.len() {
        if rays.row(index)[column] > 0 {
            return true;
        }
    }
    false
}

/// The row `(0, .., 0, 1)`.
pub fn divisor_row(alloc: Global, dim: usize) -> Result<Vec<i128>, Memory>
    requires { dim < 2 ^ 32 - 2 }
    ensures row { IfOk result (λ v. v.items ≡ divisor_row dim) }
    ensures wide { IfOk result (λ v. length v.items ≡ dim + 1) }
    ensures in_range { IfOk result (λ v. AllInRange v.items) }
{
    let mut row = vec![in alloc; 0i128; dim + 1]?;
    row[dim] = 1;
    Ok(row)
}

/// Whether a constraint of the kind is an equality.
pub(crate) fn is_equality_kind(kind: ConKind) -> bool
    ensures { result ≡ is_equality kind }
{
    match kind {
        ConKind::Eq => true,
        ConKind::Ge | ConKind::Gt => false,
    }
}

/// Whether a generator of the kind is a line.
pub(crate) fn is_line_kind(kind: GenKind) -> bool
    ensures { result ≡ is_line kind }
{
    match kind {
        GenKind::Line => true,
        GenKind::Ray | GenKind::Point | GenKind::ClosurePoint => false,
    }
}

/// Appends all constraints.
fn push_constraints(list: &mut RowList, cons: &ConsSys) -> Result<(), Memory>
    requires { list.old.width ≡ cons.now.dim + 1 }
    ensures width { list.new.width ≡ list.old.width }
    ensures rows { OnOk result (list.new.rows ≡ list.old.rows ++ map constraint_row cons.now.list) }
{
    for index in 0..cons.len() {
        list.push(cons.row(index), is_equality_kind(cons.kind(index)))?;
    }
    Ok(())
}

/// Appends all generators.
fn push_generators(list: &mut RowList, gens: &GensSys) -> Result<(), Memory>
    requires { list.old.width ≡ gens.now.dim + 1 }
    ensures width { list.new.width ≡ list.old.width }
    ensures rows { OnOk result (list.new.rows ≡ list.old.rows ++ generator_list gens.now) }
{
    for index in 0..gens.len() {
        list.push(gens.row(index), is_line_kind(gens.kind(index)))?;
    }
    Ok(())
}
