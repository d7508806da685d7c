//! The lists of systems with strict rows and closure points.
ghost use Rattle.std.specs.Prelude.{◌≡◌, ℕ, ◌+◌, ◌-◌, ◌^◌, ◌<◌, ◌≤◌, ◌++◌, ◌∷◌, [], List, length, map, insert, replicate, IfOk, OnOk, pos, negsuc, ℤ};
ghost use Rattle.row_core.specs.Vectors.{cell};
ghost use Rattle.row_core.specs.Range.{InRange, AllInRange};
ghost use Rattle.cons_sys.specs.Kinds.{is_equality};
ghost use Rattle.nnc_enc.specs.Encoding.{raised, height_of, encoded_constraint, height_row, bound_row, encoded_constraints};
ghost use Rattle.nnc_enc.specs.EncodedGenerators.{encoded_generator, encoded_generators};
ghost use Rattle.cons_sys.specs.Constraints.{constraint_at};
ghost use Rattle.gens_sys.specs.Generators.{generator_at};

use cons_sys::{ConKind, ConsSys};
use gens_sys::{GenKind, GensSys};
use row_core::{Memory, RowList};
use std::alloc::{AllocError, Global};

/// Puts the row with a number before its last entry in a buffer, in place of what is there.
fn put_raised(
    buffer: &mut Vec<i128>,
    dim: usize,
    row: &[i128],
    height: i128,
) -> Result<(), AllocError>
    requires wide { length row.now ≡ dim + 1 }
    requires in_range { AllInRange row.now }
    requires height { InRange height }
    ensures items { OnOk result (buffer.new.items ≡ raised dim row.now height) }
    ensures wide { OnOk result (length buffer.new.items ≡ dim + 2) }
    ensures in_range { OnOk result (AllInRange buffer.new.items) }
{
    buffer.clear();
    buffer.extend_from_slice(&row[..dim])?;
    buffer.push(height)?;
    buffer.extend_from_slice(&row[dim..])?;
    Ok(())
}

/// Appends the row with a number before its last entry.
fn push_raised(
    buffer: &mut Vec<i128>,
    list: &mut RowList,
    dim: usize,
    row: &[i128],
    height: i128,
    eq: bool,
) -> Result<(), Memory>
    requires list { list.old.width ≡ dim + 2 }
    requires wide { length row.now ≡ dim + 1 }
    requires in_range { AllInRange row.now }
    requires height { InRange height }
    ensures width { list.new.width ≡ list.old.width }
    ensures rows { OnOk result
        (list.new.rows ≡ list.old.rows ++ (raised dim row.now height, eq) ∷ []) }
{
    put_raised(buffer, dim, row, height)?;
    list.push(buffer, eq)
}

/// What a constraint of the kind has in column e.
fn height_of(kind: ConKind) -> i128
    ensures value { result ≡ height_of kind }
    ensures in_range { InRange result }
{
    match kind {
        ConKind::Eq | ConKind::Ge => 0,
        ConKind::Gt => -1,
    }
}

/// Whether a constraint of the kind is an equality.
fn is_equality(kind: ConKind) -> bool
    ensures { result ≡ is_equality kind }
{
    match kind {
        ConKind::Eq => true,
        ConKind::Ge | ConKind::Gt => false,
    }
}

/// Appends the row that is 1 in column e alone.
fn push_height_row(
    alloc: Global,
    buffer: &mut Vec<i128>,
    list: &mut RowList,
    dim: usize,
) -> Result<(), Memory>
    requires width { list.old.width ≡ dim + 2 }
    requires narrow { dim < 2 ^ 32 - 2 }
    ensures width { list.new.width ≡ list.old.width }
    ensures rows { OnOk result (list.new.rows ≡ list.old.rows ++ height_row dim ∷ []) }
{
    let zeros = vec![in alloc; 0i128; dim + 1]?;
    push_raised(buffer, list, dim, &zeros, 1, false)
}

/// Appends the row that is 1 in column d and -1 in column e.
fn push_bound_row(
    alloc: Global,
    buffer: &mut Vec<i128>,
    list: &mut RowList,
    dim: usize,
) -> Result<(), Memory>
    requires { list.old.width ≡ dim + 2 }
    ensures width { list.new.width ≡ list.old.width }
    ensures rows { OnOk result (list.new.rows ≡ list.old.rows ++ bound_row dim ∷ []) }
{
    let mut row = vec![in alloc; 0i128; dim]?;
    row.push(1)?;
    push_raised(buffer, list, dim, &row, -1, false)
}

/// Appends the rows of constraints.
fn push_constraints(
    buffer: &mut Vec<i128>,
    list: &mut RowList,
    cons: &ConsSys,
) -> Result<(), Memory>
    requires { list.old.width ≡ cons.now.dim + 2 }
    ensures width { list.new.width ≡ list.old.width }
    ensures rows { OnOk result
        (list.new.rows ≡ list.old.rows ++ map (encoded_constraint cons.now.dim) cons.now.list) }
{
    let dim = cons.dim();
    for index in 0..cons.len() {
        let kind = cons.kind(index);
        push_raised(
            buffer,
            list,
            dim,
            cons.row(index),
            height_of(kind),
            is_equality(kind),
        )?;
    }
    Ok(())
}

/// The list of a system of constraints.
pub fn encode_cons(alloc: Global, cons: &ConsSys) -> Result<RowList, Memory>
    ensures width { IfOk result (λ list. list.width ≡ cons.now.dim + 2) }
    ensures rows { IfOk result (λ list. list.rows ≡ encoded_constraints cons.now) }
{
    let dim = cons.dim();
    let mut list = RowList::with_room(alloc, dim + 2, cons.len().saturating_add(2))?;
    let mut buffer = Vec::with_capacity(alloc, dim + 2)?;
    push_height_row(alloc, &mut buffer, &mut list, dim)?;
    push_bound_row(alloc, &mut buffer, &mut list, dim)?;
    push_constraints(&mut buffer, &mut list, cons)?;
    Ok(list)
}

/// The rows of further constraints of a system: its list without the two rows of column e, with
/// which each list begins.
pub fn encode_further_cons(alloc: Global, cons: &ConsSys) -> Result<RowList, Memory>
    ensures width { IfOk result (λ list. list.width ≡ cons.now.dim + 2) }
    ensures rows { IfOk result
        (λ list. list.rows ≡ map (encoded_constraint cons.now.dim) cons.now.list) }
{
    let mut list = RowList::with_room(alloc, cons.dim() + 2, cons.len())?;
    let mut buffer = Vec::with_capacity(alloc, cons.dim() + 2)?;
    push_constraints(&mut buffer, &mut list, cons)?;
    Ok(list)
}

/// Appends the vectors of a generator.
fn push_encoded(
    buffer: &mut Vec<i128>,
    list: &mut RowList,
    dim: usize,
    row: &[i128],
    kind: GenKind,
) -> Result<(), Memory>
    requires list { list.old.width ≡ dim + 2 }
    requires wide { length row.now ≡ dim + 1 }
    requires in_range { AllInRange row.now }
    ensures width { list.new.width ≡ list.old.width }
    ensures rows { OnOk result
        (list.new.rows ≡ list.old.rows ++ encoded_generator dim (row.now, kind)) }
{
    match kind {
        GenKind::Line => push_raised(buffer, list, dim, row, 0, true),
        GenKind::Ray | GenKind::ClosurePoint => push_raised(buffer, list, dim, row, 0, false),
        GenKind::Point => {
            push_raised(buffer, list, dim, row, row[dim], false)?;
            push_raised(buffer, list, dim, row, 0, false)
        }
    }
}

/// The list of a system of generators.
pub fn encode_gens(alloc: Global, gens: &GensSys) -> Result<RowList, Memory>
    ensures width { IfOk result (λ list. list.width ≡ gens.now.dim + 2) }
    ensures rows { IfOk result (λ list. list.rows ≡ encoded_generators gens.now.dim gens.now.list) }
{
    let dim = gens.dim();
    let mut list = RowList::with_room(alloc, dim + 2, gens.len().saturating_mul(2))?;
    let mut buffer = Vec::with_capacity(alloc, dim + 2)?;
    for index in 0..gens.len() {
        push_encoded(
            &mut buffer,
            &mut list,
            dim,
            gens.row(index),
            gens.kind(index),
        )?;
    }
    Ok(list)
}
