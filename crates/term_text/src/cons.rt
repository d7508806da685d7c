//! Constraints, and lists of them.
ghost use Rattle.std.specs.Prelude.{◌≡◌, ℕ, ◌-◌, ◌^◌, ◌<◌, ◌==◌, List, [], length, map, MatchResult};
ghost use Rattle.std.specs.List.{slice_split};
ghost use Rattle.std.proofs.Math.IntN.{neg_ℤ};
ghost use Rattle.grammar.specs.Form.{Matches};
ghost use Rattle.grammar.specs.Grammar.{alone};
ghost use Rattle.grammar.specs.Cases.{con_cases, cons_cases};
ghost use Rattle.row_core.specs.Vectors.{cell};
ghost use Rattle.row_core.specs.Range.{AllInRange};
ghost use Rattle.term_text.specs.declared.terms.Term.{Term};
ghost use Rattle.term_text.specs.declared.terms.ValueErr.TheVariants as ValueErr;
ghost use Rattle.term_text.specs.Sums.{HasSummed};
ghost use Rattle.term_text.specs.Values.{never};
ghost use Rattle.term_text.specs.Reading.{is_blank, first_mark, con_read, cons_read};
ghost use Rattle.term_text.specs.Texts.{turns, facing, IsConRow, IsRowOfFault};
ghost use Rattle.term_text.specs.Systems.{kind_of, IsConOf, IsCon, IsConFault, IsConsOf, IsConsOfFault, IsCons, IsConsFault, Adds, StopsAt, HaveRead, StopAt};

use crate::rows::RowSum;
use crate::scan::scan;
use crate::terms::{Relation, Term, ValueErr};
use cons_sys::{ConKind, ConsSys};
use row_core::RowBuf;
use std::alloc::Global;

/// A constraint: its row as it stands, and its kind.
#[derive(Debug, Drop)]
pub struct OneCon {
    pub row: RowBuf,
    pub kind: ConKind,
}

impl Relation {
    /// The kind of constraint that the relation makes.
    pub fn kind(self) -> ConKind
        ensures { result ≡ kind_of self }
    {
        match self {
            Relation::Equal => ConKind::Eq,
            Relation::AtLeast | Relation::AtMost => ConKind::Ge,
            Relation::Above | Relation::Below => ConKind::Gt,
        }
    }

    /// Whether the right side is to be the greater one.
    fn turns(self) -> bool
        ensures { result ≡ turns self }
    {
        matches!(self, Relation::AtMost | Relation::Below)
    }
}

fn negate(cells: &mut [i128])
    requires { AllInRange cells.old }
    ensures in_range { AllInRange cells.new }
    ensures cells { (j : ℕ) → cell cells.new j ≡ neg_ℤ (cell cells.old j) }
{
    for cell in cells.iter_mut() {
        *cell = -*cell;
    }
}

/// The cells, with their signs changed for `<=` and `<`.
fn facing(mut cells: Vec<i128>, relation: Relation) -> Vec<i128>
    requires { AllInRange cells.items }
    ensures in_range { AllInRange result.items }
    ensures width { length result.items ≡ length cells.items }
    ensures cells { (j : ℕ) → cell result.items j ≡ facing relation (cell cells.items j) }
{
    if relation.turns() {
        negate(&mut cells);
    }
    cells
}

fn con_row(alloc: Global, dim: usize, text: &[u8]) -> Result<OneCon, ValueErr>
    requires { dim < 2 ^ 32 - 2 }
    ensures { MatchResult result
        (λ c. IsConOf dim (con_read text.now) c.row c.kind)
        (IsRowOfFault dim (con_read text.now).terms) }
{
    let mut sum = RowSum::new(alloc, dim)?;
    let state = scan(text, &mut sum)?;
    let relation = state.relation();
    let Some(cells) = sum.into_cells() else {
        return Err(ValueErr::TooLarge);
    };
    Ok(OneCon {
        row: RowBuf::from_vec(facing(cells, relation)),
        kind: relation.kind(),
    })
}

/// The row of a constraint as it stands, not made primitive, and its kind.
///
/// # Errors
/// `OutOfRange` exactly where a variable isn't below `dim`, and otherwise `TooLarge` exactly where
/// a number, or a sum of the first terms of a column, leaves the range.
#[tactic(auto, using(crate::proofs::SaysLaws::con_says))]
pub fn con_of(alloc: Global, dim: usize, text: &[u8]) -> Result<OneCon, ValueErr>
    requires narrow { dim < 2 ^ 32 - 2 }
    requires form { Matches (alone con_cases) text.now }
    ensures { MatchResult result (λ c. IsCon dim text.now c.row c.kind) (IsConFault dim text.now) }
{
    con_row(alloc, dim, text)
}

/// Stores the constraint of what was summed. The answer is false where a number leaves the range.
fn add_sum(system: &mut ConsSys, sum: RowSum, relation: Relation) -> Result<bool, ValueErr>
    requires { sum.dim ≡ system.old.dim }
    ensures dim { system.new.dim ≡ system.old.dim }
    ensures value { MatchResult result
        (λ added. (ts : List Term) → HasSummed ts sum → Adds system.old.dim system.old.list
        system.new.list (record { terms = ts; relation = relation }) added)
        (λ e. e ≡ ValueErr.Memory) }
{
    match sum.into_cells() {
        Some(cells) => {
            let row = RowBuf::from_vec(facing(cells, relation));
            system.push_row(row, relation.kind())?;
            Ok(true)
        }
        None => Ok(false),
    }
}

fn add_con(alloc: Global, system: &mut ConsSys, text: &[u8]) -> Result<bool, ValueErr>
    ensures dim { system.new.dim ≡ system.old.dim }
    ensures value { MatchResult result
        (Adds system.old.dim system.old.list system.new.list (con_read text.now))
        (StopsAt system.old.dim (con_read text.now)) }
{
    let mut sum = RowSum::new(alloc, system.dim())?;
    let state = scan(text, &mut sum)?;
    add_sum(system, sum, state.relation())
}

/// Stores the constraint -1 >= 0.
fn add_never(alloc: Global, system: &mut ConsSys) -> Result<bool, ValueErr>
    ensures dim { system.new.dim ≡ system.old.dim }
    ensures value { MatchResult result
        (Adds system.old.dim system.old.list system.new.list never)
        (StopsAt system.old.dim never) }
{
    let mut sum = RowSum::new(alloc, system.dim())?;
    sum.add(Term {
        negative: true,
        size: 1,
        variable: None,
    })?;
    add_sum(system, sum, Relation::AtLeast)
}

/// Stores the constraints between the commas. The answer is false where a number leaves the range.
fn add_list(alloc: Global, system: &mut ConsSys, text: &[u8]) -> Result<bool, ValueErr>
    requires { system.old.list ≡ [] }
    ensures dim { system.new.dim ≡ system.old.dim }
    ensures value { MatchResult result
        (HaveRead system.old.dim (map con_read (slice_split (λ b. b == 44) text.now))
        system.new.list)
        (StopAt system.old.dim (map con_read (slice_split (λ b. b == 44) text.now))) }
{
    let mut fits = true;
    for part in text.split(|byte| *byte == b',') {
        let added = add_con(alloc, system, part)?;
        fits &= added;
    }
    Ok(fits)
}

fn is_blank(byte: u8) -> bool
    ensures { result ≡ is_blank byte }
{
    byte == b' ' || byte == b'\t'
}

/// The first byte that is no blank, and 0 where there is none.
fn first_mark(text: &[u8]) -> u8
    ensures { result ≡ first_mark text.now }
{
    for byte in text {
        if !is_blank(*byte) {
            return *byte;
        }
    }
    0
}

/// Stores the constraints of a text. The answer is false where a number leaves the range.
fn add_cons(alloc: Global, system: &mut ConsSys, text: &[u8]) -> Result<bool, ValueErr>
    requires { system.old.list ≡ [] }
    ensures dim { system.new.dim ≡ system.old.dim }
    ensures value { MatchResult result
        (HaveRead system.old.dim (cons_read text.now) system.new.list)
        (StopAt system.old.dim (cons_read text.now)) }
{
    let first = first_mark(text);
    if first == b't' {
        return Ok(true);
    }
    if first == b'f' {
        return add_never(alloc, system);
    }
    add_list(alloc, system, text)
}

fn cons_system(alloc: Global, dim: usize, text: &[u8]) -> Result<ConsSys, ValueErr>
    requires { dim < 2 ^ 32 - 2 }
    ensures { MatchResult result
        (IsConsOf dim (cons_read text.now))
        (IsConsOfFault dim (cons_read text.now)) }
{
    let mut system = ConsSys::new(alloc, dim);
    if add_cons(alloc, &mut system, text)? {
        Ok(system)
    } else {
        Err(ValueErr::TooLarge)
    }
}

/// The system of a list of constraints, in order, each with its row made primitive.
///
/// # Errors
/// `OutOfRange` exactly where a variable isn't below `dim`, and otherwise `TooLarge` exactly where
/// in some constraint a number, or a sum of the first terms of a column, leaves the range.
#[tactic(auto, using(crate::proofs::SaysLaws::cons_says))]
pub fn cons_of(alloc: Global, dim: usize, text: &[u8]) -> Result<ConsSys, ValueErr>
    requires narrow { dim < 2 ^ 32 - 2 }
    requires form { Matches (alone cons_cases) text.now }
    ensures { MatchResult result (IsCons dim text.now) (IsConsFault dim text.now) }
{
    cons_system(alloc, dim, text)
}
