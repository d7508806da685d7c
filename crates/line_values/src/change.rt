//! What an accepted command does to a table of names.
ghost use Rattle.std.specs.Prelude.{◌≡◌, map, IfOk};
ghost use Rattle.name_table.specs.Table.{entry_of};
ghost use Rattle.line_values.specs.Effects.{Shows, ok_line, drop_of, placed, all_placed, replied};
ghost use Rattle.line_values.specs.Meaning.{line};
ghost use Rattle.line_values.specs.Performed.{IsPerformed};
ghost use Rattle.line_values.specs.declared.change.Change.TheVariants as changes;

use crate::entry::PolyEntry;
use crate::refusal::StepErr;
use name_table::Names;
use poly_pair::Poly;
use reply_text::{Fault, Text};
use row_core::Memory;
use std::alloc::Global;

/// What an accepted command does to a table of names.
#[derive(Drop)]
pub enum Change<E> {
    /// The table stays; these lines are the reply.
    Says(Text),
    /// The entry is put under the name.
    Puts(Text, E),
    /// Each polyhedron is put under the name that begins with the text and ends with its number.
    PutsAll(Text, Vec<Poly>),
    /// The name is taken out.
    TakesOut(Text),
}

impl<E: PolyEntry> Change<E> {
    /// Makes the change, and gives its lines. Out of memory, the table is as before.
    pub fn apply(self, alloc: Global, names: &mut Names<E>) -> Result<Text, Memory>
        ensures { Shows E.of_poly names.old self result names.new }
    {
        match self {
            Change::Says(text) => Ok(text),
            Change::Puts(name, entry) => put_entry(alloc, names, &name, entry),
            Change::PutsAll(prefix, sets) => put_sets(alloc, names, &prefix, sets),
            Change::TakesOut(name) => take_out(alloc, names, &name),
        }
    }
}

/// The reply to a line that makes or changes something.
pub fn ok(alloc: Global) -> Result<Text, Memory>
    ensures { IfOk result (λ text. text ≡ ok_line) }
{
    let mut text = Text::new(alloc);
    text.push(b"ok\n")?;
    Ok(text)
}

/// The text with the end of its line.
pub fn as_line(mut text: Text) -> Result<Text, Memory>
    ensures { IfOk result (λ told. told ≡ line text) }
{
    text.push(b"\n")?;
    Ok(text)
}

/// The polyhedra as entries.
fn poly_entries<E: PolyEntry>(alloc: Global, sets: Vec<Poly>) -> Result<Vec<E>, Memory>
    ensures { IfOk result (λ entries. entries.items ≡ map E.of_poly sets.items) }
{
    let mut entries = Vec::new(alloc);
    for set in sets {
        entries.push(E::of_poly(set))?;
    }
    Ok(entries)
}

/// Puts the entry under the name. Out of memory, the table is as before.
pub fn put_entry<E: PolyEntry>(
    alloc: Global,
    names: &mut Names<E>,
    name: &Text,
    entry: E,
) -> Result<Text, Memory>
    ensures { Shows E.of_poly names.old (changes.Puts name.now entry) result names.new }
{
    let reply = ok(alloc)?;
    names.put(name.bytes(), entry)?;
    Ok(reply)
}

/// Puts the polyhedra in order, each under the name of the prefix and its number. After want of
/// memory the table is as before.
fn put_sets<E: PolyEntry>(
    alloc: Global,
    names: &mut Names<E>,
    prefix: &Text,
    sets: Vec<Poly>,
) -> Result<Text, Memory>
    ensures { Shows E.of_poly names.old (changes.PutsAll prefix.now sets) result names.new }
{
    let reply = ok(alloc)?;
    let entries = poly_entries(alloc, sets)?;
    names.put_all(prefix.bytes(), entries)?;
    Ok(reply)
}

/// Takes the name out. Out of memory, the table is as before.
fn take_out<E: PolyEntry>(alloc: Global, names: &mut Names<E>, name: &Text) -> Result<Text, Memory>
    ensures { Shows E.of_poly names.old (changes.TakesOut name.now) result names.new }
{
    let reply = ok(alloc)?;
    names.take_out(name.bytes());
    Ok(reply)
}

/// The name is taken out, where it is there.
pub fn drop_name<E: PolyEntry>(names: &Names<E>, name: Text) -> Result<Change<E>, StepErr>
    ensures { IsPerformed (drop_of name (entry_of names.now name)) result }
{
    match names.get(name.bytes()) {
        Some(_) => Ok(Change::TakesOut(name)),
        None => Err(StepErr::Input(Fault::UnknownName)),
    }
}

/// Puts the polyhedron that was made under the name.
pub fn put_poly<E: PolyEntry>(out: Text, made: Result<Poly, StepErr>) -> Result<Change<E>, StepErr>
    ensures { result ≡ placed E.of_poly out made }
{
    match made {
        Ok(made) => Ok(Change::Puts(out, E::of_poly(made))),
        Err(cause) => Err(cause),
    }
}

/// Puts the polyhedra that were made under numbered names.
pub fn put_numbered<E: PolyEntry>(
    prefix: Text,
    made: Result<Vec<Poly>, StepErr>,
) -> Result<Change<E>, StepErr>
    ensures { result ≡ all_placed prefix made }
{
    match made {
        Ok(sets) => Ok(Change::PutsAll(prefix, sets)),
        Err(cause) => Err(cause),
    }
}

/// Replies with the text of a question.
pub fn say<E: PolyEntry>(told: Result<Text, StepErr>) -> Result<Change<E>, StepErr>
    ensures { result ≡ replied told }
{
    match told {
        Ok(text) => Ok(Change::Says(text)),
        Err(cause) => Err(cause),
    }
}
