//! Names that are a prefix and a number.
ghost use Rattle.std.specs.Prelude.{◌≡◌, ◌+◌, ◌<◌, ◌≤◌, length, IfOk};
ghost use Rattle.indexmap.specs.IndexMap.{spare};
ghost use Rattle.name_table.specs.Table.{put, put_each, numbered as name_numbered, numbered_entries as entries_numbered};
ghost use Rattle.name_table.specs.Keys.{named};

use indexmap::IndexMap;
use reply_text::Text;
use row_core::Memory;
use std::alloc::Global;

/// The prefix and then the number in decimal.
pub fn numbered(alloc: Global, prefix: &[u8], number: usize) -> Result<Vec<u8>, Memory>
    ensures { IfOk result (λ name. name.items ≡ name_numbered prefix.now number) }
{
    let mut name = Text::new(alloc);
    name.push(prefix)?;
    name.push_unsigned(number as u64)?;
    Ok(Vec::from_slice(alloc, name.bytes())?)
}

/// The entries in order, each under the name of the prefix and its number.
pub fn numbered_entries<E: Drop>(
    alloc: Global,
    prefix: &[u8],
    entries: Vec<E>,
) -> Result<Vec<(Vec<u8>, E)>, Memory>
    ensures { IfOk result (λ under. named under.items
        ≡ entries_numbered prefix.now 0 entries.items) }
{
    let mut under = Vec::new(alloc);
    for entry in entries {
        let name = numbered(alloc, prefix, under.len())?;
        under.push((name, entry))?;
    }
    Ok(under)
}

/// Puts the entries in order, where there is room for all.
pub fn put_within<E: Drop>(map: &mut IndexMap<Vec<u8>, E>, entries: Vec<(Vec<u8>, E)>)
    requires { length entries.items ≤ spare map.old }
    ensures { named map.new.entries ≡ put_each (named map.old.entries) (named entries.items) }
{
    for (name, entry) in entries {
        put_one_within(map, name, entry);
    }
}

/// Puts one entry, where there is room.
fn put_one_within<E: Drop>(map: &mut IndexMap<Vec<u8>, E>, name: Vec<u8>, entry: E)
    requires { 0 < spare map.old }
    ensures entries { named map.new.entries ≡ put (named map.old.entries) name.items entry }
    ensures room { spare map.old ≤ spare map.new + 1 }
{
    match map.insert(name, entry) {
        Ok(_) => (),
        Err(_) => unreachable!(),
    }
}
