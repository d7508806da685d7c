//! Rows in one buffer.
ghost use Rattle.std.specs.Prelude.{◌≡◌, ◌≢◌, ◌<◌, length, IfOk};

use row_core::{Memory, Steps, bits};
use row_store::{Part, RowStore, Values, VectorList, values};
use std::alloc::Global;
use std::marker::Brand;
use std::process::Abort;
use std::sync::ledger::{Blank, Ledger};
use std::test::Fail;

const K: i128 = i128::MAX;

/// The greatest number of 28 bits.
const BITS_28: i128 = 0xfff_ffff;

/// The least number of 29 bits.
const BITS_29: i128 = 0x1000_0000;

/// The greatest number of 30 bits.
const BITS_30: i128 = 0x3fff_ffff;

/// The greatest number of 31 bits.
const BITS_31: i128 = 0x7fff_ffff;

/// The rows (2, 4) and (-3, 5), with room for one more.
fn two_rows(alloc: Global) -> Result<RowStore, Memory>
    ensures count { IfOk result (λ store. length store.rows ≡ 2) }
    ensures width { IfOk result (λ store. store.width ≡ 2) }
    ensures spare { IfOk result (λ store. store.spare ≡ 1) }
{
    let mut store = RowStore::new(alloc, 2);
    store.reserve(3)?;
    store.push_reserved(&[2, 4]);
    store.push_reserved(&[-3, 5]);
    Ok(store)
}

/// Combines two rows, with as many bits as they have.
fn combine_rows<L: Ledger>(
    store: &mut RowStore,
    i: usize,
    j: usize,
    factors: (i128, i128),
    steps: &mut Steps<L>,
) -> Result<u32, u32>
    requires first { i < length store.old.rows }
    requires second { j < length store.old.rows }
    requires other { i ≢ j }
{
    let within = bits(store.row(i)).max(bits(store.row(j)));
    store.combine_rows_within(i, j, factors, within, steps)
}

/// Combines a row with another slice, with as many bits as they have.
fn combine_with<L: Ledger>(
    store: &mut RowStore,
    i: usize,
    v: &[i128],
    factors: (i128, i128),
    steps: &mut Steps<L>,
) -> Result<u32, u32>
    requires row { i < length store.old.rows }
    requires wide { length v.now ≡ store.old.width }
{
    let within = bits(store.row(i)).max(bits(v));
    store.combine_with(i, v, factors, within, steps)
}

#[test]
fn rows_are_appended(rt: HostRuntime) -> Result<(), Fail> {
    let mut store = two_rows(rt.alloc())?;
    store.push_copy(0);
    assert_eq!(rt; store.len(), 3);
    assert_eq!(rt; store.row(1), [-3, 5].as_slice());
    assert_eq!(rt; store.row(2), [2, 4].as_slice());
    Ok(())
}

#[test]
fn one_row_is_changed(rt: HostRuntime) -> Result<(), Fail> {
    let mut store = two_rows(rt.alloc())?;
    store.make_row_primitive(0);
    assert_eq!(rt; store.len(), 2);
    store.negate(1);
    assert_eq!(rt; store.len(), 2);
    assert_eq!(rt; store.row(0), [1, 2].as_slice());
    assert_eq!(rt; store.row(1), [3, -5].as_slice());
    Ok(())
}

#[test]
fn one_row_is_divided_by_its_bits(rt: HostRuntime) -> Result<(), Fail> {
    let mut store = two_rows(rt.alloc())?;
    let within = bits(store.row(0));
    assert_eq!(rt; store.make_row_primitive_within(0, within), 2);
    assert_eq!(rt; within, 3);
    assert_eq!(rt; store.len(), 2);
    assert_eq!(rt; store.row(0), [1, 2].as_slice());
    assert_eq!(rt; store.row(1), [-3, 5].as_slice());
    Ok(())
}

fn check_combinations<L: Ledger>(rt: &impl Abort, store: RowStore, blank: Blank)
    requires rows { length store.rows ≡ 2 }
    requires name { blank.name ≡ L.name }
    requires parts { blank.parts ≡ L.parts }
    requires shared { 0 < blank.parts }
{
    let mut store = store;
    let mut steps = Steps::<L>::new(blank);
    assert_eq!(rt; store.combine_rows(1, 2, 0, 3, &mut steps), Ok(()));
    assert_eq!(rt; store.len(), 2);
    assert_eq!(rt; store.row(1), [0, 22].as_slice());
    assert_eq!(rt; store.combine_rows(0, 1, 1, K, &mut steps), Err(1));
    assert_eq!(rt; store.len(), 2);
    assert_eq!(rt;
        store.row(0),
        [2, 4].as_slice(),
        "a refused combination writes nothing"
    );
    assert_eq!(rt; combine_rows(&mut store, 0, 1, (-1, 1), &mut steps), Ok(5));
    assert_eq!(rt; store.len(), 2);
    assert_eq!(rt; store.row(0), [-2, 18].as_slice());
    assert_eq!(rt; store.row(1), [0, 22].as_slice());
}

#[test]
fn rows_are_combined(rt: HostRuntime) -> Result<(), Fail> {
    let store = two_rows(rt.alloc())?;
    check_combinations::<Brand>(&rt, store, Blank::new(1));
    Ok(())
}

fn check_combination_with<L: Ledger>(rt: &impl Abort, store: RowStore, blank: Blank)
    requires rows { length store.rows ≡ 2 }
    requires width { store.width ≡ 2 }
    requires name { blank.name ≡ L.name }
    requires parts { blank.parts ≡ L.parts }
    requires shared { 0 < blank.parts }
{
    let mut store = store;
    let mut steps = Steps::<L>::new(blank);
    assert_eq!(rt;
        combine_with(&mut store, 0, &[K, 0], (1, 1), &mut steps),
        Err(0)
    );
    assert_eq!(rt; store.width(), 2);
    assert_eq!(rt; store.len(), 2);
    assert_eq!(rt;
        store.row(0),
        [2, 4].as_slice(),
        "a refused combination writes nothing"
    );
    assert_eq!(rt;
        combine_with(&mut store, 0, &[-1, 2], (3, 2), &mut steps),
        Ok(5)
    );
    assert_eq!(rt; store.len(), 2);
    assert_eq!(rt; store.row(0), [4, 16].as_slice());
    assert_eq!(rt; store.row(1), [-3, 5].as_slice());
}

#[test]
fn a_row_is_combined_with_another_slice(rt: HostRuntime) -> Result<(), Fail> {
    let store = two_rows(rt.alloc())?;
    check_combination_with::<Brand>(&rt, store, Blank::new(1));
    Ok(())
}

#[test]
fn bits_are_told(rt: HostRuntime) -> Result<(), Fail> {
    let mut store = two_rows(rt.alloc())?;
    assert_eq!(rt; store.bits(), 3);
    store.push_reserved(&[K, 0]);
    assert_eq!(rt; store.bits(), 127);
    assert_eq!(rt; store.len(), 3);
    store.keep_rows(&[true, true, false]);
    assert_eq!(rt; store.bits(), 3);
    Ok(())
}

#[test]
fn a_list_keeps_the_greatest_number_of_bits(rt: HostRuntime) -> Result<(), Fail> {
    let mut list = VectorList::with_room(rt.alloc(), 2, 3)?;
    assert_eq!(rt; list.bits(), 0);
    list.push(&[BITS_28, -BITS_28], false)?;
    assert_eq!(rt; list.bits(), 28);
    list.push(&[1, -BITS_29], false)?;
    assert_eq!(rt; list.bits(), 29);
    list.push(&[0, 1], false)?;
    assert_eq!(rt; list.bits(), 29);
    Ok(())
}

fn check_bounds<L: Ledger>(rt: &impl Abort, store: RowStore, blank: Blank)
    requires rows { length store.rows ≡ 2 }
    requires width { store.width ≡ 2 }
    requires name { blank.name ≡ L.name }
    requires parts { blank.parts ≡ L.parts }
    requires shared { 0 < blank.parts }
{
    let mut store = store;
    let mut steps = Steps::<L>::new(blank);
    let other = [BITS_31, -BITS_31];
    assert_eq!(rt;
        combine_with(&mut store, 0, &other, (BITS_30, BITS_30), &mut steps),
        Ok(62),
        "numbers of 31 bits by those of 30: all in one word"
    );
    assert_eq!(rt; store.width(), 2);
    assert_eq!(rt; store.len(), 2);
    assert_eq!(rt; store.row(0), [0x3fff_fffe_8000_0002, 0].as_slice());
    assert_eq!(rt;
        combine_with(&mut store, 1, &other, (BITS_31, BITS_31), &mut steps),
        Ok(63),
        "by those of 31"
    );
    assert_eq!(rt; store.width(), 2);
    assert_eq!(rt; store.len(), 2);
    assert_eq!(rt; store.row(1), [0x7fff_fffe_0000_0002, 0].as_slice());
    assert_eq!(rt;
        combine_with(&mut store, 1, &other, (-2, 0), &mut steps),
        Ok(64),
        "more than one word"
    );
    assert_eq!(rt; store.len(), 2);
    assert_eq!(rt; store.row(1), [-0xffff_fffc_0000_0004, 0].as_slice());
}

#[test]
fn combinations_at_the_bounds(rt: HostRuntime) -> Result<(), Fail> {
    let mut store = RowStore::new(rt.alloc(), 2);
    store.reserve(2)?;
    store.push_reserved(&[BITS_31, BITS_31]);
    store.push_copy(0);
    check_bounds::<Brand>(&rt, store, Blank::new(1));
    Ok(())
}

#[test]
fn values_of_31_bits(rt: HostRuntime) -> Result<(), Fail> {
    let mut list = VectorList::with_room(rt.alloc(), 3, 2)?;
    list.push(&[BITS_31, BITS_31, BITS_31], false)?;
    list.push(&[BITS_28, -BITS_29, 1], false)?;
    let row = [BITS_31, BITS_31, BITS_31];
    let mut found = Values::new(rt.alloc());
    values(&mut found, Part::Rays, &list, &row, bits(&row))?;
    assert_eq!(rt; found.len(), 2);
    assert_eq!(rt; found[0], 0xbfff_fffd_0000_0003, "more than one word");
    assert_eq!(rt; found[1], 0);
    Ok(())
}

#[test]
fn marked_rows_are_kept(rt: HostRuntime) -> Result<(), Fail> {
    let mut store = two_rows(rt.alloc())?;
    store.push_copy(1);
    assert_eq!(rt; store.len(), 3);
    store.keep_rows(&[false, true, false]);
    assert_eq!(rt; store.len(), 1);
    assert_eq!(rt; store.row(0), [-3, 5].as_slice());
    store.reserve(1)?;
    store.push_reserved(&[K, -K]);
    assert_eq!(rt; store.len(), 2);
    assert_eq!(rt; store.row(1), [K, -K].as_slice());
    Ok(())
}
