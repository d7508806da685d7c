//! Rows of exact integers.
ghost use Rattle.std.specs.Prelude.{◌≡◌, ◌^◌, ◌<◌, length};

use row_core::{
    MarkedRows, RowBuf, RowList, Steps, bits, combine_into, combine_within, dot, gcd,
    make_primitive,
};
use std::marker::Brand;
use std::process::Abort;
use std::sync::ledger::{Blank, Ledger};
use std::test::Fail;

const K: i128 = i128::MAX;

/// The products of two numbers below it, one for each of 2^32 columns, have a sum of the range.
const N: i128 = 1 << 47;

/// The greatest numbers of so many bits.
const BITS_31: i128 = 0x7fff_ffff;

const BITS_62: i128 = 0x3fff_ffff_ffff_ffff;

const BITS_63: i128 = 0x7fff_ffff_ffff_ffff;

#[test]
fn dots(rt: HostRuntime) -> Result<(), Fail> {
    assert_eq!(rt; dot(&[1, -2, 3], &[4, 5, 6]), Ok(12));
    assert_eq!(rt; dot(&[], &[]), Ok(0));
    assert_eq!(rt; dot(&[K, 1], &[-1, 1]), Ok(1 - K));
    assert_eq!(rt;
        dot(&[1, K, 1], &[1, 1, -1]),
        Err(1),
        "the sum of two columns is above the range"
    );
    assert_eq!(rt;
        dot(&[0, K, 1], &[5, 2, 1]),
        Err(1),
        "the product is above the range"
    );
    assert_eq!(rt;
        dot(&[-K, 1], &[1, -1]),
        Err(1),
        "the least i128 is below the range"
    );
    Ok(())
}

#[test]
fn short_and_wide_dots(rt: HostRuntime) -> Result<(), Fail> {
    let square = N * N;
    assert_eq!(rt;
        dot(&[N - 1, -N, 1 - N], &[1 - N, N - 1, -N]),
        Ok(-(N - 1) * (N - 1))
    );
    assert_eq!(rt; dot(&[-N, -N, -N], &[-N, -N, -N]), Ok(3 * square));
    assert_eq!(rt; dot(&[N, -N - 1], &[N, N]), Ok(-N));
    assert_eq!(rt;
        dot(&[1, 2, K], &[3, 4, 1]),
        Err(2),
        "the last entry is wide"
    );
    assert_eq!(rt; dot(&[1, 2, 1 - K], &[3, 4, 1]), Ok(12 - K));
    Ok(())
}

#[test]
fn dots_at_the_bounds(rt: HostRuntime) -> Result<(), Fail> {
    assert_eq!(rt;
        dot(&[BITS_31], &[-BITS_31]),
        Ok(-BITS_31 * BITS_31),
        "63 bits"
    );
    assert_eq!(rt;
        dot(&[BITS_31, BITS_31, BITS_31], &[BITS_31, BITS_31, BITS_31]),
        Ok(3 * BITS_31 * BITS_31),
        "64 bits, and no word"
    );
    assert_eq!(rt;
        dot(
            &[BITS_63, BITS_63, BITS_63],
            &[-BITS_62, -BITS_62, -BITS_62]
        ),
        Ok(-3 * BITS_63 * BITS_62),
        "127 bits"
    );
    assert_eq!(rt;
        dot(&[BITS_63, BITS_63, BITS_63], &[BITS_63, BITS_63, BITS_63]),
        Err(2),
        "128 bits, and the third sum is above the range"
    );
    assert_eq!(rt;
        dot(&[BITS_63, BITS_63, BITS_63], &[BITS_63, BITS_63, -BITS_63]),
        Ok(BITS_63 * BITS_63),
        "128 bits, and no sum is above the range"
    );
    Ok(())
}

/// Combines two rows, with as many bits as they have.
fn combine_onto<L: Ledger>(
    dst: &mut [i128],
    s: i128,
    v: &[i128],
    t: i128,
    steps: &mut Steps<L>,
) -> Result<(), u32>
    requires same_width { length dst.old ≡ length v.now }
    requires narrow { length v.now < 2 ^ 32 }
{
    let within = bits(dst).max(bits(v));
    combine_within(dst, s, v, t, within, steps)?;
    Ok(())
}

fn check_combinations<L: Ledger>(rt: &impl Abort, blank: Blank)
    requires name { blank.name ≡ L.name }
    requires parts { blank.parts ≡ L.parts }
    requires shared { 0 < blank.parts }
{
    let mut steps = Steps::<L>::new(blank);
    let mut row = [1, 2];
    assert_eq!(rt; combine_onto(&mut row, 3, &[5, -1], -2, &mut steps), Ok(()));
    assert_eq!(rt; row, [-7, 8]);
    let mut last = [1, K];
    assert_eq!(rt; combine_onto(&mut last, 1, &[1, 1], 1, &mut steps), Err(1));
    assert_eq!(rt; last, [1, K], "the first column isn't written either");
    let mut first = [K, 1];
    assert_eq!(rt;
        combine_onto(&mut first, 2, &[K, 1], -2, &mut steps),
        Err(0)
    );
    assert_eq!(rt; first, [K, 1], "a refused combination writes nothing");
    assert_eq!(rt; combine_onto(&mut row, 2, &[5, -1], 3, &mut steps), Ok(()));
    assert_eq!(rt; row, [1, 13]);
    assert_eq!(rt; combine_onto(&mut row, 1, &[1, K], 1, &mut steps), Err(1));
    assert_eq!(rt; row, [1, 13], "a refused combination keeps its row");
    let mut narrow = [N - 1, -N];
    assert_eq!(rt;
        combine_onto(&mut narrow, N - 1, &[N, 1], -N, &mut steps),
        Ok(())
    );
    assert_eq!(rt; narrow, [1 - 2 * N, -N * N]);
    assert_eq!(rt;
        combine_onto(&mut narrow, 1, &[1, N], N, &mut steps),
        Ok(())
    );
    assert_eq!(rt; narrow, [1 - N, 0]);
}

#[test]
fn combinations(rt: HostRuntime) {
    check_combinations::<Brand>(&rt, Blank::new(1));
}

fn check_fresh_combinations<L: Ledger>(rt: &impl Abort, blank: Blank)
    requires name { blank.name ≡ L.name }
    requires parts { blank.parts ≡ L.parts }
    requires shared { 0 < blank.parts }
{
    let mut steps = Steps::<L>::new(blank);
    let mut row = [0, 0];
    assert_eq!(rt;
        combine_into(&mut row, &[1, 2], 3, &[5, -1], -2, &mut steps),
        Ok(())
    );
    assert_eq!(rt; row, [-7, 8]);
    assert_eq!(rt;
        combine_into(&mut row, &[1, K], 1, &[1, 1], 1, &mut steps),
        Err(1)
    );
    assert_eq!(rt;
        combine_into(&mut row, &[K, 1], 2, &[K, 1], -2, &mut steps),
        Err(0)
    );
    assert_eq!(rt; row, [-7, 8], "a refused combination writes nothing");
    assert_eq!(rt;
        combine_into(&mut row, &[N - 1, -N], N - 1, &[N, 1], -N, &mut steps),
        Ok(())
    );
    assert_eq!(rt; row, [1 - 2 * N, -N * N]);
}

#[test]
fn fresh_combinations(rt: HostRuntime) {
    check_fresh_combinations::<Brand>(&rt, Blank::new(1));
}

#[test]
fn divisors(rt: HostRuntime) -> Result<(), Fail> {
    assert_eq!(rt; gcd(12, 18), 6);
    assert_eq!(rt; gcd(0, 7), 7);
    assert_eq!(rt; gcd(0, 0), 0);
    assert_eq!(rt; gcd(1 << 127, 3 << 100), 1 << 100);
    assert_eq!(rt; gcd((1 << 64) - 1, 5 << 64), 5);
    assert_eq!(rt; gcd((1 << 64) - 1, 35), 5);
    Ok(())
}

#[test]
fn primitive_rows(rt: HostRuntime) -> Result<(), Fail> {
    let mut row = [4, -6, 0];
    make_primitive(&mut row);
    assert_eq!(rt; row, [2, -3, 0]);
    let mut zero = [0, 0];
    make_primitive(&mut zero);
    assert_eq!(rt; zero, [0, 0]);
    let mut single = [-K];
    make_primitive(&mut single);
    assert_eq!(rt; single, [-1]);
    let mut wide = [0, 1 << 100, -(3 << 60), 0];
    make_primitive(&mut wide);
    assert_eq!(rt; wide, [0, 1 << 40, -3, 0]);
    Ok(())
}

#[test]
fn kept_rows(rt: HostRuntime) -> Result<(), Fail> {
    let mut list = RowList::new(rt.alloc(), 2);
    assert!(rt; list.is_empty());
    list.push(&[1, 2], true)?;
    let row = RowBuf::new(rt.alloc(), &[-3, 4])?;
    list.push(row.cells(), false)?;
    assert_eq!(rt; list.width(), 2);
    assert_eq!(rt; list.len(), 2);
    assert_eq!(rt; list.row(1), [-3, 4].as_slice());
    assert!(rt; list.is_eq(0) && !list.is_eq(1));
    Ok(())
}

#[test]
fn marked_rows(rt: HostRuntime) -> Result<(), Fail> {
    let mut rows = MarkedRows::new(rt.alloc());
    rows.push_copy(&[7, 0], true)?;
    let first = rows.clone()?;
    rows.push_primitive(&[4, -6], false)?;
    assert_eq!(rt; rows.len(), 2);
    assert_eq!(rt; rows.row(0), [7, 0].as_slice());
    assert_eq!(rt; rows.row(1), [2, -3].as_slice());
    assert!(rt; rows.mark(0) && !rows.mark(1));
    let copy = rows.clone()?;
    assert!(rt; copy == rows && copy != first);
    Ok(())
}

#[test]
fn rows_in_place(rt: HostRuntime) -> Result<(), Fail> {
    let mut list = RowList::new(rt.alloc(), 2);
    list.push(&[1, 2], false)?;
    list.insert(0, &[5, 6], true)?;
    list.insert(1, &[3, 4], false)?;
    list.put(2, &[7, 8]);
    list.remove(0);
    assert_eq!(rt; list.len(), 2);
    assert_eq!(rt; list.row(0), [3, 4].as_slice());
    assert_eq!(rt; list.row(1), [7, 8].as_slice());
    assert!(rt; !list.is_eq(0) && !list.is_eq(1));
    Ok(())
}

#[test]
fn rows_taken_over(rt: HostRuntime) -> Result<(), Fail> {
    let cells = vec![in rt.alloc(); 1, 2, 3, 4]?;
    let mut lines = RowList::of_cells(rt.alloc(), 2, 2, cells, true)?;
    let mut rays = RowList::new(rt.alloc(), 2);
    rays.push(&[5, 6], false)?;
    lines.append(rays)?;
    let mut others = RowList::new(rt.alloc(), 2);
    others.append(lines)?;
    assert_eq!(rt; others.row(2), [5, 6].as_slice());
    assert!(rt; others.is_eq(1) && !others.is_eq(2));
    assert_eq!(rt; others.into_cells(), vec![in rt.alloc(); 1, 2, 3, 4, 5, 6]?);
    Ok(())
}

#[test]
fn fresh_rows(rt: HostRuntime) -> Result<(), Fail> {
    let row = RowBuf::from_vec(vec![in rt.alloc(); 4, -6]?).into_primitive();
    let copy = row.clone()?;
    assert!(rt; copy == row);
    assert_eq!(rt; row.into_vec(), vec![in rt.alloc(); 2, -3]?);
    Ok(())
}
