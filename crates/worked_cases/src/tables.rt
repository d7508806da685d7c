//! Tables of truth values.
ghost use Rattle.std.specs.Prelude.{◌<◌, length};

use sat_matrix::SatMatrix;
use std::alloc::Global;
use std::process::Abort;
use std::test::Fail;

#[test]
fn conjunction(rt: HostRuntime) -> Result<(), Fail> {
    let mut table = SatMatrix::new(rt.alloc(), 3);
    table.reserve(3)?;
    table.push_reserved(true);
    table.push_reserved(true);
    table.set(0, 0, false);
    table.set(1, 2, false);
    table.push_and(0, 1);
    assert_eq!(rt; table.len(), 3);
    assert_eq!(rt;
        [table.get(2, 0), table.get(2, 1), table.get(2, 2)],
        [false, true, false]
    );
    Ok(())
}

#[test]
fn columns_as_rows(rt: HostRuntime) -> Result<(), Fail> {
    let mut table = SatMatrix::new(rt.alloc(), 1);
    table.reserve(2)?;
    table.push_reserved(false);
    table.push_reserved(true);
    table.add_column()?;
    table.set(0, 1, true);
    let turned = table.transpose()?;
    assert_eq!(rt; turned.columns(), 2);
    assert_eq!(rt; turned.len(), 2);
    assert_eq!(rt; [turned.get(0, 0), turned.get(0, 1)], [false, true]);
    assert_eq!(rt; [turned.get(1, 0), turned.get(1, 1)], [true, false]);
    Ok(())
}

#[test]
fn third_row(rt: HostRuntime) -> Result<(), Fail> {
    let mut table = SatMatrix::new(rt.alloc(), 2);
    table.reserve(3)?;
    table.push_reserved(true);
    table.push_reserved(true);
    table.set(0, 0, false);
    table.push_reserved(false);
    assert!(rt; !table.third_between(0, 1));
    table.set(2, 1, true);
    assert!(rt; table.third_between(0, 1));
    table.keep_rows(&[true, false, true]);
    assert_eq!(rt; table.len(), 2);
    assert!(rt; table.get(1, 1));
    assert!(rt; !table.third_between(0, 1));
    Ok(())
}

#[test]
fn rows_of_several_words(rt: HostRuntime) -> Result<(), Fail> {
    let mut table = SatMatrix::new(rt.alloc(), 63);
    table.reserve(2)?;
    table.push_reserved(true);
    table.push_reserved(false);
    table.add_column()?;
    table.add_column()?;
    table.set(0, 64, true);
    table.set(1, 63, true);
    assert_eq!(rt; table.columns(), 65);
    assert_eq!(rt; table.len(), 2);
    assert_eq!(rt; [table.ones(0), table.ones(1)], [64, 1]);
    assert_eq!(rt; table.shared(0, 1), 0);
    assert!(rt; table.has_one_more(1, 0) && !table.has_one_more(0, 1));
    assert!(rt; !table.has_one_more(0, 0));
    assert!(rt; table.get(0, 64) && !table.get(0, 63));
    Ok(())
}

#[test]
fn row_of_another_table(rt: HostRuntime) -> Result<(), Fail> {
    let mut grown = SatMatrix::new(rt.alloc(), 63);
    grown.add_column()?;
    grown.reserve(3)?;
    grown.push_reserved(false);
    grown.push_reserved(true);
    grown.set(1, 5, false);
    let mut new = SatMatrix::new(rt.alloc(), 64);
    new.reserve(1)?;
    new.push_row_of(&grown, 1);
    assert_eq!(rt; new.ones(0), 63);
    assert!(rt; new.get(0, 63) && !new.get(0, 5));
    assert!(rt; !grown.third_between(1, 1));
    grown.push_row_of(&new, 0);
    assert!(rt; grown.third_between(1, 1));
    Ok(())
}

// Whether row `i` is true only where row `j` is, or only where row `k` is.
fn is_within_either(table: &SatMatrix, i: usize, j: usize, k: usize) -> bool
    requires row { i < length table.now.rows }
    requires first { j < length table.now.rows }
    requires second { k < length table.now.rows }
{
    table.is_within_some(i, &[j, k])
}

// Rows of which the last place alone tells which is within which.
fn check_within(rt: &impl Abort, alloc: Global, columns: usize) -> Result<(), Fail>
    requires { 1 < columns }
{
    let mut table = SatMatrix::new(alloc, columns);
    table.reserve(3)?;
    table.push_reserved(true);
    table.push_reserved(false);
    table.push_reserved(true);
    table.set(0, columns - 1, false);
    table.set(1, columns - 1, true);
    assert!(rt; !table.is_within_some(0, &[]));
    assert!(rt; !is_within_either(&table, 0, 1, 1));
    assert!(rt; is_within_either(&table, 0, 1, 0));
    assert!(rt; is_within_either(&table, 0, 1, 2));
    assert!(rt; is_within_either(&table, 1, 2, 0));
    assert!(rt; !is_within_either(&table, 2, 0, 1));
    Ok(())
}

#[test]
fn row_within_another(rt: HostRuntime) -> Result<(), Fail> {
    check_within(&rt, rt.alloc(), 2)?;
    check_within(&rt, rt.alloc(), 65)?;
    check_within(&rt, rt.alloc(), 130)?;
    check_within(&rt, rt.alloc(), 200)?;
    check_within(&rt, rt.alloc(), 300)?;
    Ok(())
}
