//! Constraint systems.
use cons_sys::{ConKind, ConsSys};
use row_core::{OverKind, PairOver};
use std::test::Fail;

const K: i128 = i128::MAX;

#[test]
fn kept_constraints(rt: HostRuntime) -> Result<(), Fail> {
    let mut system = ConsSys::new(rt.alloc(), 2);
    assert!(rt; system.is_empty());
    system.push(&[2, -4, 6], ConKind::Ge)?;
    system.push(&[0, 0, -5], ConKind::Gt)?;
    assert_eq!(rt; system.dim(), 2);
    assert_eq!(rt; system.len(), 2);
    assert_eq!(rt; system.row(0), [1, -2, 3].as_slice());
    assert_eq!(rt; system.row(1), [0, 0, -1].as_slice());
    assert_eq!(rt; system.kind(1), ConKind::Gt);
    Ok(())
}

// 0 <= A < 1
#[test]
fn points_of_an_interval(rt: HostRuntime) -> Result<(), Fail> {
    let mut system = ConsSys::new(rt.alloc(), 1);
    system.push(&[1, 0], ConKind::Ge)?;
    system.push(&[-1, 1], ConKind::Gt)?;
    assert_eq!(rt; system.holds_at(&[0, 1]), Ok(true));
    assert_eq!(rt; system.holds_at(&[2, 3]), Ok(true));
    assert_eq!(rt; system.holds_at(&[3, 3]), Ok(false));
    assert_eq!(rt; system.holds_at(&[-1, 4]), Ok(false));
    Ok(())
}

#[test]
fn dots_out_of_the_range(rt: HostRuntime) -> Result<(), Fail> {
    let mut system = ConsSys::new(rt.alloc(), 2);
    system.push(&[0, 1, 0], ConKind::Ge)?;
    system.push(&[K, K, -1], ConKind::Ge)?;
    let over = PairOver {
        kind: OverKind::Dot,
        left: 1,
        right: 0,
        column: 1,
        turned: false,
    };
    assert_eq!(rt; system.holds_at(&[1, 1, 1]), Err(over));
    assert_eq!(rt; system.holds_at(&[1, 0, 1]), Ok(true));
    assert_eq!(rt;
        system.holds_at(&[1, -1, 1]),
        Ok(false),
        "the test stops at the first that fails"
    );
    Ok(())
}
