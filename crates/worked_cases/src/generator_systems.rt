//! Generator systems.
use gens_sys::{GenKind, GenPushErr, GensSys};
use std::test::Fail;

#[test]
fn kept_generators(rt: HostRuntime) -> Result<(), Fail> {
    let mut system = GensSys::new(rt.alloc(), 1);
    assert!(rt; system.is_empty());
    system.push(&[4, 6], GenKind::Point)?;
    system.push(&[-3, 0], GenKind::Ray)?;
    assert_eq!(rt; system.dim(), 1);
    assert_eq!(rt; system.len(), 2);
    assert_eq!(rt; system.row(0), [2, 3].as_slice());
    assert_eq!(rt; system.row(1), [-1, 0].as_slice());
    assert_eq!(rt; system.kind(0), GenKind::Point);
    assert_eq!(rt; system.kind(1), GenKind::Ray);
    Ok(())
}

#[test]
fn refused_vectors(rt: HostRuntime) {
    let mut system = GensSys::new(rt.alloc(), 1);
    assert_eq!(rt;
        system.push(&[0, 0], GenKind::Line),
        Err(GenPushErr::ZeroVector)
    );
    assert_eq!(rt;
        system.push(&[0, 0], GenKind::Ray),
        Err(GenPushErr::ZeroVector)
    );
    assert_eq!(rt;
        system.push(&[1, 1], GenKind::Line),
        Err(GenPushErr::BadDivisor)
    );
    assert_eq!(rt;
        system.push(&[1, -1], GenKind::Ray),
        Err(GenPushErr::BadDivisor)
    );
    assert_eq!(rt;
        system.push(&[1, 0], GenKind::Point),
        Err(GenPushErr::BadDivisor)
    );
    assert_eq!(rt;
        system.push(&[1, -1], GenKind::ClosurePoint),
        Err(GenPushErr::BadDivisor)
    );
    assert!(rt; system.is_empty());
    assert_eq!(rt; system.push(&[0, 1], GenKind::ClosurePoint), Ok(()));
    assert_eq!(rt; system.push(&[1, 0], GenKind::Line), Ok(()));
}
