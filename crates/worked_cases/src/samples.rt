//! The first rows of a sample.

use sample_rows::sample_constraints;

#[test]
fn first_row(rt: HostRuntime) {
    let Ok(cons) = sample_constraints(rt.alloc(), 1) else {
        panic!(rt; "no memory");
    };
    assert!(rt; cons.len() == 7);
    assert!(rt; cons.row(6)[0] == 7);
    assert!(rt; cons.row(6)[1] == -6);
    assert!(rt; cons.row(6)[2] == 2);
    assert!(rt; cons.row(6)[3] == 16);
}
