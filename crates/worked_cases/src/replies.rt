//! Texts, printed faults and overflows.
use reply_text::{Fault, Text, print_fault, print_overflow};
use row_core::{OverKind, Overflow, RowBuf};
use std::test::Fail;

const K: i128 = i128::MAX;

#[test]
fn appended_text(rt: HostRuntime) -> Result<(), Fail> {
    let mut text = Text::new(rt.alloc());
    text.push(b"n = ")?;
    text.push_signed(-K)?;
    text.push(b", ")?;
    text.push_unsigned(u64::MAX)?;
    assert_eq!(rt;
        text.bytes(),
        b"n = -170141183460469231731687303715884105727, 18446744073709551615".as_slice()
    );
    Ok(())
}

#[test]
fn printed_faults(rt: HostRuntime) -> Result<(), Fail> {
    assert_eq!(rt;
        print_fault(rt.alloc(), &Fault::Syntax(22))?.bytes(),
        b"fault 1 Syntax 22".as_slice()
    );
    assert_eq!(rt;
        print_fault(rt.alloc(), &Fault::ZeroDivisor)?.bytes(),
        b"fault 7 ZeroDivisor".as_slice()
    );
    assert_eq!(rt;
        print_fault(rt.alloc(), &Fault::CddSyntax(8))?.bytes(),
        b"fault 16 CddSyntax 8".as_slice()
    );
    assert_eq!(rt;
        print_fault(rt.alloc(), &Fault::Truncated)?.bytes(),
        b"fault 24 Truncated".as_slice()
    );
    Ok(())
}

#[test]
fn printed_overflow(rt: HostRuntime) -> Result<(), Fail> {
    let over = Overflow {
        kind: OverKind::Combine,
        step: 2,
        left: RowBuf::new(rt.alloc(), &[1, -K, 0])?,
        right: RowBuf::new(rt.alloc(), &[0, 0, 1])?,
        column: 1,
    };
    let expected =
        b"overflow combine step 2 column 2 left 1 -170141183460469231731687303715884105727 0 right 0 0 1";
    assert_eq!(rt;
        print_overflow(rt.alloc(), &over)?.bytes(),
        expected.as_slice()
    );
    Ok(())
}
