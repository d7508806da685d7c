//! What an encoded canonical system stands for.
ghost use Rattle.std.specs.Prelude.{◌≡◌, ◌<◌, IfOk};
ghost use Rattle.nnc_enc.specs.EncodedGenerators.{HasPoint};
ghost use Rattle.nnc_enc.specs.Results.{AreRowLists};

use chernikova::{Cone, convert};
use cons_sys::ConKind;
use gens_sys::{GenKind, GensSys};
use nnc_enc::conditions::generators_have_rows;
use nnc_enc::{decode_cons, encode_gens};
use row_core::{ConvErr, Steps};
use std::alloc::Global;
use std::marker::Brand;
use std::process::Abort;
use std::sync::ledger::{Blank, Ledger};
use std::test::Fail;

// c(0), r(A), r(B), p(A + 2*B), p(2*A + B)
fn open_quadrant(alloc: Global) -> Result<GensSys, Fail>
    ensures { IfOk result (λ gens. HasPoint gens.list) }
{
    let mut gens = GensSys::new(alloc, 2);
    gens.push(&[0, 0, 1], GenKind::ClosurePoint)?;
    gens.push(&[1, 0, 0], GenKind::Ray)?;
    gens.push(&[0, 1, 0], GenKind::Ray)?;
    gens.push(&[1, 2, 1], GenKind::Point)?;
    gens.push(&[2, 1, 1], GenKind::Point)?;
    Ok(gens)
}

// The canonical system of the rows that are valid on what the generators span.
fn valid_rows<L: Ledger>(
    alloc: Global,
    gens: &GensSys,
    steps: &mut Steps<L>,
) -> Result<Cone, ConvErr>
    requires { HasPoint gens.now.list }
    ensures { IfOk result (λ cone. AreRowLists cone.lines cone.rays) }
{
    generators_have_rows();
    let _dim = gens.dim();
    let list = encode_gens(alloc, gens)?;
    let width = list.width();
    convert(alloc, width, &list, steps)
}

fn check_decoded<L: Ledger>(rt: &impl Abort, alloc: Global, blank: Blank) -> Result<(), Fail>
    requires name { blank.name ≡ L.name }
    requires parts { blank.parts ≡ L.parts }
    requires shared { 0 < blank.parts }
{
    let mut steps = Steps::<L>::new(blank);
    let gens = open_quadrant(alloc)?;
    let cone = valid_rows(alloc, &gens, &mut steps)?;
    let cons = decode_cons(alloc, &cone.lines, &cone.rays)?;
    assert_eq!(rt; cons.len(), 3);
    assert_eq!(rt; cons.row(0), [1, 1, 0].as_slice());
    assert_eq!(rt; cons.row(1), [1, 0, 0].as_slice());
    assert_eq!(rt; cons.row(2), [0, 1, 0].as_slice());
    assert_eq!(rt;
        [cons.kind(0), cons.kind(1), cons.kind(2)],
        [ConKind::Gt, ConKind::Gt, ConKind::Gt]
    );
    Ok(())
}

// A + B > 0 is among them, though it can be left out.
#[test]
fn constraints_are_decoded(rt: HostRuntime) -> Result<(), Fail> {
    check_decoded::<Brand>(&rt, rt.alloc(), Blank::new(1))
}
