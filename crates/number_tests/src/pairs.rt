use spaces::{Form, Kernel, WideEntry};
use std::test::Fail;
use unimodular_pair::Pair;

#[test]
fn a_pair_is_combined(rt: HostRuntime) -> Result<(), Fail> {
    let mut pair = Pair::identity(rt.alloc(), 2)?;
    assert_eq!(rt; pair.combine(1, 0, 5), Ok(()));
    assert_eq!(rt; pair.u().row(1), [5, 1].as_slice());
    assert_eq!(rt; pair.v().row(1), [-5, 1].as_slice());
    assert_eq!(rt; pair.combine(0, 1, i128::MAX), Err(WideEntry));
    assert_eq!(rt; pair.u().row(0), [1, 0].as_slice());
    Ok(())
}

#[test]
fn a_form_is_completed(rt: HostRuntime) -> Result<(), Fail> {
    let form = Form::<Kernel>::of(vec![in rt.alloc(); 6, 10, 15]?);
    let pair = Pair::complete(rt.alloc(), &form)?;
    assert_eq!(rt; pair.u().rows(), 3);
    assert_eq!(rt; pair.u().row(0), [6, 10, 15].as_slice());
    Ok(())
}
