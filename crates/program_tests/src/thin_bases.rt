//! Small systems, with answers found by hand.
use crate::systems::system_of;
use generalised_reduce::{ThinBasis, thin};
use std::test::Fail;

#[test]
fn a_skew_strip_is_thin_across(rt: HostRuntime) -> Result<(), Fail> {
    // 301 <= 1001x - 1000y <= 699, and both from 0 to 300
    let items = [1001, -1000, -1001, 1000, 1, 0, -1, 0, 0, 1, 0, -1];
    let system = system_of(rt.alloc(), 2, &items, &[699, -301, 300, 0, 300, 0])?;
    let ThinBasis {
        pair,
        gauges,
        moves,
    } = thin(rt.alloc(), &system, 2)?;
    let rows = pair.u();
    let first = rows.row(0);
    assert_eq!(rt; first[0].unsigned_abs(), 1);
    assert_eq!(rt; first[1], first[0].wrapping_neg());
    assert_eq!(rt; gauges.items()[0].value.num(), 697999);
    assert_eq!(rt; gauges.items()[0].value.den(), 1001000);
    assert!(rt; moves.items().len() > 0);
    Ok(())
}
