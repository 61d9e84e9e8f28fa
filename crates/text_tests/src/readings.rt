//! A model that is read in fixed form, and a fault. Free form is read in the tests of integer rows and canonical texts; what
//! small texts mean is worked in `examples` of `mps_model`.
use int_model::Model;
use mps_model::{FaultKind, Layout, ReadStop, TextFault, read};
use std::alloc::Global;
use std::test::Fail;

/// x/2 - 3 is to be least, where 2x - y is 8, x from 0 to 9 and y from -4 to 1.
const FIXED: &[u8] =
    b"ROWS\r\n N  c\r\n E  r\r\nCOLUMNS\r\n    x         c         .5             r         2\r\n    y         r         -1\r\nRHS\r\n    S         c         3              r         8\r\nBOUNDS\r\n UI B         x         9\r\n LI B         y         -4\r\n UI B         y         1\r\nENDATA\r\n";

// What a short text means, where no bound is handed in.
fn meaning_of(alloc: Global, layout: Layout, text: &[u8]) -> Option<Result<Model, ReadStop>> {
    if text.len() > 1000 {
        return None;
    }
    Some(read(alloc, layout, None, text))
}

#[test]
fn a_model_is_read_in_fixed_form(rt: HostRuntime) -> Result<(), Fail> {
    let model = meaning_of(rt.alloc(), Layout::Fixed, FIXED).ok_or("a long text")??;
    let columns = model.columns.items();
    assert_eq!(rt; columns.len(), 2);
    assert_eq!(rt; columns[1].name.items(), b"y".as_slice());
    assert_eq!(rt; columns[1].lo.num(), -4);
    assert_eq!(rt; columns[0].hi.num(), 9);
    let rows = model.rows.items();
    assert_eq!(rt; rows.len(), 1);
    let items = rows[0].items.items();
    assert_eq!(rt; items.len(), 2);
    assert_eq!(rt; items[1].column, 1);
    assert_eq!(rt; items[1].factor.num(), -1);
    let costs = model.objective.items();
    assert_eq!(rt; costs.len(), 1);
    assert_eq!(rt; costs[0].factor.den(), 2);
    assert_eq!(rt; model.constant.num(), -3);
    Ok(())
}

#[test]
fn a_fault_is_found(rt: HostRuntime) {
    let fault = TextFault {
        kind: FaultKind::Duplicate,
        line: 3,
    };
    assert!(rt;
        matches!(
        meaning_of(rt.alloc(), Layout::Free, b"ROWS\n E r\n L r"),
        Some(Err(ReadStop::Fault(found))) if found == fault
    )
    );
}
