//! Canonical texts byte for byte, texts that are read again, and models that are not plain.
use int_model::Model;
use mps_model::{Layout, read};
use mps_write::{is_plain, market, write};
use std::alloc::Global;
use std::process::Abort;
use std::test::Fail;

// The most bytes that a text may have.
const MOST_BYTES: usize = 16_777_216;

// The model that a text in free form states.
fn stated(rt: &impl Abort, alloc: Global, text: &[u8]) -> Result<Model, Fail> {
    assert!(rt; text.len() <= MOST_BYTES);
    Ok(read(alloc, Layout::Free, None, text)?)
}

// Asserts that a plain model has this text.
fn expect_text(rt: &impl Abort, alloc: Global, model: &Model, text: &[u8]) -> Result<(), Fail> {
    assert!(rt; is_plain(model));
    assert_eq!(rt; write(alloc, model)?.items(), text);
    Ok(())
}

#[test]
fn market_of_two_rows(rt: HostRuntime) -> Result<(), Fail> {
    let text =
        b"NAME SLICER\nROWS\n N COST\n E R1\n E R2\nCOLUMNS\n X1 R1 71\n X1 R2 37\n X2 R1 94\n X2 R2 41\n X3 R1 86\n X3 R2 83\nRHS\n R1 125\n R2 80\nBOUNDS\n LI X1 0\n UI X1 1\n LI X2 0\n UI X2 1\n LI X3 0\n UI X3 1\nENDATA\n".as_slice();
    let model = market(rt.alloc(), 2, 3, 1)?;
    expect_text(&rt, rt.alloc(), &model, text)?;
    expect_text(&rt, rt.alloc(), &stated(&rt, rt.alloc(), text)?, text)
}

// Each kind of row, a range, a constant, a column without a factor, bounds that cross and numbers below 0.
#[test]
fn each_section(rt: HostRuntime) -> Result<(), Fail> {
    let given =
        b"ROWS\n N c\n L l\n G g\n E e\n G r\nCOLUMNS\n x c 1 l -2\n x r 3\n y g 4\n z e 0\nRHS\n c 5 l -6\n r 7\nRANGES\n r 8\nBOUNDS\n LI x -9\n UI x 10\n BV y\n FX z 3\n UI z 2\nENDATA\n".as_slice();
    let text =
        b"NAME SLICER\nROWS\n N COST\n L l\n G g\n E e\n G r\nCOLUMNS\n x COST 1\n x l -2\n x r 3\n y g 4\n z COST 0\nRHS\n COST 5\n l -6\n r 7\nRANGES\n r 8\nBOUNDS\n LI x -9\n UI x 10\n LI y 0\n UI y 1\n LI z 3\n UI z 2\nENDATA\n".as_slice();
    expect_text(&rt, rt.alloc(), &stated(&rt, rt.alloc(), given)?, text)?;
    expect_text(&rt, rt.alloc(), &stated(&rt, rt.alloc(), text)?, text)
}

// A fraction, the name of the objective on a row, and the word of a marker line on one.
#[test]
fn not_plain(rt: HostRuntime) -> Result<(), Fail> {
    for text in [
        b"ROWS\n E r\nCOLUMNS\n x r 0.5\nBOUNDS\n BV x\nENDATA\n".as_slice(),
        b"ROWS\n E COST\nCOLUMNS\n x COST 1\nBOUNDS\n BV x\nENDATA\n".as_slice(),
        b"ROWS\n E 'MARKER'\n E r\nCOLUMNS\n x r 1\nBOUNDS\n BV x\nENDATA\n".as_slice(),
    ] {
        assert!(rt; !is_plain(&stated(&rt, rt.alloc(), text)?), "{text:?}");
    }
    Ok(())
}
