//! Worked values, by hand. More are worked in `examples` of `mps_fields`.
use mps_fields::{NumberFault, TextLine, fields_fixed, fields_free, lines, number};

fn terms(text: &[u8]) -> Result<(i128, i128), NumberFault> {
    let q = number(text)?;
    Ok((q.num(), q.den()))
}

#[test]
fn texts_are_numbers_or_none(rt: HostRuntime) {
    assert_eq!(rt; terms(b"-12.50"), Ok((-25, 2)));
    assert_eq!(rt; terms(b"15d-1"), Ok((3, 2)));
    assert_eq!(rt; terms(b"0e999999999999999999999"), Ok((0, 1)));
    assert_eq!(rt;
        terms(b"1701411834604692317316873037158841057.27e2"),
        Ok((i128::MAX, 1))
    );
    assert_eq!(rt; terms(b"2e38"), Err(NumberFault::WideNumber));
    assert_eq!(rt;
        terms(b"1e-99999999999999999999999999999999999999"),
        Err(NumberFault::WideNumber)
    );
    assert_eq!(rt; terms(b"1e5.0"), Err(NumberFault::NotNumber));
}

#[test]
fn lines_are_cut(rt: HostRuntime) {
    let mut found = lines(b"NAME x\r\n\r\n* \r");
    let name = found.next().expect(&rt, "a line");
    assert_eq!(rt; (name.bytes.len(), name.number), (6, 1));
    let empty = found.next().expect(&rt, "a line");
    assert_eq!(rt; (empty.bytes.len(), empty.number), (0, 2));
    let remark = found.next().expect(&rt, "a line");
    assert_eq!(rt; (remark.bytes.len(), remark.number), (2, 3));
    assert!(rt; found.next().is_none());
}

#[test]
fn fields_are_cut(rt: HostRuntime) {
    let free = fields_free(&TextLine {
        bytes: b" x1\t  r",
        number: 7,
    });
    assert_eq!(rt; free.count(), 2);
    let second = free.field(1);
    assert_eq!(rt; (second.text.len(), second.line, second.at), (1, 7, 6));
    let fixed = fields_fixed(&TextLine {
        bytes: b" UP B 1       x 1",
        number: 9,
    });
    let fixed = fixed.expect(&rt, "in its columns");
    let third = fixed.field(3).expect(&rt, "a field");
    assert_eq!(rt; (third.text.len(), third.line, third.at), (3, 9, 14));
    assert!(rt; fixed.field(4).is_none());
}
