//! Short runs of each desk.
use desk_io::{Desk, DeskStop, Failed, MemDesk, RealDesk, SureDesk};
use std::fs;
use std::test::Fail;

#[test]
fn an_input_is_taken_in_pieces_to_its_end(rt: HostRuntime) -> Result<(), Fail> {
    let mut desk = MemDesk::new(rt.alloc());
    desk.add_input("model", b"abcd")?;
    let mut buf = [0u8; 3];
    assert_eq!(rt; desk.take("model", &mut buf), Ok(3));
    assert_eq!(rt; desk.take("model", &mut buf), Ok(1));
    assert_eq!(rt; buf.as_slice(), b"dbc".as_slice());
    assert_eq!(rt; desk.take("model", &mut buf), Ok(0));
    assert_eq!(rt; desk.take("proof", &mut buf), Err(Failed));
    Ok(())
}

#[test]
fn outputs_and_the_report_grow(rt: HostRuntime) -> Result<(), Fail> {
    let mut desk = MemDesk::new(rt.alloc());
    desk.fail_call(4)?;
    desk.put("proof", b"one")?;
    desk.put("proof", b"two")?;
    desk.say(b"yes")?;
    assert_eq!(rt; desk.say(b"no"), Err(DeskStop::Failed));
    assert_eq!(rt; desk.written("proof"), b"onetwo".as_slice());
    assert_eq!(rt; desk.written("model"), b"".as_slice());
    assert_eq!(rt; desk.said(), b"yes".as_slice());
    assert_eq!(rt; desk.faults(), 1);
    Ok(())
}

#[test]
fn a_sure_desk_never_fails(rt: HostRuntime) -> Result<(), Fail> {
    let mut desk = SureDesk::new(rt.alloc());
    desk.add_input("model", b"ab")?;
    let mut buf = [0u8; 2];
    assert_eq!(rt; desk.take("missing", &mut buf), Ok(0));
    assert_eq!(rt; desk.take("model", &mut buf), Ok(2));
    desk.put("proof", b"one")?;
    desk.say(b"yes")?;
    assert_eq!(rt; desk.written("proof"), b"one".as_slice());
    assert_eq!(rt; desk.said(), b"yes".as_slice());
    Ok(())
}

#[test]
fn files_are_written_anew_and_read(rt: HostRuntime) -> Result<(), Fail> {
    fs::create_dir_all(&rt, "out")?;
    let mut older = RealDesk::new(&rt);
    older.put("out/first", b"a longer text of an older run")?;
    let mut desk = RealDesk::new(&rt);
    desk.put("out/first", b"one")?;
    desk.put("out/second", b"x")?;
    desk.put("out/first", b"two")?;
    let mut buf = [0u8; 4];
    assert_eq!(rt; desk.take("out/first", &mut buf), Ok(4));
    assert_eq!(rt; buf.as_slice(), b"onet".as_slice());
    assert_eq!(rt; desk.take("out/second", &mut buf), Ok(1));
    assert_eq!(rt; desk.take("out/first", &mut buf), Ok(2));
    assert_eq!(rt; buf.as_slice(), b"woet".as_slice());
    assert_eq!(rt; desk.take("out/first", &mut buf), Ok(0));
    assert_eq!(rt; desk.take("out/missing", &mut buf), Err(Failed));
    Ok(())
}
