//! Runs of the program over desks in memory.
use crate::model_texts::{
    EMPTY, EVEN_SUM, EVEN_SUM_FAR, FAR_COINS, HALVES, HEAVY, LARGE_COINS, PARITY_LINES,
    PARITY_PAIR, PRICED, RANGED, SKEW_STRIP, SPLIT_FIXED, SPLIT_FREE, THIN_TRIANGLE, TWO_COINS,
    TWO_COINS_AGAIN, TWO_COINS_UNREACHABLE, TWO_CONSTRAINTS,
};
use desk_io::{MemDesk, SureDesk};
use solve_cli::run;
use std::alloc::{AllocError, Global};
use std::test::Fail;

/// Words, the text of MODEL, the exit code, and what the report begins with.
type Case<'a> = (&'a str, &'a str, u8, &'a str);

// The root of TWO_COINS is split into one slice, on which its frame has one point. Each direction of THIN_TRIANGLE is wider
// than a slice. The kernel vector of FAR_COINS has no square of 128 bits, so its root is split by single columns.
const MODELS: &[Case<'static>] = &[
    (
        "solve m p",
        EMPTY,
        0,
        "OPTIMAL\nVALUE 0\nNODES 1\nPLAIN 0\n",
    ),
    (
        "solve m p",
        TWO_COINS,
        0,
        "OPTIMAL\nVALUE 0\nPOINT 1 x\nPOINT 1 y\nNODES 2\nPLAIN 0\n",
    ),
    (
        "solve m p",
        TWO_COINS_AGAIN,
        0,
        "OPTIMAL\nVALUE 0\nPOINT 1 x\nPOINT 1 y\n",
    ),
    (
        "solve m p",
        TWO_COINS_UNREACHABLE,
        1,
        "INFEASIBLE\nNODES 1\nPLAIN 0\n",
    ),
    ("solve m p", EVEN_SUM, 1, "INFEASIBLE\nNODES 1\nPLAIN 0\n"),
    (
        "solve m p",
        PARITY_PAIR,
        1,
        "INFEASIBLE\nNODES 1\nPLAIN 0\n",
    ),
    ("solve m p", PARITY_LINES, 1, "INFEASIBLE\n"),
    ("solve m p", EVEN_SUM_FAR, 1, "INFEASIBLE\n"),
    (
        "solve m p",
        TWO_CONSTRAINTS,
        0,
        "OPTIMAL\nVALUE -20\nPOINT 4 x\nPOINT 0 y\n",
    ),
    (
        "solve --nodes 1 m p",
        LARGE_COINS,
        1,
        "INFEASIBLE\nNODES 1\nPLAIN 0\n",
    ),
    (
        "solve --nodes 1 m p",
        SKEW_STRIP,
        1,
        "INFEASIBLE\nNODES 1\nPLAIN 0\n",
    ),
    (
        "solve --nodes 1 m p",
        THIN_TRIANGLE,
        2,
        "SPENT\nNODES 1\nPLAIN 0\n",
    ),
    ("solve m p", THIN_TRIANGLE, 1, "INFEASIBLE\n"),
    ("solve m p", RANGED, 0, "OPTIMAL\nVALUE 2\nPOINT 2 x\n"),
    ("solve m p", HEAVY, 0, "OPTIMAL\nVALUE 0\nPOINT 0 x\n"),
    ("solve m p", SPLIT_FREE, 1, "INFEASIBLE\nNODES 1\nPLAIN 0\n"),
    (
        "solve m p",
        SPLIT_FIXED,
        1,
        "INFEASIBLE\nNODES 1\nPLAIN 0\n",
    ),
    ("solve m p", HALVES, 0, "OPTIMAL\nVALUE -3/2\nPOINT 3 x\n"),
    (
        "solve m p",
        FAR_COINS,
        0,
        "OPTIMAL\nVALUE 0\nPOINT 0 x\nPOINT 1 y\n",
    ),
    (
        "solve --nodes 3 m p",
        FAR_COINS,
        2,
        "SPENT\nNODES 3\nPLAIN 2\n",
    ),
    ("solve --fixed m p", SPLIT_FIXED, 1, "INFEASIBLE\n"),
    (
        "solve --upper 9 --fixed m p",
        SPLIT_FIXED,
        1,
        "INFEASIBLE\n",
    ),
    ("solve --fixed m p", TWO_COINS, 4, "TEXT Byte 3\n"),
    ("solve m p", PRICED, 4, "TEXT NoUpper 6\n"),
    (
        "solve --upper 9 m p",
        PRICED,
        0,
        "OPTIMAL\nVALUE 0\nPOINT 0 x\n",
    ),
    ("solve other p", TWO_COINS, 6, "READFAULT\n"),
];

/// A kind of fault each; the tables here have the others.
const FAULTS: &[Case<'static>] = &[
    ("solve m p", "ROWS\n X r\n", 4, "TEXT RowKind 2\n"),
    (
        "solve m p",
        "ROWS\n E r\nCOLUMNS\n x s 3e\n",
        4,
        "TEXT UnknownRow 4\n",
    ),
    (
        "solve m p",
        "ROWS\n E r\nCOLUMNS\n M 'MARKER' 'INTEND'\n",
        4,
        "TEXT Marker 4\n",
    ),
    (
        "solve m p",
        "ROWS\n E r\nCOLUMNS\n x r 1\nBOUNDS\n UP y 1\n",
        4,
        "TEXT UnknownColumn 6\n",
    ),
    (
        "solve m p",
        "ROWS\n E r\nCOLUMNS\n x r 1\nBOUNDS\n XX x 1\n",
        4,
        "TEXT BoundKind 6\n",
    ),
    (
        "solve m p",
        "ROWS\n E r\n E s\nCOLUMNS\n x r 1\nRHS\n A r 1\n s 1\n",
        4,
        "TEXT SecondSet 8\n",
    ),
    (
        "solve m p",
        "ROWS\n N c\nCOLUMNS\n x c 1\nRANGES\n c 1\n",
        4,
        "TEXT RangeOnObjective 6\n",
    ),
    (
        "solve m p",
        "ROWS\n E r\nCOLUMNS\n x r 1\nENDATA\n",
        4,
        "TEXT Continuous 4\n",
    ),
];

fn words(alloc: Global, text: &str) -> Result<Vec<String>, AllocError> {
    let mut words = Vec::new(alloc);
    for word in text.split_whitespace() {
        words.push(String::from_str(alloc, word)?)?;
    }
    Ok(words)
}

// What a run says of a model and a proof where the call of this number fails (none where it is 0), and how it ends.
fn says(
    alloc: Global,
    line: &str,
    model: &str,
    proof: &str,
    failing: u64,
) -> Result<(u8, Vec<u8>), Fail> {
    let mut desk = MemDesk::new(alloc);
    desk.add_input("m", model.as_bytes())?;
    desk.add_input("p", proof.as_bytes())?;
    desk.fail_call(failing)?;
    let status = run(alloc, &words(alloc, line)?, &mut desk);
    Ok((status.code(), desk.said().to_vec(alloc)?))
}

#[test]
fn models_are_answered_and_reported(rt: HostRuntime) -> Result<(), Fail> {
    for cases in [MODELS, FAULTS] {
        for (line, text, code, report) in cases {
            let (ended, said) = says(rt.alloc(), line, text, "", 0)?;
            assert_eq!(rt; ended, *code, "of {line} on {text}");
            assert!(rt; said.starts_with(report.as_bytes()), "to {line} on {text}");
        }
    }
    Ok(())
}

/// A text, a part of it, what stands there instead, and what the report begins with.
type Change<'a> = (&'a str, &'a str, &'a str, &'a str);

// 79228162514264337593543950336 is 2^96.
const CHANGES: &[Change<'static>] = &[
    (
        PRICED,
        "ENDATA",
        "BOUNDS\n UP x -1\nENDATA",
        "TEXT NegativeUpper 6\n",
    ),
    (
        PRICED,
        "ENDATA",
        "BOUNDS\n MI x\n UP x -1\nENDATA",
        "TEXT NoLower 6\n",
    ),
    (
        PRICED,
        "ENDATA",
        "BOUNDS\n LO x -4\n UP x -1\nENDATA",
        "OPTIMAL\nVALUE -4\nPOINT -4 x\n",
    ),
    (
        PRICED,
        " x c 1\n M2 'MARKER' 'INTEND'\n",
        " x c 0.5\n M2 'MARKER' 'INTEND'\nRHS\n c 3\nBOUNDS\n LI x 3\n UI x 9\n",
        "OPTIMAL\nVALUE -3/2\nPOINT 3 x\n",
    ),
    (PRICED, " x c 1", " x c 1e39", "TEXT WideNumber 6\n"),
    (PRICED, " x c 1", " x c 0e999", "TEXT NoUpper 6\n"),
    (
        PRICED,
        "ENDATA",
        "BOUNDS\n UI x 79228162514264337593543950337\nENDATA",
        "LIMIT COLUMN x\n",
    ),
    (
        PRICED,
        "ENDATA",
        "RHS\n c 79228162514264337593543950337\nBOUNDS\n BV x\nENDATA",
        "LIMIT OBJECTIVE\n",
    ),
    (HEAVY, "950335", "950336", "LIMIT ROW r\n"),
    (
        HEAVY,
        "79228162514264337593543950335\nBOUNDS\n BV x",
        "0\nBOUNDS\n UI x 79228162514264337593543950336",
        "OPTIMAL\nVALUE 0\nPOINT 0 x\n",
    ),
    (RANGED, " r -3", " r 3", "OPTIMAL\nVALUE 5\nPOINT 5 x\n"),
    (RANGED, " r -3", " r 0", "OPTIMAL\nVALUE 5\nPOINT 5 x\n"),
    (
        TWO_COINS,
        " r 3\n y r 5\nRHS\n r 8\nBOUNDS\n UI x 10\n UI y 10\nENDATA\n",
        " r",
        "TEXT FieldCount 6\n",
    ),
    (TWO_COINS, " x r 3", " x r 3e", "TEXT NotNumber 6\n"),
    (TWO_COINS, "ENDATA\n", "", "TEXT NoEnd 12\n"),
    (TWO_COINS, TWO_COINS, "", "TEXT NoEnd 0\n"),
    (TWO_COINS, " x r 3", " x r 3\n x r 3", "TEXT Duplicate 7\n"),
    (TWO_COINS, "ROWS", "OBJSENSE\nROWS", "TEXT Section 2\n"),
    (SPLIT_FIXED, " E  R1", " E\t R1", "INFEASIBLE\n"),
    (
        SPLIT_FIXED,
        "    X1        R1",
        "    X 1       R1        1\r\n    X1        R1",
        "TEXT FieldCount 8\n",
    ),
];

#[test]
fn changed_texts_are_judged(rt: HostRuntime) -> Result<(), Fail> {
    for (text, old, new, report) in CHANGES {
        let text = text.replace(rt.alloc(), old, new)?;
        let (_, said) = says(rt.alloc(), "solve m p", &text, "", 0)?;
        assert!(rt; said.starts_with(report.as_bytes()), "to {text}");
    }
    Ok(())
}

const NO_COMMANDS: &[&str] = &[
    "",
    "solve m",
    "solve m m",
    "solve -m p",
    "solve m p q",
    "solve --upper m p",
    "solve --upper 01 m p",
    "solve --upper 1.0 m p",
    "solve --upper 4611686018427387905 m p",
    "solve --upper 1 --upper 1 m p",
    "solve m --fixed p",
    "solve --nodes 0 m p",
    "solve --nodes 01 m p",
    "solve --nodes 1001 m p",
    "solve --lanes 1 m p",
    "market 0 3 1 m p",
    "market 11 3 1 m p",
    "market 2 101 1 m p",
    "market 2 3 2147483647 m p",
    "market 2 03 1 m p",
    "market 2 3 1 m m",
    "market 2 3 m p",
    "market --fixed 2 3 1 m p",
];

#[test]
fn other_words_are_refused(rt: HostRuntime) -> Result<(), Fail> {
    for line in NO_COMMANDS {
        let (code, said) = says(rt.alloc(), line, TWO_COINS, "", 0)?;
        assert_eq!(rt; code, 3, "of {line}");
        assert_eq!(rt; said.as_slice(), b"WORDS\n".as_slice(), "to {line}");
    }
    Ok(())
}

#[test]
fn proofs_are_put(rt: HostRuntime) -> Result<(), Fail> {
    let alloc = rt.alloc();
    // By hand: the cut alone refutes a model without columns; and the ends of a split on a column are refuted by its bounds.
    for (line, text, proof) in [
        ("solve m p", EMPTY, "SLICER 1\nOPTIMAL\nE Z0:1\nDONE\n"),
        (
            "solve --nodes 1 m p",
            FAR_COINS,
            "SLICER 1\nOPEN\nS P 0 2 0:1\nB 3:1 6:1\nA 2:1 6:1\nO 2\nSPENT\n",
        ),
    ] {
        let mut desk = SureDesk::new(alloc);
        desk.add_input("m", text.as_bytes())?;
        run(alloc, &words(alloc, line)?, &mut desk);
        assert_eq!(rt; desk.written("p"), proof.as_bytes(), "to {line}");
    }
    Ok(())
}

#[test]
fn only_far_coins_have_a_plain_split(rt: HostRuntime) -> Result<(), Fail> {
    for (model, code, is_plain) in [
        (TWO_CONSTRAINTS, 0, false),
        (THIN_TRIANGLE, 1, false),
        (FAR_COINS, 0, true),
    ] {
        let (ended, said) = says(rt.alloc(), "solve m p", model, "", 0)?;
        assert_eq!(rt; ended, code, "of {model}");
        let has_none = said.ends_with(b"\nPLAIN 0\n");
        assert_eq!(rt; has_none, !is_plain, "of {model}");
    }
    Ok(())
}

// So many rows with the side 1, and so many columns, each with a factor in one row.
fn grid(alloc: Global, rows: u32, columns: u32) -> Result<String, AllocError> {
    let mut text = String::from_str(alloc, "ROWS\n")?;
    let mut sides = String::from_str(alloc, "RHS\n")?;
    for row in 0..rows {
        text.push_str(format!(in alloc; " G r{row}\n")?.as_str())?;
        sides.push_str(format!(in alloc; " r{row} 1\n")?.as_str())?;
    }
    text.push_str("COLUMNS\n")?;
    sides.push_str("BOUNDS\n")?;
    for column in 0..columns {
        let row = if column < rows { column } else { 0 };
        text.push_str(format!(in alloc; " x{column} r{row} 1\n")?.as_str())?;
        sides.push_str(format!(in alloc; " BV x{column}\n")?.as_str())?;
    }
    text.push_str(&sides)?;
    text.push_str("ENDATA\n")?;
    Ok(text)
}

#[test]
fn rows_and_columns_are_limited(rt: HostRuntime) -> Result<(), Fail> {
    for (rows, columns, code, first, last) in [
        (
            256,
            256,
            0,
            "OPTIMAL\nVALUE 0\nPOINT 1 x0\n",
            "\nPOINT 1 x255\nNODES 1\nPLAIN 0\n",
        ),
        (257, 1, 4, "TEXT TooManyRows 258\n", ""),
        (1, 257, 4, "TEXT TooManyColumns 260\n", ""),
    ] {
        let text = grid(rt.alloc(), rows, columns)?;
        let (ended, said) = says(rt.alloc(), "solve m p", &text, "", 0)?;
        assert_eq!(rt; ended, code, "at {rows} rows and {columns} columns");
        assert!(rt;
            said.starts_with(first.as_bytes()),
            "at {rows} rows and {columns} columns"
        );
        assert!(rt;
            said.ends_with(last.as_bytes()),
            "at {rows} rows and {columns} columns"
        );
    }
    Ok(())
}

#[test]
fn texts_and_lines_are_limited(rt: HostRuntime) -> Result<(), Fail> {
    let alloc = rt.alloc();
    for (stars, code, report) in [
        (1_024, 4, "TEXT NoEnd 1\n"),
        (16_777_216, 4, "TEXT LongLine 1\n"),
        (16_777_217, 5, "LIMIT MODEL\n"),
    ] {
        let mut desk = MemDesk::new(alloc);
        desk.add_input("m", &vec![in alloc; b'*'; stars]?)?;
        let status = run(alloc, &words(alloc, "solve m p")?, &mut desk);
        assert_eq!(rt; status.code(), code, "with {stars} bytes");
        assert_eq!(rt; desk.said(), report.as_bytes(), "with {stars} bytes");
    }
    Ok(())
}

/// Words, the text of MODEL, the number of the call that fails, the exit code and the report.
type Failure<'a> = (&'a str, &'a str, u64, u8, &'a str);

// A text of this size is taken in one call, and the next call finds its end. Then solve puts the proof: its head, its nodes
// and its last line. The last call says the report.
const FAILURES: &[Failure<'static>] = &[
    ("solve m p", TWO_COINS, 1, 6, "READFAULT\n"),
    ("solve m p", TWO_COINS, 2, 6, "READFAULT\n"),
    ("solve m p", TWO_COINS, 3, 7, ""),
    ("solve m p", TWO_COINS, 7, 7, ""),
    ("check m p", TWO_COINS, 2, 6, "READFAULT\n"),
    ("check m p", TWO_COINS, 4, 6, "READFAULT\n"),
    ("check m p", TWO_COINS, 5, 7, ""),
    ("check m p", PRICED, 4, 4, "TEXT NoUpper 6\n"),
    ("market 2 3 1 m p", "", 1, 7, ""),
    ("market 2 3 1 m p", "", 5, 7, ""),
];

#[test]
fn faults_are_answered(rt: HostRuntime) -> Result<(), Fail> {
    for (line, model, call, code, report) in FAILURES {
        let (ended, said) = says(rt.alloc(), line, model, "SLICER 1\n", *call)?;
        assert_eq!(rt; ended, *code, "of {line} where call {call} fails");
        assert_eq!(rt;
            said.as_slice(),
            report.as_bytes(),
            "of {line} where call {call} fails"
        );
    }
    Ok(())
}

const WORKED_PROOF: &str =
    "SLICER 1\nOPTIMAL 4 0\nS T 2 0 1:1\nB Z-20:3 0:5 8:2\nA Z-20:1 2:5 8:6\nDONE\n";

/// Two constraints' proof, changed.
const PROOFS: &[(&str, &str, u8, &str)] = &[
    ("DONE", "DONE", 0, "ACCEPTED OPTIMAL\nVALUE -20\n"),
    ("0:5", "0:6", 9, "REJECTED Refute 4\n"),
    ("0:5", "0:05", 9, "REJECTED Number 4\n"),
    ("0:5", "0:0", 9, "REJECTED Number 4\n"),
    ("Z-20:3", "Z-21:3", 9, "REJECTED Cut 4\n"),
    ("4 0\n", "3 1\n", 9, "REJECTED Cut 4\n"),
    ("OPTIMAL 4 0", "INFEASIBLE", 9, "REJECTED Cut 4\n"),
    ("4 0\n", "4 1\n", 9, "REJECTED Point 2\n"),
    ("4 0\n", "+4 0\n", 9, "REJECTED Claim 2\n"),
    ("2 0 1", "2 1 1", 9, "REJECTED Record 6\n"),
    ("A Z-20:1 2:5 8:6\n", "", 9, "REJECTED Record 5\n"),
    ("DONE\n", "", 9, "REJECTED Short 6\n"),
    ("DONE\n", "DONE\n\n", 9, "REJECTED Tail 7\n"),
];

#[test]
fn proofs_are_checked(rt: HostRuntime) -> Result<(), Fail> {
    for (old, new, code, report) in PROOFS {
        let proof = WORKED_PROOF.replace(rt.alloc(), old, new)?;
        let (ended, said) = says(rt.alloc(), "check m p", TWO_CONSTRAINTS, &proof, 0)?;
        assert_eq!(rt; ended, *code, "of {proof}");
        assert_eq!(rt; said.as_slice(), report.as_bytes(), "to {proof}");
    }
    Ok(())
}

#[test]
fn a_market_is_put_and_solved(rt: HostRuntime) -> Result<(), Fail> {
    let alloc = rt.alloc();
    let mut desk = MemDesk::new(alloc);
    let status = run(alloc, &words(alloc, "market 2 3 1 m p")?, &mut desk);
    assert_eq!(rt; status.code(), 1);
    assert_eq!(rt; desk.written("m"), SPLIT_FREE.as_bytes());
    assert_eq!(rt;
        desk.said(),
        b"MARKET 2 3 1\nINFEASIBLE\nNODES 1\nPLAIN 0\n".as_slice()
    );
    Ok(())
}

#[test]
fn the_proof_of_a_market_is_accepted(rt: HostRuntime) -> Result<(), Fail> {
    let alloc = rt.alloc();
    let mut desk = MemDesk::new(alloc);
    run(alloc, &words(alloc, "market 2 7 1 m p")?, &mut desk);
    assert!(rt; desk.said().starts_with(b"MARKET 2 7 1\n"));
    assert!(rt; desk.said().ends_with(b"\nPLAIN 0\n"));
    // At most two slices for each split in five dimensions: 63 nodes decide it.
    for (line, code) in [("check m p", 0), ("solve --nodes 63 m q", 1)] {
        let mut other = MemDesk::new(alloc);
        other.add_input("m", desk.written("m"))?;
        other.add_input("p", desk.written("p"))?;
        let status = run(alloc, &words(alloc, line)?, &mut other);
        assert_eq!(rt; status.code(), code, "of {line}");
    }
    Ok(())
}
