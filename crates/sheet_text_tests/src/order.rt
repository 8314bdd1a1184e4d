// Texts at fault in several questions, and tables too short: which question is answered no first.
use crate::cases::{PLACES, check_reading};
use sheet_text::Question::{FieldCount, Letter, Number, Quoting, Room};
use sheet_text::{Question, Refusal};
use std::process::Abort;
use std::test::Fail;

// A name, a text, the places of the table, the question that is answered no, its row.
type Case = (&'static str, &'static [u8], usize, Question, usize);

const SEVERAL: [Case; 14] = [
    (
        "quoting in the last row, everything else before it",
        b"T,1,2,3,4\r\nt,1,2,3,4,5\r\nT,x,2,3,4,5\r\nT,1,2,3,4,5\"\r\n",
        0,
        Quoting,
        4,
    ),
    (
        "quoting in the rows 2 and 3",
        b"T,1,2,3,4,5\r\nT\",1\r\nT\",1\r\n",
        PLACES,
        Quoting,
        2,
    ),
    (
        "quoting after a field too many",
        b"t,1,2,3,4,x,6,7,\"",
        PLACES,
        Quoting,
        1,
    ),
    (
        "field count in row 3, letter in row 1",
        b"t,1,2,3,4,5\r\nT,1,2,3,4,5\r\nT,1,2,3,4\r\n",
        PLACES,
        FieldCount,
        3,
    ),
    (
        "field count in row 2, number in row 1",
        b"T,x,2,3,4,5\r\nT\r\n",
        PLACES,
        FieldCount,
        2,
    ),
    (
        "field count in the rows 1 and 2",
        b"T,1,2\r\nT,1,2,3,4,5,6,7\r\n",
        PLACES,
        FieldCount,
        1,
    ),
    (
        "field count, letter and number in one row",
        b"t,x",
        PLACES,
        FieldCount,
        1,
    ),
    (
        "letter in row 3, number in the rows 1 and 2",
        b"T,x,2,3,4,5\r\nT,1,2,3,4,x\r\ne,1,2,3,4,5",
        PLACES,
        Letter,
        3,
    ),
    (
        "letter in the rows 2 and 3",
        b"T,1,2,3,4,5\r\ns,1,2,3,4,5\r\nn,1,2,3,4,5",
        PLACES,
        Letter,
        2,
    ),
    (
        "letter and number in one row",
        b"x,x,x,x,x,x\r\n",
        PLACES,
        Letter,
        1,
    ),
    (
        "number in the rows 2 and 3",
        b"T,1,2,3,4,5\r\nT,1,2,x,4,5\r\nT,x,2,3,4,5\r\n",
        PLACES,
        Number,
        2,
    ),
    (
        "number in row 3, room for one",
        b"T,1,2,3,4,5\r\nT,1,2,3,4,5\r\nT,1,2,3,4,x",
        1,
        Number,
        3,
    ),
    (
        "letter in row 2, no room",
        b"T,1,2,3,4,5\r\nX,1,2,3,4,5\r\n",
        0,
        Letter,
        2,
    ),
    (
        "field count in row 2, room for one",
        b"T,1,2,3,4,5\r\n\r\n",
        1,
        FieldCount,
        2,
    ),
];

const TOO_SHORT: [Case; 5] = [
    ("no room for one row", b"T,1,2,3,4,5", 0, Room, 1),
    (
        "no room for two rows",
        b"T,1,2,3,4,5\r\nT,1,2,3,4,5\r\n",
        0,
        Room,
        1,
    ),
    (
        "one place too few for two rows",
        b"T,1,2,3,4,5\r\nT,1,2,3,4,5\r\n",
        1,
        Room,
        2,
    ),
    (
        "one place too few for three rows",
        b"T,1,2,3,4,5\r\nS,1,2,3,4,5\r\nE,1,2,3,4,5",
        2,
        Room,
        3,
    ),
    (
        "two places too few for three rows",
        b"T,1,2,3,4,5\r\nS,1,2,3,4,5\r\nE,1,2,3,4,5",
        1,
        Room,
        2,
    ),
];

fn check_all(rt: &(impl Abort + AllocGlobal), cases: &[Case]) -> Result<(), Fail> {
    for &(name, text, room, question, row) in cases {
        let refusal = Err(Refusal { question, row });
        check_reading(rt, name, rt.alloc(), text, room, refusal, &[])?;
    }
    Ok(())
}

#[test]
fn several_questions(rt: HostRuntime) -> Result<(), Fail> {
    check_all(&rt, &SEVERAL)
}

#[test]
fn table_too_short(rt: HostRuntime) -> Result<(), Fail> {
    check_all(&rt, &TOO_SHORT)
}

// Tables that hold a text's rows with no place left.
#[test]
fn table_just_full(rt: HostRuntime) -> Result<(), Fail> {
    let heap = rt.alloc();
    check_reading(&rt, "no row", heap, b"", 0, Ok(0), &[])?;
    check_reading(
        &rt,
        "one row",
        heap,
        b"N,1,2,3,4,5",
        1,
        Ok(1),
        &[('N', [1, 2, 3, 4, 5])],
    )?;
    check_reading(
        &rt,
        "two rows",
        heap,
        b"S,1,2,3,4,5\r\nE,6,7,8,9,0\r\n",
        2,
        Ok(2),
        &[('S', [1, 2, 3, 4, 5]), ('E', [6, 7, 8, 9, 0])],
    )
}

// The numbers by which the questions are known.
#[test]
fn question_numbers(rt: HostRuntime) {
    assert_eq!(rt; Question::Length.number(), 10);
    assert_eq!(rt; Quoting.number(), 11);
    assert_eq!(rt; FieldCount.number(), 12);
    assert_eq!(rt; Letter.number(), 13);
    assert_eq!(rt; Number.number(), 14);
    assert_eq!(rt; Room.number(), 16);
}
