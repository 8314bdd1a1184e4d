// Texts that are refused, by question.
use crate::cases::{PLACES, check_reading};
use sheet_text::{Question, Refusal};
use std::process::Abort;
use std::test::Fail;

// A name, a text, the row that is named.
type Case = (&'static str, &'static [u8], usize);

const QUOTING: [Case; 19] = [
    ("a quote inside a bare field", b"T,1\"2,3,4,5,6", 1),
    ("a quote at the end of a bare field", b"T\",1,2,3,4,5", 1),
    ("two quotes inside a bare field", b"T,1\"\"2,3,4,5,6", 1),
    (
        "a minus sign before the opening quote",
        b"T,-\"1\",2,3,4,5",
        1,
    ),
    ("a space before the opening quote", b"T, \"1\",2,3,4,5", 1),
    ("a byte after a closing quote", b"\"T\"x,1,2,3,4,5", 1),
    ("a space after a closing quote", b"\"T\" ,1,2,3,4,5", 1),
    ("a zero byte after a closing quote", b"\"T\"\0,1,2,3,4,5", 1),
    ("a lone CR after a closing quote", b"\"T\"\r,1,2,3,4,5", 1),
    (
        "a lone LF after a closing quote",
        b"T,1,2,3,4,\"5\"\nT,1,2,3,4,5",
        1,
    ),
    (
        "a closing quote, then CR at the end",
        b"T,1,2,3,4,\"5\"\r",
        1,
    ),
    (
        "a closing quote, then LF at the end",
        b"T,1,2,3,4,\"5\"\n",
        1,
    ),
    (
        "a closing quote, then CR CR LF",
        b"T,1,2,3,4,\"5\"\r\r\n",
        1,
    ),
    ("an open quote at the end", b"T,1,2,3,4,\"5", 1),
    (
        "an open quote, then two quotes at the end",
        b"T,1,2,3,4,\"5\"\"",
        1,
    ),
    ("one quote", b"\"", 1),
    (
        "an open quote takes in the rows after it",
        b"T,1,2,3,4,\"5\r\nT,1,2,3,4,5\r\n",
        1,
    ),
    ("one quote after a row", b"T,1,2,3,4,5\r\n\"", 2),
    (
        "a quoted CR LF is no end of a row",
        b"T,1,2,3,4,\"5\r\n\"\r\nT\",1,2,3,4,5\r\n",
        2,
    ),
];

const FIELD_COUNT: [Case; 18] = [
    ("a bare CR LF", b"\r\n", 1),
    ("two bare CR LF", b"\r\n\r\n", 1),
    (
        "a bare CR LF between rows",
        b"T,1,2,3,4,5\r\n\r\nT,1,2,3,4,5\r\n",
        2,
    ),
    ("a second CR LF at the end", b"T,1,2,3,4,5\r\n\r\n", 2),
    ("a quoted field of no bytes", b"\"\"", 1),
    ("one field", b"T", 1),
    ("a lone CR", b"\r", 1),
    ("a lone LF", b"\n", 1),
    ("five fields", b"T,1,2,3,4\r\n", 1),
    ("seven fields", b"T,1,2,3,4,5,6\r\n", 1),
    ("a trailing comma", b"T,1,2,3,4,5,\r\n", 1),
    ("a leading comma", b",T,1,2,3,4,5\r\n", 1),
    ("five fields of no bytes", b",,,,", 1),
    ("seven fields of no bytes", b",,,,,,", 1),
    ("a lone LF ends no row", b"T,1,2,3,4,5\nT,1,2,3,4,5\n", 1),
    ("a lone CR ends no row", b"T,1,2,3,4,5\rT,1,2,3,4,5\r", 1),
    ("a quoted comma ends no field", b"T,1,2,3,\"4,5\"\r\n", 1),
    (
        "twelve fields in the third row",
        b"T,1,2,3,4,5\r\nT,1,2,3,4,5\r\nT,1,2,3,4,5,T,1,2,3,4,5",
        3,
    ),
];

const LETTER: [Case; 22] = [
    ("a small letter", b"t,1,2,3,4,5", 1),
    ("another letter", b"A,1,2,3,4,5", 1),
    ("a letter next to N", b"O,1,2,3,4,5", 1),
    ("two letters", b"TS,1,2,3,4,5", 1),
    ("the same letter twice", b"TT,1,2,3,4,5", 1),
    ("no letter", b",1,2,3,4,5", 1),
    ("six fields of no bytes", b",,,,,", 1),
    ("a quoted field of no bytes", b"\"\",1,2,3,4,5", 1),
    ("a digit", b"0,1,2,3,4,5", 1),
    ("a space before the letter", b" T,1,2,3,4,5", 1),
    ("a space after the letter", b"T ,1,2,3,4,5", 1),
    ("a quoted small letter", b"\"e\",1,2,3,4,5", 1),
    ("doubled quotes alone", b"\"\"\"\",1,2,3,4,5", 1),
    (
        "doubled quotes around the letter",
        b"\"\"\"T\"\"\",1,2,3,4,5",
        1,
    ),
    ("doubled quotes after the letter", b"\"T\"\"\",1,2,3,4,5", 1),
    ("a lone CR after the letter", b"T\r,1,2,3,4,5", 1),
    (
        "a lone LF before the letter in the second row",
        b"T,1,2,3,4,5\r\n\nT,1,2,3,4,5\r\n",
        2,
    ),
    ("a quoted CR LF after the letter", b"\"T\r\n\",1,2,3,4,5", 1),
    ("a zero byte", b"\0,1,2,3,4,5", 1),
    ("byte 255", b"\xff,1,2,3,4,5", 1),
    ("T with its eighth bit set", b"\xd4,1,2,3,4,5", 1),
    (
        "a byte order mark before the letter",
        b"\xef\xbb\xbfT,1,2,3,4,5",
        1,
    ),
];

const NUMBER: [Case; 38] = [
    ("no bytes", b"T,,2,3,4,5", 1),
    ("no bytes between quotes", b"T,\"\",2,3,4,5", 1),
    ("five fields and a trailing comma", b"T,1,2,3,4,\r\n", 1),
    ("a minus sign alone", b"T,-,2,3,4,5", 1),
    ("a plus sign", b"T,+5,2,3,4,5", 1),
    ("two minus signs", b"T,--5,2,3,4,5", 1),
    ("a minus sign after the digits", b"T,5-,2,3,4,5", 1),
    ("a minus sign among the digits", b"T,1-5,2,3,4,5", 1),
    ("a space before", b"T, 5,2,3,4,5", 1),
    ("a space after", b"T,5 ,2,3,4,5", 1),
    ("a space after the minus sign", b"T,- 5,2,3,4,5", 1),
    ("a fraction", b"T,5.0,2,3,4,5", 1),
    ("an exponent", b"T,1e3,2,3,4,5", 1),
    ("hexadecimal", b"T,0x5,2,3,4,5", 1),
    ("a letter", b"T,T,2,3,4,5", 1),
    ("the byte before 0", b"T,1/,2,3,4,5", 1),
    ("the byte after 9", b"T,1:,2,3,4,5", 1),
    ("a zero byte", b"T,1,2,3,4,5\0", 1),
    ("byte 255", b"T,\xff,2,3,4,5", 1),
    ("5 with its eighth bit set", b"T,\xb5,2,3,4,5", 1),
    ("a digit that is not ASCII", b"T,\xd9\xa3,2,3,4,5", 1),
    (
        "a minus sign that is not ASCII",
        b"T,\xe2\x88\x925,2,3,4,5",
        1,
    ),
    ("eleven digits", b"T,00000000001,2,3,4,5", 1),
    (
        "eleven digits after a minus sign",
        b"T,-00000000001,2,3,4,5",
        1,
    ),
    ("2^64 + 5", b"T,18446744073709551621,2,3,4,5", 1),
    ("-2^31 - 1, in the first", b"T,-2147483649,2,3,4,5", 1),
    ("2^32, in the second", b"T,1,4294967296,3,4,5", 1),
    ("2^32 + 5, in the third", b"T,1,2,4294967301,4,5", 1),
    (
        "the largest of ten digits, in the fourth",
        b"T,1,2,3,9999999999,5",
        1,
    ),
    (
        "the lowest of ten digits, in the fifth",
        b"T,1,2,3,4,-9999999999",
        1,
    ),
    ("-(2^32 - 1)", b"T,1,2,3,4,-4294967295", 1),
    ("2^32, quoted", b"T,1,2,3,4,\"4294967296\"\r\n", 1),
    (
        "doubled quotes among the digits",
        b"T,1,2,3,4,\"5\"\"6\"",
        1,
    ),
    ("a quoted comma", b"T,1,2,3,4,\"5,6\"\r\n", 1),
    ("CR CR LF at the end of the row", b"T,1,2,3,4,5\r\r\n", 1),
    ("a lone CR at the end", b"T,1,2,3,4,5\r", 1),
    (
        "a lone LF at the end of the second row",
        b"T,1,2,3,4,5\r\nT,1,2,3,4,5\n",
        2,
    ),
    (
        "a quoted CR LF in the second row",
        b"T,1,2,3,4,5\r\nT,1,2,3,4,\"5\r\n\"\r\n",
        2,
    ),
];

// Reads each text, which is refused at this question.
fn check_all(
    rt: &(impl Abort + AllocGlobal),
    question: Question,
    cases: &[Case],
) -> Result<(), Fail> {
    for &(name, text, row) in cases {
        let refusal = Err(Refusal { question, row });
        check_reading(rt, name, rt.alloc(), text, PLACES, refusal, &[])?;
    }
    Ok(())
}

#[test]
fn quoting(rt: HostRuntime) -> Result<(), Fail> {
    check_all(&rt, Question::Quoting, &QUOTING)
}

#[test]
fn field_count(rt: HostRuntime) -> Result<(), Fail> {
    check_all(&rt, Question::FieldCount, &FIELD_COUNT)
}

#[test]
fn letter(rt: HostRuntime) -> Result<(), Fail> {
    check_all(&rt, Question::Letter, &LETTER)
}

#[test]
fn number(rt: HostRuntime) -> Result<(), Fail> {
    check_all(&rt, Question::Number, &NUMBER)
}
