// Texts of about 60,000 bytes, built here.
use crate::cases::{Fields, check_reading};
use sheet_text::Question::{FieldCount, Length, Letter, Number, Quoting, Room};
use sheet_text::{Question, Refusal};
use std::alloc::{AllocError, Global};
use std::test::Fail;

// A row of 15 bytes, so that 4,000 of them are 60,000 bytes.
const ROW: &[u8] = b"N,1,-2,3,4,-5\r\n";

const FIELDS: Fields = ('N', [1, -2, 3, 4, -5]);

// A name, how many of these rows, the bytes after them, how many bytes that makes, the places of
// the table, the question that is answered no, its row.
type Case = (
    &'static str,
    usize,
    &'static [u8],
    usize,
    usize,
    Question,
    usize,
);

const ROWS_AND: [Case; 9] = [
    ("one byte more", 4000, b"N", 60_001, 4001, Length, 1),
    (
        "one byte more, which opens a quote",
        4000,
        b"\"",
        60_001,
        4001,
        Length,
        1,
    ),
    ("one row more", 4001, b"", 60_015, 4001, Length, 1),
    ("one row more and no room", 4001, b"", 60_015, 0, Length, 1),
    (
        "quoting at the end",
        3999,
        b"N,1,-2,3,4,-\"\r\n",
        60_000,
        4000,
        Quoting,
        4000,
    ),
    (
        "field count at the end",
        3999,
        b"N,1,-2,3,4,,5\r\n",
        60_000,
        4000,
        FieldCount,
        4000,
    ),
    (
        "letter at the end",
        3999,
        b"M,1,-2,3,4,-5\r\n",
        60_000,
        4000,
        Letter,
        4000,
    ),
    (
        "number at the end",
        3999,
        b"N,1,-2,3,4,--\r\n",
        60_000,
        4000,
        Number,
        4000,
    ),
    ("one place too few", 4000, b"", 60_000, 3999, Room, 4000),
];

// A name, a byte, how often it stands, the question that is answered no, its row.
type RepeatedByte = (&'static str, u8, usize, Question, usize);

// Of 60,000 quotes the first opens a field, the last closes it, and those between are doubled; of
// 59,999 the field stays open.
const ONE_BYTE: [RepeatedByte; 8] = [
    ("quotes, one too many", b'"', 60_001, Length, 1),
    ("zero bytes, far too many", 0, 100_000, Length, 1),
    ("quotes", b'"', 60_000, FieldCount, 1),
    ("quotes, an odd number", b'"', 59_999, Quoting, 1),
    ("commas", b',', 60_000, FieldCount, 1),
    ("letters", b'T', 60_000, FieldCount, 1),
    ("lone LF", b'\n', 60_000, FieldCount, 1),
    ("lone CR", b'\r', 60_000, FieldCount, 1),
];

// A text of so many of these rows, and then these bytes.
fn rows_and(heap: Global, rows: usize, last: &[u8]) -> Result<Vec<u8>, AllocError> {
    let mut text = Vec::new(heap);
    for _ in 0..rows {
        text.extend_from_slice(ROW)?;
    }
    text.extend_from_slice(last)?;
    Ok(text)
}

#[test]
fn longest(rt: HostRuntime) -> Result<(), Fail> {
    let heap = rt.alloc();
    let text = rows_and(heap, 4000, b"")?;
    assert_eq!(rt; text.len(), 60_000);
    let rows = vec![in heap; FIELDS; 4000]?;
    check_reading(
        &rt,
        "the longest",
        heap,
        text.as_slice(),
        4001,
        Ok(4000),
        rows.as_slice(),
    )
}

#[test]
fn rows_and_bytes(rt: HostRuntime) -> Result<(), Fail> {
    let heap = rt.alloc();
    for (name, rows, last, size, room, question, row) in ROWS_AND {
        let text = rows_and(heap, rows, last)?;
        assert_eq!(rt; text.len(), size, "{name}");
        let refusal = Err(Refusal { question, row });
        check_reading(&rt, name, heap, text.as_slice(), room, refusal, &[])?;
    }
    Ok(())
}

#[test]
fn one_byte_repeated(rt: HostRuntime) -> Result<(), Fail> {
    let heap = rt.alloc();
    for (name, byte, size, question, row) in ONE_BYTE {
        let text = vec![in heap; byte; size]?;
        let refusal = Err(Refusal { question, row });
        check_reading(&rt, name, heap, text.as_slice(), 3, refusal, &[])?;
    }
    Ok(())
}
