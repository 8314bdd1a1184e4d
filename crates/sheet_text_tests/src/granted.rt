// Texts that are read, and the rows that they say.
use crate::cases::{Fields, PLACES, check_reading};
use std::process::Abort;
use std::test::Fail;

// A name, a text, its rows.
type Case = (&'static str, &'static [u8], &'static [Fields]);

const LINES: [Case; 8] = [
    ("empty input", b"", &[]),
    ("no final CR LF", b"T,0,6,0,0,0", &[('T', [0, 6, 0, 0, 0])]),
    (
        "a final CR LF",
        b"T,0,6,0,0,0\r\n",
        &[('T', [0, 6, 0, 0, 0])],
    ),
    (
        "two rows, no final CR LF",
        b"S,1,2,3,4,5\r\nE,6,7,8,9,10",
        &[('S', [1, 2, 3, 4, 5]), ('E', [6, 7, 8, 9, 10])],
    ),
    (
        "two rows and a final CR LF",
        b"S,1,2,3,4,5\r\nE,6,7,8,9,10\r\n",
        &[('S', [1, 2, 3, 4, 5]), ('E', [6, 7, 8, 9, 10])],
    ),
    (
        "each letter, in any order",
        b"E,1,1,1,1,1\r\nN,2,2,2,2,2\r\nS,3,3,3,3,3\r\nT,4,4,4,4,4\r\n",
        &[
            ('E', [1, 1, 1, 1, 1]),
            ('N', [2, 2, 2, 2, 2]),
            ('S', [3, 3, 3, 3, 3]),
            ('T', [4, 4, 4, 4, 4]),
        ],
    ),
    (
        "the same row twice",
        b"N,1,2,3,4,5\r\nN,1,2,3,4,5\r\n",
        &[('N', [1, 2, 3, 4, 5]), ('N', [1, 2, 3, 4, 5])],
    ),
    (
        "as many rows as places",
        b"T,1,0,0,0,0\r\nT,2,0,0,0,0\r\nT,3,0,0,0,0\r\nT,4,0,0,0,0\r\nT,5,0,0,0,0\r\nT,6,0,0,0,0\r\n\
          T,7,0,0,0,0\r\nT,8,0,0,0,0\r\nT,9,0,0,0,0\r\nT,10,0,0,0,0\r\nT,11,0,0,0,0\r\nT,12,0,0,0,0\r\n",
        &[
            ('T', [1, 0, 0, 0, 0]),
            ('T', [2, 0, 0, 0, 0]),
            ('T', [3, 0, 0, 0, 0]),
            ('T', [4, 0, 0, 0, 0]),
            ('T', [5, 0, 0, 0, 0]),
            ('T', [6, 0, 0, 0, 0]),
            ('T', [7, 0, 0, 0, 0]),
            ('T', [8, 0, 0, 0, 0]),
            ('T', [9, 0, 0, 0, 0]),
            ('T', [10, 0, 0, 0, 0]),
            ('T', [11, 0, 0, 0, 0]),
            ('T', [12, 0, 0, 0, 0]),
        ],
    ),
];

const QUOTED: [Case; 5] = [
    (
        "quotes around everything",
        b"\"S\",\"1\",\"-2\",\"3\",\"4\",\"5\"\r\n",
        &[('S', [1, -2, 3, 4, 5])],
    ),
    (
        "quotes around everything, no final CR LF",
        b"\"S\",\"1\",\"2\",\"3\",\"4\",\"-5\"",
        &[('S', [1, 2, 3, 4, -5])],
    ),
    (
        "a quoted letter",
        b"\"E\",1,2,3,4,5",
        &[('E', [1, 2, 3, 4, 5])],
    ),
    (
        "quoted and bare fields in turn",
        b"N,\"1\",2,\"3\",4,\"5\"\r\n\"N\",6,\"7\",8,\"9\",10\r\n",
        &[('N', [1, 2, 3, 4, 5]), ('N', [6, 7, 8, 9, 10])],
    ),
    (
        "the ends of the range, quoted",
        b"T,\"-2147483648\",\"4294967295\",\"0\",\"-0\",\"0000000000\"\r\n",
        &[('T', [-2147483648, 4294967295, 0, 0, 0])],
    ),
];

const NUMBERS: [Case; 6] = [
    (
        "the lowest number",
        b"T,-2147483648,0,0,0,0",
        &[('T', [-2147483648, 0, 0, 0, 0])],
    ),
    (
        "the highest number",
        b"T,0,0,0,0,4294967295",
        &[('T', [0, 0, 0, 0, 4294967295])],
    ),
    (
        "either side of 2^31",
        b"T,2147483647,2147483648,2147483649,-2147483647,-1",
        &[('T', [2147483647, 2147483648, 2147483649, -2147483647, -1])],
    ),
    (
        "leading zeros, up to ten digits",
        b"N,0000000007,007,00,-0000000009,-05",
        &[('N', [7, 7, 0, -9, -5])],
    ),
    (
        "minus zero",
        b"S,-0,-00,-0000000000,0,1",
        &[('S', [0, 0, 0, 0, 1])],
    ),
    (
        "every digit",
        b"S,1234567890,-987654321,10,9,8",
        &[('S', [1234567890, -987654321, 10, 9, 8])],
    ),
];

const WHOLE_SHEET: [Case; 1] = [(
    "a whole sheet",
    b"T,0,6,0,0,0\r\nT,0,2,0,0,0\r\nT,2,0,1,0,0\r\nT,2,0,2,0,0\r\nS,1,1,1,0,0\r\nS,2,0,1,0,0\r\n\
      N,5,1,3,2,1\r\nN,5,1,2,2,0\r\nN,6,2,1,2,0\r\nN,7,4,1,2,0\r\nE,1,3,0,0,0\r\n",
    &[
        ('T', [0, 6, 0, 0, 0]),
        ('T', [0, 2, 0, 0, 0]),
        ('T', [2, 0, 1, 0, 0]),
        ('T', [2, 0, 2, 0, 0]),
        ('S', [1, 1, 1, 0, 0]),
        ('S', [2, 0, 1, 0, 0]),
        ('N', [5, 1, 3, 2, 1]),
        ('N', [5, 1, 2, 2, 0]),
        ('N', [6, 2, 1, 2, 0]),
        ('N', [7, 4, 1, 2, 0]),
        ('E', [1, 3, 0, 0, 0]),
    ],
)];

// Reads each text; the answer is the number of its rows.
fn check_all(rt: &(impl Abort + AllocGlobal), cases: &[Case]) -> Result<(), Fail> {
    for &(name, text, rows) in cases {
        check_reading(rt, name, rt.alloc(), text, PLACES, Ok(rows.len()), rows)?;
    }
    Ok(())
}

#[test]
fn lines(rt: HostRuntime) -> Result<(), Fail> {
    check_all(&rt, &LINES)
}

#[test]
fn quoted_fields(rt: HostRuntime) -> Result<(), Fail> {
    check_all(&rt, &QUOTED)
}

#[test]
fn numbers(rt: HostRuntime) -> Result<(), Fail> {
    check_all(&rt, &NUMBERS)
}

#[test]
fn whole_sheet(rt: HostRuntime) -> Result<(), Fail> {
    check_all(&rt, &WHOLE_SHEET)
}
