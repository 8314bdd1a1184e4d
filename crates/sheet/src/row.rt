/// A row as it was handed in: any letter, any five whole numbers. What a letter and its numbers
/// mean, and which of them are lawful, is asked later.
#[derive(Clone, Copy, Debug, PartialEq, Eq)]
pub struct Row {
    pub letter: char,
    pub a: i64,
    pub b: i64,
    pub c: i64,
    pub d: i64,
    pub e: i64,
}

impl Row {
    /// No letter and zeros: stands for a row that there is none of.
    pub const BLANK: Row = Row {
        letter: '\0',
        a: 0,
        b: 0,
        c: 0,
        d: 0,
        e: 0,
    };
}
