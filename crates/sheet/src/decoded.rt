//! What the rows say, field by field. A number below zero reads as 2^63, which is past every limit; a
//! form, a flag or a kind that there is none of reads as `Unknown`.

/// The form of a type: 0, 1 and 2 in a row.
#[derive(Clone, Copy, Debug, PartialEq, Eq)]
pub enum Form {
    Number,
    Function,
    Reference,
    Unknown,
}

/// Where a site's cells come from: 0 in a row for one that a run makes, 1 for one that a seat posts to. Any other
/// number is kept.
#[derive(Clone, Copy, Debug, PartialEq, Eq)]
pub enum Flag {
    Fresh,
    Channel,
    Unknown(usize),
}

/// The kind of a node: 0 to 9 in a row. As for forms and flags, a case of its own for a number past the
/// last is plainer than an `Option`: each rule is one `match` over the kinds.
#[derive(Clone, Copy, Debug, PartialEq, Eq)]
pub enum Kind {
    Literal,
    Variable,
    Lambda,
    Application,
    New,
    Channel,
    Read,
    Write,
    Choice,
    Operation,
    Unknown,
}

/// What an operation does with its two numbers: 0 to 5 in a row. A number past these reads as the last.
#[derive(Clone, Copy, Debug, PartialEq, Eq)]
pub enum Operator {
    Add,
    Subtract,
    Multiply,
    Divide,
    Less,
    Equal,
}

/// A type. The row's third number is a function's argument type and a reference's site set: it is
/// read under both names. A case for each form would not do, since a row may hold any numbers in any form.
#[derive(Clone, Copy, Debug, PartialEq, Eq)]
pub struct TypeRow {
    pub form: Form,
    pub set: usize,
    pub argument: usize,
    pub result: usize,
    pub effect: usize,
    pub sites: usize,
}

/// A site. Two numbers are spare.
#[derive(Clone, Copy, Debug, PartialEq, Eq)]
pub struct SiteRow {
    pub label: usize,
    pub content: usize,
    pub flag: Flag,
    pub d: usize,
    pub e: usize,
}

/// A node. The row's last number is read as an argument, which counts from 0, and as a literal,
/// which may be below zero, whatever the kind.
#[derive(Clone, Copy, Debug, PartialEq, Eq)]
pub struct NodeRow {
    pub kind: Kind,
    pub size: usize,
    pub ty: usize,
    pub control: usize,
    pub argument: usize,
    pub literal: i64,
}

/// An entry. Three numbers are spare.
#[derive(Clone, Copy, Debug, PartialEq, Eq)]
pub struct EntryRow {
    pub label: usize,
    pub root: usize,
    pub c: usize,
    pub d: usize,
    pub e: usize,
}
