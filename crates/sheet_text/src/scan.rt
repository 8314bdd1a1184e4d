ghost use Rattle.std.specs.Prelude.{◌≡◌, ℕ, ◌+◌, ◌<◌, ◌≤◌, true, false, List, [], length, take, drop, IfSome, MatchOption};
ghost use Rattle.sheet_text.specs.Symbols.{symbols};
ghost use Rattle.sheet_text.specs.Grammar.{wrong, field, bare, quoted, closed};
ghost use Rattle.sheet_text.specs.Lines.{ends_bare, mark, begins, Scanned};

use super::field::Field;

// Whether a bare field ends before these bytes: at a comma, a quotation mark, a line's end or the
// text's end.
fn ends_bare_field(rest: &[u8]) -> bool
    ensures { result ≡ ends_bare rest.now }
{
    matches!(rest, [] | [b',' | b'"', ..] | [b'\r', b'\n', ..])
}

// How many bytes at the front belong to a bare field.
fn bare_len(rest: &[u8]) -> usize
    ensures within { result ≤ length rest.now }
    ensures ends { ends_bare (drop result rest.now) ≡ true }
    ensures read { bare (symbols rest.now) [] ≡ bare (symbols (drop result rest.now)) (take result rest.now) }
{
    // no `position`: it looks at single bytes, and a line's end is two
    for n in 0..rest.len() {
        if ends_bare_field(&rest[n..]) {
            return n;
        }
    }
    rest.len()
}

// How many bytes stand before the quotation mark that closes a quoted field; none where it stays
// open.
fn quoted_len(rest: &[u8]) -> Option<usize>
    ensures within { IfSome result (λ n. n < length rest.now) }
    ensures ends { IfSome result (λ n. begins 34 (drop (n + 1) rest.now) ≡ false) }
    ensures read { MatchOption result (quoted (symbols rest.now) [] ≡ wrong) (λ n. quoted (symbols rest.now) [] ≡ closed (symbols (drop (n + 1) rest.now)) (take n rest.now)) }
{
    // counted by hand, since two marks move it by two places, which no `for` does
    let mut n = 0;
    loop {
        match &rest[n..] {
            [] => return None,
            [b'"', b'"', ..] => n += 2,
            [b'"', ..] => return Some(n),
            _ => n += 1,
        }
    }
}

// What ends a field: a comma, or the end of its row, which is a line's end or the text's end.
#[derive(Clone, Copy)]
pub(crate) enum Mark {
    Comma,
    RowEnd,
}

// The mark that these bytes begin with, and how many bytes it is; none where another byte stands.
fn mark_of(rest: &[u8]) -> Option<(Mark, usize)>
    ensures { result ≡ mark rest.now }
{
    match rest {
        [] => Some((Mark::RowEnd, 0)),
        [b',', ..] => Some((Mark::Comma, 1)),
        [b'\r', b'\n', ..] => Some((Mark::RowEnd, 2)),
        _ => None,
    }
}

// A field, what ends it, and how many bytes both are: a size, and not the rest of the text, since
// the reader's place moves by it and each field tells its own.
#[derive(Clone, Copy)]
pub(crate) struct Step<'a> {
    pub(crate) field: Field<'a>,
    pub(crate) mark: Mark,
    pub(crate) size: usize,
}

// The rest of a bare field, which began at the place `at`.
fn bare_field<'a>(rest: &'a [u8], at: usize) -> Option<Step<'a>>
    ensures { Scanned rest.now (bare (symbols rest.now) []) at result }
{
    let n = bare_len(rest);
    let (mark, size) = mark_of(&rest[n..])?;
    Some(Step {
        field: Field::Bare {
            bytes: &rest[..n],
            at,
        },
        mark,
        size: n + size,
    })
}

// The rest of a quoted field, which began at the place `at`, after its quotation mark.
fn quoted_field<'a>(rest: &'a [u8], at: usize) -> Option<Step<'a>>
    ensures { Scanned rest.now (quoted (symbols rest.now) []) at result }
{
    let n = quoted_len(rest)?;
    let (mark, size) = mark_of(&rest[n + 1..])?;
    Some(Step {
        field: Field::Quoted {
            bytes: &rest[..n],
            at,
        },
        mark,
        size: n + 1 + size,
    })
}

// The field that begins at the place `at`; none where its quoting is wrong.
pub(crate) fn next_field<'a>(rest: &'a [u8], at: usize) -> Option<Step<'a>>
    ensures { Scanned rest.now (field (symbols rest.now)) at result }
{
    match rest {
        [b'"', inner @ ..] => {
            let step = quoted_field(inner, at)?;
            Some(Step {
                size: step.size + 1,
                ..step
            })
        }
        _ => bare_field(rest, at),
    }
}
