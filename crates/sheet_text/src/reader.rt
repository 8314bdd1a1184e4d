// A reader over the bytes of a text, with its place and the number of rows read. The place never
// passes the end, and each row read has moved it.
ghost use Rattle.std.specs.Prelude.{◌≤◌, length};

use super::line::Line;

mod next;

#[derive(Drop)]
pub(crate) struct Reader<'a> {
    input: &'a [u8],
    pos: usize,
    row: usize,
    ghost within: { pos ≤ length input.now },
    ghost counted: { row ≤ pos },
}

// A row whose quoting is wrong.
#[derive(Clone, Copy)]
pub(crate) struct Misquoted;
