ghost use Rattle.std.specs.Prelude.{◌≡◌, ◌+◌, ◌≤◌, length};
ghost use Rattle.sheet.specs.Sheet.{view};

use super::row::Row;

/// The rows of a sheet, with how many there are of each letter: any rows make one. The ghost fields say
/// that each count is the one that the sheet read off the rows has, and that the sections fit in. The
/// sections are told by their counts: as slices of their own they would need these facts, and where
/// each of them begins. Contracts speak of the sheet, `view` of the rows: a model of the table by its sheet
/// would hide the rows, which shaping is about.
#[derive(Clone, Copy)]
pub struct Table<'a> {
    pub rows: &'a [Row],
    pub types: usize,
    pub sites: usize,
    pub nodes: usize,
    pub entries: usize,
    ghost r: { length rows.now ≡ (view rows.now).rows },
    ghost t: { types ≡ (view rows.now).types },
    ghost s: { sites ≡ (view rows.now).sites },
    ghost n: { nodes ≡ (view rows.now).nodes },
    ghost e: { entries ≡ (view rows.now).entries },
    ghost room: { types + sites + nodes + entries ≤ length rows.now },
}
