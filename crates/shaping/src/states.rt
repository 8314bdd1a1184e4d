ghost use Rattle.std.specs.Prelude.{◌≡◌, true};
ghost use Rattle.sheet.specs.Asked.{passed};
ghost use Rattle.shaping.specs.Verdict.{shape_verdict};

use sheet::Table;

/// Rows as they are handed in: any rows at all.
#[derive(Drop)]
pub struct Draft<'a> {
    pub table: Table<'a>,
}

/// Rows that every question of shaping was answered yes for.
#[derive(Drop)]
pub struct Shaped<'a> {
    pub table: Table<'a>,
    ghost shaped: { passed (shape_verdict table.rows.now) ≡ true },
}
