ghost use Rattle.std.specs.Prelude.{◌≡◌};
ghost use Rattle.sheet.specs.Sheet.{view};
ghost use Rattle.shaping.specs.Letters.{rank, in_order, from_one, within_limits};

use sheet::{Row, Table};

// The place of a letter's rows, and 4 for a letter that there is no row of: places are compared, and one past
// the others compares as it should.
fn rank(letter: char) -> usize
    ensures { result ≡ rank letter }
{
    match letter {
        'T' => 0,
        'S' => 1,
        'N' => 2,
        'E' => 3,
        _ => 4,
    }
}

/// Question 21, of row k.
pub fn in_order(rows: &[Row], k: usize) -> bool
    ensures { result ≡ in_order rows.now k }
{
    if k >= rows.len() {
        return false;
    }
    let here = rank(rows[k].letter);
    here < 4 && rank(rows[k.saturating_sub(1)].letter) <= here
}

// From 1 to the most.
fn from_one(most: usize, n: usize) -> bool
    ensures { result ≡ from_one most n }
{
    (1..=most).contains(&n)
}

// Question 22.
pub(crate) fn within_limits(table: &Table) -> bool
    ensures { result ≡ within_limits (view table.now.rows.now) }
{
    from_one(128, table.types)
        && from_one(32, table.sites)
        && from_one(512, table.nodes)
        && from_one(32, table.entries)
}
