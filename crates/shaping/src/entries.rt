ghost use Rattle.std.specs.Prelude.{◌≡◌};
ghost use Rattle.sheet.specs.Sheet.{view};
ghost use Rattle.shaping.specs.Entries.{first_of, apart, apart_from_earlier, spare, lawful_entry, outside, covered};

use sheet::property::all;
use sheet::{EntryRow, Table};

// The first node of entry e's tree; the last is its root.
fn first_of(table: &Table, e: usize) -> usize
    ensures { result ≡ first_of (view table.now.rows.now) e }
{
    let root = table.entry_at(e).root;
    root.saturating_sub(table.node_at(root).size.saturating_sub(1))
}

// The fields that an entry does not use are 0.
fn spare(x: EntryRow) -> bool
    ensures { result ≡ spare x }
{
    x.c == 0 && x.d == 0 && x.e == 0
}

// The trees of entries e and f share no node.
fn apart(table: &Table, e: usize, f: usize) -> bool
    ensures { result ≡ apart (view table.now.rows.now) e f }
{
    table.entry_at(e).root < first_of(table, f) || table.entry_at(f).root < first_of(table, e)
}

// Node i is not in the tree of entry e.
fn outside(table: &Table, i: usize, e: usize) -> bool
    ensures { result ≡ outside (view table.now.rows.now) i e }
{
    i < first_of(table, e) || table.entry_at(e).root < i
}

// The tree of entry e shares no node with that of an earlier one.
#[tactic(auto, unfolding(crate::specs::Entries::apart_from_earlier))]
fn apart_from_earlier(table: &Table, e: usize) -> bool
    ensures { result ≡ apart_from_earlier (view table.now.rows.now) e }
{
    all(e, |f| apart(table, e, f))
}

/// Question 27, of entry e.
pub fn lawful_entry(table: &Table, e: usize) -> bool
    ensures { result ≡ lawful_entry (view table.now.rows.now) e }
{
    let x = table.entry_at(e);
    x.label < 32 && x.root < table.nodes && spare(x) && apart_from_earlier(table, e)
}

/// Question 27, of node i: some entry's tree has it.
#[tactic(auto, unfolding(crate::specs::Entries::covered))]
pub fn covered(table: &Table, i: usize) -> bool
    ensures { result ≡ covered (view table.now.rows.now) i }
{
    !all(table.entries, |e| outside(table, i, e))
}
