ghost use Rattle.std.specs.Prelude.{◌≡◌};
ghost use Rattle.sheet.specs.Sheet.{view};
ghost use Rattle.shaping.specs.Nodes.{literal_fits, site_flagged, has_flag, lawful_argument, parts_begin, sized, lawful_node, bound};

use sheet::sets::set_below;
use sheet::{Flag, Kind, NodeRow, Table};

// From -2^31 to 2^31 - 1.
fn literal_fits(x: i64) -> bool
    ensures { result ≡ literal_fits x }
{
    i32::try_from(x).is_ok()
}

// Node i and its parts, which begin at the node given, are as many as the size says.
fn sized(i: usize, size: usize, from: Option<usize>) -> bool
    ensures { result ≡ sized i size from }
{
    match from {
        None => false,
        Some(b) => size > 0 && size - 1 == i.saturating_sub(b),
    }
}

// Site s exists, and has this flag.
fn is_flagged(table: &Table, s: usize, flag: Flag) -> bool
    ensures { result ≡ site_flagged (view table.now.rows.now) (has_flag flag) s }
{
    s < table.sites && table.site_at(s).flag == flag
}

// The argument is one that a node of this kind may have.
fn lawful_argument(table: &Table, x: NodeRow) -> bool
    ensures { result ≡ lawful_argument (view table.now.rows.now) x x.kind }
{
    match x.kind {
        Kind::Literal => literal_fits(x.literal),
        Kind::Variable => x.argument < table.nodes,
        Kind::New => is_flagged(table, x.argument, Flag::Fresh),
        Kind::Channel => is_flagged(table, x.argument, Flag::Channel),
        Kind::Operation => x.argument < 6,
        Kind::Lambda | Kind::Application | Kind::Read | Kind::Write | Kind::Choice => {
            x.argument == 0
        }
        Kind::Unknown => false,
    }
}

// Where the first of n parts begins, if the last one ends just before node e.
#[tactic(auto, using(crate::proofs::Levels::begin_none, crate::proofs::Levels::begin_step))]
fn parts_begin(table: &Table, n: usize, e: usize) -> Option<usize>
    ensures { result ≡ parts_begin (view table.now.rows.now) n e }
{
    if n == 0 {
        return Some(e);
    }
    let size = table.node_at(e.saturating_sub(1)).size;
    if size == 0 || size > e {
        return None;
    }
    parts_begin(table, n - 1, e - size)
}

/// Question 25, of node i.
pub fn lawful_node(table: &Table, i: usize) -> bool
    ensures { result ≡ lawful_node (view table.now.rows.now) i }
{
    let x = table.node_at(i);
    x.ty < table.types
        && set_below(32, x.control)
        && lawful_argument(table, x)
        && sized(i, x.size, parts_begin(table, x.kind.parts(), i))
}

/// Question 26, of node i.
pub fn bound(table: &Table, i: usize) -> bool
    ensures { result ≡ bound (view table.now.rows.now) i }
{
    let x = table.node_at(i);
    match x.kind {
        Kind::Variable => {
            let f = table.node_at(x.argument);
            f.kind == Kind::Lambda && i < x.argument && x.argument - i < f.size
        }
        _ => true,
    }
}
