// The sheet read off the rows, a row at a time.
ghost use Rattle.std.specs.Prelude.{◌≡◌, ◌+◌, ◌≤◌, length};
ghost use Rattle.sheet.specs.Sheet.{natural, form_of, flag_of, kind_of, operator_of, type_of, site_of, node_of, entry_of, row_at, count, view, parts_of, part_before};

use super::decoded::{EntryRow, Flag, Form, Kind, NodeRow, Operator, SiteRow, TypeRow};
use super::row::Row;
use super::table::Table;

// Where a number that counts from 0 is asked for, one below zero is past every limit.
const PAST_EVERY_LIMIT: usize = 1 << 63;

// A number that counts from 0.
fn natural_of(x: i64) -> usize
    ensures { result ≡ natural x }
{
    usize::try_from(x).unwrap_or(PAST_EVERY_LIMIT)
}

impl From<usize> for Form {
    ghost from_gives = { λ n form. form ≡ form_of n };

    fn from(n: usize) -> Form {
        match n {
            0 => Form::Number,
            1 => Form::Function,
            2 => Form::Reference,
            _ => Form::Unknown,
        }
    }
}

impl From<usize> for Flag {
    ghost from_gives = { λ n flag. flag ≡ flag_of n };

    fn from(n: usize) -> Flag {
        match n {
            0 => Flag::Fresh,
            1 => Flag::Channel,
            _ => Flag::Unknown(n),
        }
    }
}

impl From<usize> for Kind {
    ghost from_gives = { λ n kind. kind ≡ kind_of n };

    fn from(n: usize) -> Kind {
        match n {
            0 => Kind::Literal,
            1 => Kind::Variable,
            2 => Kind::Lambda,
            3 => Kind::Application,
            4 => Kind::New,
            5 => Kind::Channel,
            6 => Kind::Read,
            7 => Kind::Write,
            8 => Kind::Choice,
            9 => Kind::Operation,
            _ => Kind::Unknown,
        }
    }
}

impl From<usize> for Operator {
    ghost from_gives = { λ n operator. operator ≡ operator_of n };

    fn from(n: usize) -> Operator {
        match n {
            0 => Operator::Add,
            1 => Operator::Subtract,
            2 => Operator::Multiply,
            3 => Operator::Divide,
            4 => Operator::Less,
            _ => Operator::Equal,
        }
    }
}

impl From<Row> for TypeRow {
    ghost from_gives = { λ r t. t ≡ type_of r };

    fn from(r: Row) -> TypeRow {
        TypeRow {
            form: Form::from(natural_of(r.a)),
            set: natural_of(r.b),
            argument: natural_of(r.c),
            result: natural_of(r.d),
            effect: natural_of(r.e),
            sites: natural_of(r.c),
        }
    }
}

impl From<Row> for SiteRow {
    ghost from_gives = { λ r s. s ≡ site_of r };

    fn from(r: Row) -> SiteRow {
        SiteRow {
            label: natural_of(r.a),
            content: natural_of(r.b),
            flag: Flag::from(natural_of(r.c)),
            d: natural_of(r.d),
            e: natural_of(r.e),
        }
    }
}

impl From<Row> for NodeRow {
    ghost from_gives = { λ r n. n ≡ node_of r };

    fn from(r: Row) -> NodeRow {
        NodeRow {
            kind: Kind::from(natural_of(r.a)),
            size: natural_of(r.b),
            ty: natural_of(r.c),
            control: natural_of(r.d),
            argument: natural_of(r.e),
            literal: r.e,
        }
    }
}

impl From<Row> for EntryRow {
    ghost from_gives = { λ r e. e ≡ entry_of r };

    fn from(r: Row) -> EntryRow {
        EntryRow {
            label: natural_of(r.a),
            root: natural_of(r.b),
            c: natural_of(r.c),
            d: natural_of(r.d),
            e: natural_of(r.e),
        }
    }
}

// Thing k of n whose rows begin at row b; the empty row where there is none.
fn row_at(rows: &[Row], b: usize, n: usize, k: usize) -> Row
    requires { b + n ≤ length rows.now }
    ensures { result ≡ row_at rows.now b n k }
{
    if k < n { rows[b + k] } else { Row::BLANK }
}

// How many rows have the letter.
fn count(rows: &[Row], letter: char) -> usize
    ensures { result ≡ count letter rows.now }
{
    rows.iter().filter(|r| r.letter == letter).count()
}

impl<'a> Table<'a> {
    /// Any rows at all make a table.
    pub fn new(rows: &'a [Row]) -> Table<'a>
        ensures { result.rows.now ≡ rows.now }
    {
        Table {
            rows,
            types: count(rows, 'T'),
            sites: count(rows, 'S'),
            nodes: count(rows, 'N'),
            entries: count(rows, 'E'),
        }
    }
}

impl Table<'_> {
    /// Type t.
    #[tactic(auto, unfolding(crate::specs::Sheet::view))]
    pub fn type_at(&self, t: usize) -> TypeRow
        ensures { result ≡ (view self.now.rows.now).type t }
    {
        TypeRow::from(row_at(self.rows, 0, self.types, t))
    }

    /// Site s.
    #[tactic(auto, unfolding(crate::specs::Sheet::view))]
    pub fn site_at(&self, s: usize) -> SiteRow
        ensures { result ≡ (view self.now.rows.now).site s }
    {
        SiteRow::from(row_at(self.rows, self.types, self.sites, s))
    }

    /// Node i.
    #[tactic(auto, unfolding(crate::specs::Sheet::view))]
    pub fn node_at(&self, i: usize) -> NodeRow
        ensures { result ≡ (view self.now.rows.now).node i }
    {
        NodeRow::from(row_at(self.rows, self.types + self.sites, self.nodes, i))
    }

    /// Entry e.
    #[tactic(auto, unfolding(crate::specs::Sheet::view))]
    pub fn entry_at(&self, e: usize) -> EntryRow
        ensures { result ≡ (view self.now.rows.now).entry e }
    {
        let first = self.types + self.sites + self.nodes;
        EntryRow::from(row_at(self.rows, first, self.entries, e))
    }

    /// The part before the part p of some node: it ends just before p's first node.
    pub fn part_before(&self, p: usize) -> usize
        ensures { result ≡ part_before (view self.now.rows.now) p }
    {
        p.saturating_sub(self.node_at(p).size)
    }
}

impl Kind {
    /// How many parts a node of this kind has.
    pub fn parts(self) -> usize
        ensures { result ≡ parts_of self }
    {
        match self {
            Kind::Lambda | Kind::New | Kind::Read => 1,
            Kind::Application | Kind::Write | Kind::Operation => 2,
            Kind::Choice => 3,
            Kind::Literal | Kind::Variable | Kind::Channel | Kind::Unknown => 0,
        }
    }
}
