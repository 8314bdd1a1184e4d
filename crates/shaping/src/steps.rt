//! From a draft to a shaped sheet: a check that moves nothing, and then a move that cannot refuse.
ghost use Rattle.std.specs.Prelude.{◌≡◌, true};
ghost use Rattle.sheet.specs.Asked.{once, passed};
ghost use Rattle.sheet.specs.Sheet.{view};
ghost use Rattle.shaping.specs.Verdict.{counts_of, letters_verdict, parts_verdict, shape_verdict};

use super::counts::Counts;
use super::entries::{covered, lawful_entry};
use super::letters::{in_order, within_limits};
use super::nodes::{bound, lawful_node};
use super::question::Question;
use super::sites::lawful_site;
use super::states::{Draft, Shaped};
use super::types::lawful_type;
use sheet::property::all;
use sheet::{Refusal, Row, Section, Table};

// One question about the whole sheet, which names the row given.
fn ask_once(question: Question, row: usize, yes: bool) -> Result<(), Refusal<Question>>
    ensures { result ≡ once question row yes }
{
    if yes {
        Ok(())
    } else {
        Err(Refusal { question, row })
    }
}

// Questions 21 and 22.
fn check_letters(table: &Table) -> Result<(), Refusal<Question>>
    ensures { result ≡ letters_verdict table.now.rows.now }
{
    let rows = table.rows;
    table.ask(Question::Letters, Section::All, |k| in_order(rows, k))?;
    ask_once(Question::Counts, 0, within_limits(table))
}

// Questions 23 to 27. That the trees cover every node is asked last, and names the last row.
fn check_parts(table: &Table) -> Result<(), Refusal<Question>>
    ensures { result ≡ parts_verdict (view table.now.rows.now) }
{
    table.ask(Question::Types, Section::Types, |t| lawful_type(table, t))?;
    table.ask(Question::Sites, Section::Sites, |s| lawful_site(table, s))?;
    table.ask(Question::Nodes, Section::Nodes, |i| lawful_node(table, i))?;
    table.ask(Question::Variables, Section::Nodes, |i| bound(table, i))?;
    table.ask(
        Question::Entries,
        Section::Entries,
        |e| lawful_entry(table, e),
    )?;
    let last = table.rows.len().saturating_sub(1);
    ask_once(
        Question::Entries,
        last,
        all(table.nodes, |i| covered(table, i)),
    )
}

impl<'a> Draft<'a> {
    /// A sheet as it is handed in.
    pub fn new(rows: &'a [Row]) -> Draft<'a>
        ensures { result.table.rows.now ≡ rows.now }
    {
        Draft {
            table: Table::new(rows),
        }
    }

    /// Asks the questions 21 to 27, each of all rows in rising order, up to the first no.
    pub fn check(&self) -> Result<(), Refusal<Question>>
        ensures { result ≡ shape_verdict self.now.table.rows.now }
    {
        check_letters(&self.table)?;
        check_parts(&self.table)
    }

    /// The shaped sheet. The check must have said yes.
    pub fn shape(self) -> Shaped<'a>
        requires { passed (shape_verdict self.table.rows.now) ≡ true }
        ensures { result.table.rows.now ≡ self.entry.table.rows.now }
    {
        Shaped { table: self.table }
    }
}

impl Shaped<'_> {
    /// How many types, sites, nodes and entries there are.
    pub fn counts(&self) -> Counts
        ensures { result ≡ counts_of (view self.now.table.rows.now) }
    {
        Counts {
            types: self.table.types,
            sites: self.table.sites,
            nodes: self.table.nodes,
            entries: self.table.entries,
        }
    }
}
