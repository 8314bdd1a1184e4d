//! Question 31: every label that the sheet speaks of is one of the policy's.
ghost use Rattle.std.specs.Prelude.{◌≡◌};
ghost use Rattle.sheet.specs.Sheet.{view};
ghost use Rattle.admission.specs.Questions.{entry_label, node_labels, site_label, type_labels};
ghost use Rattle.admission.specs.Verdict.{labels_verdict};

use super::question::Question;
use sheet::sets::set_below;
use sheet::{Refusal, Section, Table};

// The members of the label set and the effect set of type t are among so many labels.
fn type_labels(labels: usize, table: &Table, t: usize) -> bool
    ensures { result ≡ type_labels labels (view table.now.rows.now) t }
{
    let x = table.type_at(t);
    set_below(labels, x.set) && set_below(labels, x.effect)
}

// The label of site s is among them.
fn site_label(labels: usize, table: &Table, s: usize) -> bool
    ensures { result ≡ site_label labels (view table.now.rows.now) s }
{
    table.site_at(s).label < labels
}

// The members of the control set of node i are among them.
fn node_labels(labels: usize, table: &Table, i: usize) -> bool
    ensures { result ≡ node_labels labels (view table.now.rows.now) i }
{
    set_below(labels, table.node_at(i).control)
}

// The label of entry e is among them.
fn entry_label(labels: usize, table: &Table, e: usize) -> bool
    ensures { result ≡ entry_label labels (view table.now.rows.now) e }
{
    table.entry_at(e).label < labels
}

// Asks question 31 of every row, in rising order.
pub(crate) fn check_labels(table: &Table, labels: usize) -> Result<(), Refusal<Question>>
    ensures { result ≡ labels_verdict labels (view table.now.rows.now) }
{
    table.ask(
        Question::Labels,
        Section::Types,
        |t| type_labels(labels, table, t),
    )?;
    table.ask(
        Question::Labels,
        Section::Sites,
        |s| site_label(labels, table, s),
    )?;
    table.ask(
        Question::Labels,
        Section::Nodes,
        |i| node_labels(labels, table, i),
    )?;
    table.ask(
        Question::Labels,
        Section::Entries,
        |e| entry_label(labels, table, e),
    )
}
