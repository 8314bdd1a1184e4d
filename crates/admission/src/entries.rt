//! Questions 36 and 37: an entry gives a number that its label may see.
ghost use Rattle.std.specs.Prelude.{◌≡◌};
ghost use Rattle.sheet.specs.Sheet.{view};
ghost use Rattle.admission.specs.Questions.{entry_flows, entry_rooted};
ghost use Rattle.admission.specs.Verdict.{entries_verdict};

use super::flow::all_flow;
use super::question::Question;
use policy::Policy;
use sheet::sets::has;
use sheet::{Form, Refusal, Section, Table};
use typing::rules::node_type;

// Question 36: the root of entry e gives a number, and the entry's label is in the root's control set.
fn entry_rooted(table: &Table, e: usize) -> bool
    ensures { result ≡ entry_rooted (view table.now.rows.now) e }
{
    let x = table.entry_at(e);
    node_type(table, x.root).form == Form::Number && has(x.label, table.node_at(x.root).control)
}

// Question 37: every label of the root's set flows to the label of entry e.
fn entry_flows<P: Policy>(policy: &P, table: &Table, e: usize) -> bool
    ensures { result ≡ entry_flows (P.Policy.flows policy.now) (view table.now.rows.now) e }
{
    let x = table.entry_at(e);
    all_flow(policy, node_type(table, x.root).set, x.label)
}

// Asks question 36 of every entry, and then question 37.
pub(crate) fn check_entries<P: Policy>(table: &Table, policy: &P) -> Result<(), Refusal<Question>>
    ensures { result ≡ entries_verdict (P.Policy.flows policy.now) (view table.now.rows.now) }
{
    table.ask(
        Question::EntryRoot,
        Section::Entries,
        |e| entry_rooted(table, e),
    )?;
    table.ask(
        Question::EntryFlow,
        Section::Entries,
        |e| entry_flows(policy, table, e),
    )
}
