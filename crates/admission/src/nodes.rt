//! Questions 34 and 35: every node keeps its type rule and its control rule.
ghost use Rattle.std.specs.Prelude.{◌≡◌};
ghost use Rattle.sheet.specs.Sheet.{view};
ghost use Rattle.admission.specs.Questions.{rules_kept};
ghost use Rattle.admission.specs.Verdict.{broken, rules_verdict};

use super::question::Question;
use sheet::property::first_no;
use sheet::{Refusal, Table};
use typing::rules::{controlled, typed};

// Node i keeps both rules.
fn rules_kept(table: &Table, i: usize) -> bool
    ensures { result ≡ rules_kept (view table.now.rows.now) i }
{
    typed(table, i) && controlled(table, i)
}

// The rule that a node breaks, by whether it keeps its type rule, which is asked first.
fn broken(keeps_type_rule: bool) -> Question
    ensures { result ≡ broken keeps_type_rule }
{
    if keeps_type_rule {
        Question::ControlRule
    } else {
        Question::TypeRule
    }
}

// Asks question 34 and then question 35 of a node before the next node.
pub(crate) fn check_nodes(table: &Table) -> Result<(), Refusal<Question>>
    ensures { result ≡ rules_verdict (view table.now.rows.now) }
{
    match first_no(table.nodes, |i| rules_kept(table, i)) {
        None => Ok(()),
        Some(i) => Err(Refusal {
            question: broken(typed(table, i)),
            row: table.types + table.sites + i,
        }),
    }
}
