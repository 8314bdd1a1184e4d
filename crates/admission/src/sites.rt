//! Questions 32 and 33: what a site holds is its label's to read.
ghost use Rattle.std.specs.Prelude.{◌≡◌};
ghost use Rattle.sheet.specs.Sheet.{view};
ghost use Rattle.admission.specs.Questions.{site_flows, site_owned};
ghost use Rattle.admission.specs.Verdict.{sites_verdict};

use super::flow::all_flow;
use super::question::Question;
use policy::Policy;
use sheet::sets::has;
use sheet::{Refusal, Section, Table};

// Question 32: the label of site s is in its content's set.
fn site_owned(table: &Table, s: usize) -> bool
    ensures { result ≡ site_owned (view table.now.rows.now) s }
{
    let x = table.site_at(s);
    has(x.label, table.type_at(x.content).set)
}

// Question 33: every label of the content's set flows to the label of site s.
fn site_flows<P: Policy>(policy: &P, table: &Table, s: usize) -> bool
    ensures { result ≡ site_flows (P.Policy.flows policy.now) (view table.now.rows.now) s }
{
    let x = table.site_at(s);
    all_flow(policy, table.type_at(x.content).set, x.label)
}

// Asks question 32 of every site, and then question 33.
pub(crate) fn check_sites<P: Policy>(table: &Table, policy: &P) -> Result<(), Refusal<Question>>
    ensures { result ≡ sites_verdict (P.Policy.flows policy.now) (view table.now.rows.now) }
{
    table.ask(
        Question::SiteOwner,
        Section::Sites,
        |s| site_owned(table, s),
    )?;
    table.ask(
        Question::SiteFlow,
        Section::Sites,
        |s| site_flows(policy, table, s),
    )
}
