//! Questions 34 and 35: the type rule and the control rule of a node, by its kind.
ghost use Rattle.std.specs.Prelude.{◌≡◌};
ghost use Rattle.sheet.specs.Sheet.{view};
ghost use Rattle.typing.specs.Tests.{node_type, typed, typed_by, controlled, controlled_by};

use super::clauses::{applies, chooses, operates, reads, under, under_two, writes};
use super::fitting::{fit, raised_fit};
use sheet::sets::has;
use sheet::{Flag, Form, Kind, NodeRow, Table, TypeRow};

/// The type of node i.
pub fn node_type(table: &Table, i: usize) -> TypeRow
    ensures { result ≡ node_type (view table.now.rows.now) i }
{
    table.type_at(table.node_at(i).ty)
}

// The type rule of node i, whose row is x, by its kind. The last part ends just before the node, and
// each other part just before the next one's first node.
fn typed_by(table: &Table, i: usize, x: NodeRow) -> bool
    ensures { result ≡ typed_by (view table.now.rows.now) i x x.kind }
{
    let own = table.type_at(x.ty);
    let named = node_type(table, x.argument);
    let site = table.site_at(x.argument);
    let named_by_own = has(x.argument, own.sites);
    let end = i.saturating_sub(1);
    let middle = table.part_before(end);
    let third = node_type(table, end);
    let value = table.node_at(end).ty;
    let second = node_type(table, middle);
    let first = node_type(table, table.part_before(middle));
    match x.kind {
        Kind::Literal if own.form == Form::Number => true,
        Kind::Variable if named.form == Form::Function => fit(table, named.argument, x.ty),
        Kind::Lambda if own.form == Form::Function => fit(table, value, own.result),
        Kind::Application if second.form == Form::Function => applies(table, second, x, value),
        Kind::New if own.form == Form::Reference && site.flag == Flag::Fresh && named_by_own => {
            raised_fit(table, value, x.control, site.content)
        }
        Kind::Channel
            if own.form == Form::Reference && site.flag == Flag::Channel && named_by_own => { true }
        Kind::Read if third.form == Form::Reference => reads(table, third, x.ty),
        Kind::Write if second.form == Form::Reference => writes(table, second, x, value),
        Kind::Choice if first.form == Form::Number => {
            chooses(table, first, x, table.node_at(middle).ty, value)
        }
        Kind::Operation if second.form == Form::Number => operates(second, third, own),
        _ => false,
    }
}

// The control rule of node i, whose row is x, by its kind.
fn controlled_by(table: &Table, i: usize, x: NodeRow) -> bool
    ensures { result ≡ controlled_by (view table.now.rows.now) i x x.kind }
{
    let last = i.saturating_sub(1);
    match x.kind {
        Kind::Literal | Kind::Variable | Kind::Channel => true,
        Kind::Lambda => under(table, table.type_at(x.ty).effect, last),
        Kind::New | Kind::Read => under(table, x.control, last),
        Kind::Application | Kind::Write | Kind::Operation => under_two(table, x.control, i),
        Kind::Choice => {
            let condition = table.part_before(table.part_before(last));
            under(table, x.control, condition)
                && under_two(table, x.control, i)
                && under_two(table, node_type(table, condition).set, i)
        }
        Kind::Unknown => false,
    }
}

/// Question 34: node i keeps its type rule.
pub fn typed(table: &Table, i: usize) -> bool
    ensures { result ≡ typed (view table.now.rows.now) i }
{
    typed_by(table, i, table.node_at(i))
}

/// Question 35: node i keeps its control rule.
pub fn controlled(table: &Table, i: usize) -> bool
    ensures { result ≡ controlled (view table.now.rows.now) i }
{
    controlled_by(table, i, table.node_at(i))
}
