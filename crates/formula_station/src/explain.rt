// Why a sheet was not admitted: which clause of a rule a node breaks, and which label may not flow.
use policy::Policy;
use sheet::sets::{has, within};
use sheet::{Flag, Form, Kind, NodeRow, Table, TypeRow};
use typing::fitting::fit;
use typing::rules::node_type;

// The first label of the set that may not flow to a label.
pub(crate) fn barred<P: Policy>(policy: &P, set: usize, to: usize) -> Option<u32> {
    (0..policy.labels()).find(|from| {
        let flows = u32::try_from(to).is_ok_and(|to| policy.may_flow(*from, to));
        // std has no From<u32> for usize.
        has(*from as usize, set) && !flows
    })
}

// The clause that a variable breaks.
fn variable(table: &Table, x: NodeRow) -> &'static str {
    if node_type(table, x.argument).form != Form::Function {
        "the node that the variable names has no function type"
    } else {
        "the argument type of the function that it names does not fit the variable's own type"
    }
}

// The clause that a function node breaks.
fn lambda(own: TypeRow) -> &'static str {
    if own.form != Form::Function {
        "a function node's own type is a function type"
    } else {
        "the body's type does not fit the result type"
    }
}

// The clause that an application breaks.
fn application(table: &Table, function: TypeRow, x: NodeRow, value: usize) -> &'static str {
    if function.form != Form::Function {
        "the first part of an application has a function type"
    } else if !fit(table, value, function.argument) {
        "the second part's type does not fit the function's argument type"
    } else if !within(function.set, function.effect) {
        "the function's own label set does not lie within its effect set"
    } else if !within(x.control, function.effect) {
        "the node's control set does not lie within the function's effect set"
    } else {
        "the function's result type, raised by the function's label set, does not fit the node's type"
    }
}

// The clause that a new cell or a channel breaks.
fn creation(table: &Table, own: TypeRow, x: NodeRow) -> &'static str {
    if own.form != Form::Reference {
        "the node's own type is a reference type"
    } else if !has(x.argument, own.sites) {
        "the site is not among the sites of the node's reference type"
    } else if table.site_at(x.argument).flag == Flag::Fresh {
        "the part's type, raised by the node's control set, does not fit what the site holds"
    } else {
        "the site is of the wrong kind: new names a fresh site, channel names a channel"
    }
}

// The clause that a read breaks.
fn reading(reference: TypeRow) -> &'static str {
    if reference.form != Form::Reference {
        "the part that is read has a reference type"
    } else {
        "what some site of the reference holds, raised by the reference's label set, does not fit the node's type"
    }
}

// The clause that a write breaks.
fn writing(table: &Table, reference: TypeRow, x: NodeRow, value: usize) -> &'static str {
    if reference.form != Form::Reference {
        "the first part of a write has a reference type"
    } else if !fit(table, value, x.ty) {
        "the second part's type does not fit the node's own type"
    } else {
        "the second part's type, raised by the reference's label set and the node's control set, does not fit what some site of the reference holds"
    }
}

// The clause that a choice breaks.
fn choice(table: &Table, condition: TypeRow, x: NodeRow, second: usize) -> &'static str {
    if condition.form != Form::Number {
        "the condition of a choice is a number"
    } else if !fit(table, second, x.ty) {
        "the second part's type does not fit the node's type"
    } else if !within(condition.set, table.type_at(x.ty).set) {
        "the condition's label set does not lie within the node's"
    } else {
        "the third part's type does not fit the node's type"
    }
}

// The clause that an operation breaks.
fn operation(first: TypeRow, second: TypeRow, own: TypeRow) -> &'static str {
    if first.form != Form::Number || second.form != Form::Number || own.form != Form::Number {
        "both parts of an operation, and the node itself, are numbers"
    } else if !within(first.set, own.set) {
        "the first part's label set does not lie within the node's"
    } else {
        "the second part's label set does not lie within the node's"
    }
}

// The clause of its type rule that node i breaks.
pub(crate) fn type_rule(table: &Table, i: usize) -> &'static str {
    let x = table.node_at(i);
    let own = table.type_at(x.ty);
    let end = i.saturating_sub(1);
    let middle = table.part_before(end);
    let value = table.node_at(end).ty;
    let second = node_type(table, middle);
    match x.kind {
        Kind::Literal => "a literal's own type is a number",
        Kind::Variable => variable(table, x),
        Kind::Lambda => lambda(own),
        Kind::Application => application(table, second, x, value),
        Kind::New | Kind::Channel => creation(table, own, x),
        Kind::Read => reading(node_type(table, end)),
        Kind::Write => writing(table, second, x, value),
        Kind::Choice => {
            let condition = node_type(table, table.part_before(middle));
            choice(table, condition, x, table.node_at(middle).ty)
        }
        Kind::Operation => operation(second, node_type(table, end), own),
        Kind::Unknown => "the node's kind is not known",
    }
}

// The clause of its control rule that node i breaks.
pub(crate) fn control_rule(table: &Table, i: usize) -> &'static str {
    match table.node_at(i).kind {
        Kind::Lambda => "the body's control set does not contain the function type's effect set",
        Kind::Choice => {
            "some part's control set does not contain the node's own, or one of the last two does not contain the condition's label set"
        }
        _ => "some part's control set does not contain the node's own",
    }
}
