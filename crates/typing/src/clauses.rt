// What the type rule asks at each kind of node, once the forms are right.
ghost use Rattle.std.specs.Prelude.{◌≡◌};
ghost use Rattle.sheet.specs.Sheet.{view};
ghost use Rattle.typing.specs.Tests.{applies, chooses, operates, reads, reads_site, under, under_two, writes, writes_site};

use super::fitting::{fit, raised_fit};
use sheet::property::all;
use sheet::sets::{has, within};
use sheet::{Form, NodeRow, Table, TypeRow};

// Node x applies a function of type f to an argument of type number a.
pub(crate) fn applies(table: &Table, f: TypeRow, x: NodeRow, a: usize) -> bool
    ensures { result ≡ applies (view table.now.rows.now) f x a }
{
    fit(table, a, f.argument)
        && within(f.set, f.effect)
        && within(x.control, f.effect)
        && raised_fit(table, f.result, f.set, x.ty)
}

// What reading site s through the reference gives, where the reference may name it, fits the type of
// number `own`.
fn reads_site(table: &Table, reference: TypeRow, own: usize, s: usize) -> bool
    ensures { result ≡ reads_site (view table.now.rows.now) reference own s }
{
    let content = table.site_at(s).content;
    !has(s, reference.sites) || raised_fit(table, content, reference.set, own)
}

// What reading through the reference gives fits the type of number `own`, whichever site is read.
pub(crate) fn reads(table: &Table, reference: TypeRow, own: usize) -> bool
    ensures { result ≡ reads (view table.now.rows.now) reference own }
{
    all(table.sites, |s| reads_site(table, reference, own, s))
}

// A value of type number v, raised by some labels, fits the content of site s, where s is in the set.
fn writes_site(table: &Table, sites: usize, labels: usize, v: usize, s: usize) -> bool
    ensures { result ≡ writes_site (view table.now.rows.now) sites labels v s }
{
    !has(s, sites) || raised_fit(table, v, labels, table.site_at(s).content)
}

// Node x writes a value of type number v through the reference r, whichever site is written.
pub(crate) fn writes(table: &Table, r: TypeRow, x: NodeRow, v: usize) -> bool
    ensures { result ≡ writes (view table.now.rows.now) r x v }
{
    let labels = r.set | x.control;
    all(table.sites, |s| writes_site(table, r.sites, labels, v, s)) && fit(table, v, x.ty)
}

// Node x chooses by a condition of type c between values of types number v and w.
pub(crate) fn chooses(table: &Table, c: TypeRow, x: NodeRow, v: usize, w: usize) -> bool
    ensures { result ≡ chooses (view table.now.rows.now) c x v w }
{
    fit(table, v, x.ty) && fit(table, w, x.ty) && within(c.set, table.type_at(x.ty).set)
}

// An operation on operands of types a and b gives the type own.
pub(crate) fn operates(a: TypeRow, b: TypeRow, own: TypeRow) -> bool
    ensures { result ≡ operates a b own }
{
    b.form == Form::Number
        && own.form == Form::Number
        && within(a.set, own.set)
        && within(b.set, own.set)
}

// The control set of node p contains the set c.
pub(crate) fn under(table: &Table, c: usize, p: usize) -> bool
    ensures { result ≡ under (view table.now.rows.now) c p }
{
    within(c, table.node_at(p).control)
}

// The control sets of the last two parts of node i contain the set c.
pub(crate) fn under_two(table: &Table, c: usize, i: usize) -> bool
    ensures { result ≡ under_two (view table.now.rows.now) c i }
{
    let last = i.saturating_sub(1);
    under(table, c, table.part_before(last)) && under(table, c, last)
}
