ghost use Rattle.std.specs.Prelude.{◌≡◌};
ghost use Rattle.sheet.specs.Sheet.{view};
ghost use Rattle.shaping.specs.Types.{nests, lawful_type, lawful_fields};

use sheet::sets::set_below;
use sheet::{Form, Table, TypeRow};

// The fields that the form uses are lawful, and those that it does not use are 0.
fn lawful_fields(sites: usize, x: &TypeRow) -> bool
    ensures { result ≡ lawful_fields sites x.now x.now.form }
{
    match x.form {
        Form::Number => x.argument == 0 && x.result == 0 && x.effect == 0,
        Form::Function => set_below(32, x.effect),
        Form::Reference => set_below(sites, x.sites) && x.result == 0 && x.effect == 0,
        Form::Unknown => false,
    }
}

// Type t is nested at most n deep; its part types have lower numbers.
#[tactic(auto, using(crate::proofs::Levels::nests_none, crate::proofs::Levels::nests_step))]
fn nests(table: &Table, n: usize, t: usize) -> bool
    ensures { result ≡ nests (view table.now.rows.now) n t }
{
    if n == 0 {
        return false;
    }
    let x = table.type_at(t);
    match x.form {
        Form::Function => {
            x.argument < t
                && x.result < t
                && nests(table, n - 1, x.argument)
                && nests(table, n - 1, x.result)
        }
        _ => true,
    }
}

/// Question 23, of type t.
pub fn lawful_type(table: &Table, t: usize) -> bool
    ensures { result ≡ lawful_type (view table.now.rows.now) t }
{
    let x = table.type_at(t);
    set_below(32, x.set) && lawful_fields(table.sites, &x) && nests(table, 8, t)
}
