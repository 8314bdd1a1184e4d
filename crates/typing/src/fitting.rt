//! When one type fits another.
ghost use Rattle.std.specs.Prelude.{◌≡◌};
ghost use Rattle.sheet.specs.Sets.{within};
ghost use Rattle.sheet.specs.Sheet.{view};
ghost use Rattle.typing.specs.Fitting.{row_fits, raised, fit, raised_fit};

use sheet::sets::within;
use sheet::{Form, Table, TypeRow};

// Where function x stands for function y, it is given y's argument and takes its own: the first is to
// fit the second.
fn arguments(table: &Table, x: TypeRow, y: TypeRow) -> (TypeRow, TypeRow)
    ensures { (result.0 ≡ (view table.now.rows.now).type y.argument) × (result.1 ≡ (view table.now.rows.now).type x.argument) }
{
    (table.type_at(y.argument), table.type_at(x.argument))
}

// Where function x stands for function y, what y's effect set promises, x's does.
fn effect_fits(x: TypeRow, y: TypeRow) -> bool
    ensures { result ≡ within y.effect x.effect }
{
    within(y.effect, x.effect)
}

// Type x fits type y, looked at n deep. A function's argument and result have lower numbers than the
// function, and types nest at most eight deep, so the recursion stays small.
#[tactic(auto, using(crate::proofs::Levels::fits_none, crate::proofs::Levels::fits_step))]
fn fits(table: &Table, n: usize, x: TypeRow, y: TypeRow) -> bool
    ensures { result ≡ row_fits (view table.now.rows.now) n x y }
{
    if n == 0 {
        return false;
    }
    if !within(x.set, y.set) {
        return false;
    }
    match x.form {
        Form::Number => y.form == Form::Number,
        Form::Function => {
            let (given, taken) = arguments(table, x, y);
            let (got, wanted) = (table.type_at(x.result), table.type_at(y.result));
            y.form == Form::Function
                && fits(table, n - 1, given, taken)
                && fits(table, n - 1, got, wanted)
                && effect_fits(x, y)
        }
        Form::Reference => y.form == Form::Reference && within(x.sites, y.sites),
        Form::Unknown => y.form == Form::Unknown,
    }
}

// The type with the labels of m added to its set.
fn raised(m: usize, x: TypeRow) -> TypeRow
    ensures { result ≡ raised m x }
{
    TypeRow {
        set: x.set | m,
        ..x
    }
}

/// Type x fits type y.
pub fn fit(table: &Table, x: usize, y: usize) -> bool
    ensures { result ≡ fit (view table.now.rows.now) x y }
{
    fits(table, 8, table.type_at(x), table.type_at(y))
}

/// Type x raised by m fits type y.
pub fn raised_fit(table: &Table, x: usize, m: usize, y: usize) -> bool
    ensures { result ≡ raised_fit (view table.now.rows.now) x m y }
{
    fits(table, 8, raised(m, table.type_at(x)), table.type_at(y))
}
