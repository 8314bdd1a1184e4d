ghost use Rattle.std.specs.Prelude.{◌≡◌};
ghost use Rattle.sheet.specs.Sheet.{view};
ghost use Rattle.shaping.specs.Sites.{lawful_site, spare};

use sheet::{Flag, Form, SiteRow, Table};

// The fields that a site does not use are 0.
fn spare(x: SiteRow) -> bool
    ensures { result ≡ spare x }
{
    x.d == 0 && x.e == 0
}

/// Question 24, of site s.
pub fn lawful_site(table: &Table, s: usize) -> bool
    ensures { result ≡ lawful_site (view table.now.rows.now) s }
{
    let x = table.site_at(s);
    let content = table.type_at(x.content);
    x.label < 32
        && x.content < table.types
        && (x.flag == Flag::Fresh || (x.flag == Flag::Channel && content.form == Form::Number))
        && spare(x)
}
