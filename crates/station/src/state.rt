ghost use Rattle.std.specs.Prelude.{◌≤◌, length};
ghost use Rattle.sheet.specs.Sheet.{view};

use admission::Admitted;

/// An admitted sheet over a channel area that is lent: its first places are the sites', and the others
/// are never touched. Only the calls of the station change the area.
#[derive(Drop)]
pub struct Station<'s, 'c, K> {
    pub(crate) sheet: Admitted<'s>,
    pub(crate) channels: &'c mut [K],
    ghost room: { (view sheet.shaped.table.rows.now).sites ≤ length channels.now },
}
