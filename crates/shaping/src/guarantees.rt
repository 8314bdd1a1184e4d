//! Theorems about shaped sheets. Each function only carries its contract.
ghost use Rattle.shaping.specs.Meaning.{ReadByLetter, ShapedExactly, SpansNest, TreesCover};

/// Rows are shaped exactly when each question holds of each row that it is about.
pub fn shaped_exactly()
    ensures { ShapedExactly }
{}

/// The types, sites, nodes and entries of a shaped sheet are its rows T, S, N and E, and all its rows.
pub fn read_by_letter()
    ensures { ReadByLetter }
{}

/// A part lies within its node's span, and two spans are nested or apart.
pub fn spans_nest()
    ensures { SpansNest }
{}

/// The entries' trees are disjoint and cover all nodes.
pub fn trees_cover()
    ensures { TreesCover }
{}
