/// Which rows of a sheet a question is about.
#[derive(Clone, Copy, Debug, PartialEq, Eq)]
pub enum Section {
    All,
    Types,
    Sites,
    Nodes,
    Entries,
}
