/// How many types, sites, nodes and entries a sheet has: what a caller is told. A `Table` has these beside the
/// rows, for the checks.
#[derive(Clone, Copy, PartialEq, Debug)]
pub struct Counts {
    pub types: usize,
    pub sites: usize,
    pub nodes: usize,
    pub entries: usize,
}
