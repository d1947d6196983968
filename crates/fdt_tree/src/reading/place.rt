//! Where in the structure block a token is.

/// How many nodes are open, and whether it is too late for a property: a child of the innermost open node
/// has ended. Where no node is open, `late` is whether the root has ended.
#[derive(Clone, Copy)]
pub struct Place {
    pub depth: usize,
    pub late: bool,
}
