//! Prefixes of plans: what launches that begin alike have in common.
use rim_desc::Measurement;

/// A prefix of a launch's plan, by how many links it has after the realm; and what it chains to.
#[derive(Clone, Copy, Debug, PartialEq, Eq)]
pub struct Prefix {
    pub links: usize,
    pub value: Measurement,
}

/// A prefix of a launch's plan, by how many links it has, that another launch begins with; and what it chains to, where
/// that is known.
#[derive(Clone, Copy, Debug, PartialEq, Eq)]
pub struct Checkpoint {
    pub links: usize,
    pub value: Option<Measurement>,
}

/// The prefix that a launch begins with: an earlier launch, and how many links they have in common.
#[derive(Clone, Copy, Debug, PartialEq, Eq, PartialOrd, Ord)]
pub struct SharedPrefix {
    pub launch: usize,
    pub links: usize,
}
