//! What a map shows.
use rim_manifest::{NamedLaunch, Release};

/// A launch that is shown, with its names, and its release, which has the paths of its files.
#[derive(Clone, Copy)]
pub struct Shown<'a> {
    pub release: &'a Release,
    pub launch: &'a NamedLaunch,
}
