//! Digests of neighbours in a list of pages.
ghost use Rattle.std.specs.Prelude.{◌≤◌};
ghost use Rattle.rim_desc.specs.declared.side_by_side.TheConstants.{MOST_LANES};

use rim_desc::{MOST_LANES, Measurement};

/// A digest of which nothing is said.
pub(crate) const NONE: Measurement = Measurement { bytes: [0; 64] };

/// The measurements of the first of some pages, in the order of the pages: at most as many as are hashed side by side.
#[derive(Clone, Copy)]
pub struct GroupDigests {
    /// The first `count` are those of pages.
    pub all: [Measurement; MOST_LANES],
    pub count: usize,
    pub ghost within: { count ≤ MOST_LANES },
}

impl GroupDigests {
    ghost use Rattle.std.specs.Prelude.{◌≡◌, [], slice_get};
    ghost use Rattle.page_jobs.specs.Group.{digests_in};

    /// Those of no pages.
    pub fn none() -> GroupDigests
        ensures { digests_in result ≡ [] }
    {
        GroupDigests {
            all: [NONE; MOST_LANES],
            count: 0,
        }
    }

    /// The measurement of page `k`, where it is there.
    pub fn get(&self, k: usize) -> Option<Measurement>
        ensures { result ≡ slice_get (digests_in self.now) k }
    {
        if k < self.count {
            Some(self.all[k])
        } else {
            None
        }
    }
}
