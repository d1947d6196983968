//! The RECs that were hashed last.
ghost use Rattle.std.specs.Prelude.{◌≡◌, ◌<◌};
ghost use Rattle.rim_desc.specs.Measurement.{measurement_of};
ghost use Rattle.rim_desc.specs.Rec.{rec_page_of};

use rim_desc::{Algo, HashedRec, Measurement, RecParams, rec_content};

/// The RECs that were hashed last, of each algorithm one of each kind: it may be run or not, and begins at address 0 or at another.
/// Nearly all RECs of a release have the contents of one of these, however many launches it has: most realms enter at the same kernel,
/// and their other RECs are all alike.
#[derive(Drop)]
pub struct LastRecs {
    kept: [Option<HashedRec>; 8],
}

impl LastRecs {
    /// No REC was hashed.
    pub fn new() -> LastRecs {
        LastRecs {
            kept: [None, None, None, None, None, None, None, None],
        }
    }

    /// The measurement of the page of a REC, which is hashed only where its contents are new.
    pub(crate) fn content(&mut self, algo: Algo, params: &RecParams) -> Measurement
        ensures { result.bytes ≡ measurement_of algo (rec_page_of params.now) }
    {
        rec_content(algo, params, &mut self.kept[place(algo, params)])
    }
}

/// Where a REC by an algorithm is kept.
fn place(algo: Algo, params: &RecParams) -> usize
    ensures { result < 8 }
{
    let first = match algo {
        Algo::Sha256 => 0,
        Algo::Sha512 => 4,
    };
    let kind = match (params.flags(), params.pc()) {
        (0, 0) => 0,
        (0, _) => 1,
        (_, 0) => 2,
        (_, _) => 3,
    };
    first + kind
}
