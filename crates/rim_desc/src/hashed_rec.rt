//! The measurements of the pages of RECs. The RECs of a realm mostly have the same contents, so that of the last one is kept.
ghost use Rattle.std.specs.Prelude.{◌≡◌, true};
ghost use Rattle.rim_desc.specs.Measurement.{measurement_of};
ghost use Rattle.rim_desc.specs.Rec.{rec_page_of};

use crate::measurement::{Algo, Measurement, hash};
use crate::rec::{RecParams, rec_page};

/// The parameters of a REC with the measurement of its page, kept for RECs of the same contents. Its type says that the
/// measurement is the page's own.
#[derive(Clone, Copy)]
pub struct HashedRec {
    algo: Algo,
    params: RecParams,
    content: Measurement,
    ghost own: { content.bytes ≡ measurement_of algo (rec_page_of params) },
}

impl HashedRec {
    ghost use Rattle.std.specs.Prelude.{◌≡◌, true};
    ghost use Rattle.rim_desc.specs.Measurement.{measurement_of};
    ghost use Rattle.rim_desc.specs.Rec.{rec_page_of};

    /// Whether it is the page of a REC with these parameters too. Their MPIDR and their auxiliary granules are not measured.
    #[tactic(auto, unfolding(crate::specs::Rec::rec_page_of))]
    fn is_of(&self, algo: Algo, params: &RecParams) -> bool
        ensures { result ≡ true
            → self.now.content.bytes ≡ measurement_of algo (rec_page_of params.now) }
    {
        self.algo == algo
            && self.params.flags() == params.flags()
            && self.params.pc() == params.pc()
            && self.params.gprs() == params.gprs()
    }
}

/// The measurement of a REC's page. It is hashed only where the REC that was hashed last has other contents, and is then
/// kept in that one's place.
pub fn rec_content(algo: Algo, params: &RecParams, last: &mut Option<HashedRec>) -> Measurement
    ensures { result.bytes ≡ measurement_of algo (rec_page_of params.now) }
{
    if let Some(hashed) = last
        && hashed.is_of(algo, params)
    {
        return hashed.content;
    }
    let content = hash(algo, &rec_page(params));
    *last = Some(HashedRec {
        algo,
        params: *params,
        content,
    });
    content
}
