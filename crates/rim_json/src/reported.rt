//! The parts of a report.
ghost use Rattle.std.specs.Prelude.{◌≡◌, map};
ghost use Rattle.sha2.specs.Sha256.{sha256};

use launch_json::FileDigest;
use rim_accepted::{AcceptedRelease, AuditFault};
use rim_desc::Measurement;
use shown_text::Remark;

/// The parts of a report as JSON. By its type the digests are those of the release's files.
#[derive(Clone, Copy)]
pub struct Reported<'a, 'b> {
    /// The program's name and version.
    pub program: &'a str,
    /// The path of the manifest, as it was given.
    pub path: &'a str,
    /// The bytes of the manifest.
    pub bytes: &'a [u8],
    /// The release, its files, and its launches, each accepted or refused.
    pub accepted: &'a AcceptedRelease<'b>,
    /// The SHA-256 digest of each file, in the manifest's order.
    pub digests: &'a [FileDigest],
    /// The measurement of each launch or the fault that it is refused with, in the manifest's order.
    pub outcomes: &'a [Result<Measurement, AuditFault>],
    /// The remark on each launch that is refused, in the manifest's order.
    pub remarks: &'a [Option<Remark>],
    /// The number of different measured pages of the release.
    pub pages: u64,
    pub ghost digested: { digests.now ≡ map sha256 accepted.now.files },
}
