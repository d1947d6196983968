//! What is wrong with a manifest and with the launches that it describes: a remark on each fault, with its place, what is
//! given and what is expected.
#![tactic(auto)]

mod detail;
mod excerpt;
mod finding_detail;
mod found;
mod json;
mod launches;
mod manifest;
mod marking;
mod mending;
mod refused;
mod spots;
mod warnings;

pub use found::{LaunchCheck, ReleaseFault};
pub use json::check_json;
pub use launches::{check_launches, refusal_remark};
pub use manifest::{ManifestCheck, check_manifest};
pub use marking::{MarkedLine, mark_first};
pub use refused::refusals;
pub use rim_accepted::LaunchReason;
pub use rim_hints::Nearest;
pub use shown_text::{Remark, lines_of, push_file};
