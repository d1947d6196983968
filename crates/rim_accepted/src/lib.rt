//! The launches of a release that are accepted: each is laid out once, and all that is said of it is said of that.
#![tactic(auto)]

mod accepted;
mod audit_fault;
mod devicetree;
mod laws;
mod lines;
mod loaded;
mod reason;
mod refused;
mod release;
mod text;

pub use accepted::{AcceptedLaunch, ListedLaunch, accept, accept_with_list, item_at};
pub use audit_fault::AuditFault;
pub use devicetree::placed_devicetree;
pub use laws::{a_line_says_what_a_monitor_holds, devicetrees_are_measured};
pub use lines::{push_digest, push_line, push_lines, push_rim};
pub use loaded::{Files, LoadedLaunch, LoadedRelease};
pub use reason::LaunchReason;
pub use refused::RefusedLaunch;
pub use release::{AcceptedRelease, accept_all};
pub use text::{Report, has_refused, refused_line};
