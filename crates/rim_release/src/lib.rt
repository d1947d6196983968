//! A release: its manifest, the report of the Realm Initial Measurements of its launches, and its audits, listings and traces.
//! All of it is passed on from the crates below, so a caller needs this crate alone.

pub use job_board::JobId;
pub use job_workers::{FreeGate, Gate};
pub use rim_accepted::{
    AcceptedRelease, AuditFault, Files, LoadedLaunch, LoadedRelease, RefusedLaunch, Report,
    a_line_says_what_a_monitor_holds, accept_all, devicetrees_are_measured, placed_devicetree,
};
pub use rim_audit::{
    a_trace_shows_what_a_monitor_holds, audit, audit_launches, audit_report, audit_with_gate,
    list_launch, listing, trace_launch,
};
pub use rim_desc::Lanes;
pub use rim_launch::{Config, Launch};
pub use rim_manifest::{ManifestFault, NamedLaunch, Release, read_manifest};
pub use rim_replay::{ReplayFault, refused_kind, replay};
pub use rim_report::{
    Outcome, StartFault, a_value_is_its_launchs_rim, measure_alone, measure_release, outcome_alone,
    values_make_the_lines,
};
pub use rim_show::{ShowFault, show_fdt, show_image};
