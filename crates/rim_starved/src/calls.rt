//! The calls that are tried: each public call that takes memory, but for those that only pass on what another one answers.

/// A call, by what it is given.
#[derive(Clone, Copy)]
pub enum Call {
    /// A flattened devicetree, or an Image.
    Tree(TreeCall),
    /// Words, a listing, or the text of a manifest.
    Text(TextCall),
    /// The first launch of a manifest.
    Layer(LayerCall),
    /// A manifest and its files.
    Release(ReleaseCall),
}

#[derive(Clone, Copy)]
pub enum TreeCall {
    Read,
    Set,
    SetMemory,
    Write,
    ShowFdt,
    ShowImage,
}

#[derive(Clone, Copy)]
pub enum TextCall {
    Command,
    Replay,
    Apply,
    CloneMonitor,
    PrintLines,
    ReadManifest,
    CheckManifest,
    MarkFirst,
    CheckJson,
}

#[derive(Clone, Copy)]
pub enum LayerCall {
    Place,
    List,
    ReadPlan,
    RipasRuns,
    DataPages,
    ReserveTable,
    ReserveRow,
    NewCore,
    NewBoard,
}

#[derive(Clone, Copy)]
pub enum ReleaseCall {
    MeasureAlone,
    /// By three workers, whose gate lets launches wait.
    ByWorkers,
    /// By three workers, whose gate lets no launch wait.
    NoWaiting,
    /// By three workers, with the digests of the files.
    WithDigests,
    JsonReport,
    Audit,
    AuditReport,
    Listing,
    Trace,
    Devicetree,
    CheckLaunches,
    /// The map of a launch, accepted or refused, as lines.
    MapText,
    MapJson,
}

/// The calls, each after its name.
pub const CALLS: [(&str, Call); 37] = [
    ("fdt_tree::read", Call::Tree(TreeCall::Read)),
    ("Tree::set", Call::Tree(TreeCall::Set)),
    ("Tree::set_memory", Call::Tree(TreeCall::SetMemory)),
    ("Tree::write", Call::Tree(TreeCall::Write)),
    ("show_fdt", Call::Tree(TreeCall::ShowFdt)),
    ("show_image", Call::Tree(TreeCall::ShowImage)),
    ("command", Call::Text(TextCall::Command)),
    ("replay", Call::Text(TextCall::Replay)),
    ("Monitor::apply", Call::Text(TextCall::Apply)),
    ("Monitor::try_clone", Call::Text(TextCall::CloneMonitor)),
    ("print_line", Call::Text(TextCall::PrintLines)),
    ("read_manifest", Call::Text(TextCall::ReadManifest)),
    ("check_manifest", Call::Text(TextCall::CheckManifest)),
    ("mark_first", Call::Text(TextCall::MarkFirst)),
    ("check_json", Call::Text(TextCall::CheckJson)),
    ("place", Call::Layer(LayerCall::Place)),
    ("list", Call::Layer(LayerCall::List)),
    ("LaunchPlan::read", Call::Layer(LayerCall::ReadPlan)),
    ("Tables::ripas_runs", Call::Layer(LayerCall::RipasRuns)),
    ("Tables::data_pages", Call::Layer(LayerCall::DataPages)),
    ("Table::reserve", Call::Layer(LayerCall::ReserveTable)),
    ("DigestRow::reserve", Call::Layer(LayerCall::ReserveRow)),
    ("Core::new", Call::Layer(LayerCall::NewCore)),
    ("BoardState::new", Call::Layer(LayerCall::NewBoard)),
    ("measure_alone", Call::Release(ReleaseCall::MeasureAlone)),
    ("measure_release", Call::Release(ReleaseCall::ByWorkers)),
    (
        "measure_release/no-waiting",
        Call::Release(ReleaseCall::NoWaiting),
    ),
    (
        "measure_with_digests",
        Call::Release(ReleaseCall::WithDigests),
    ),
    ("json_report", Call::Release(ReleaseCall::JsonReport)),
    ("audit", Call::Release(ReleaseCall::Audit)),
    ("audit_report", Call::Release(ReleaseCall::AuditReport)),
    ("listing", Call::Release(ReleaseCall::Listing)),
    ("trace", Call::Release(ReleaseCall::Trace)),
    ("placed_devicetree", Call::Release(ReleaseCall::Devicetree)),
    ("check_launches", Call::Release(ReleaseCall::CheckLaunches)),
    ("map_text", Call::Release(ReleaseCall::MapText)),
    ("map_json", Call::Release(ReleaseCall::MapJson)),
];

/// The call of this name.
pub fn named(name: &str) -> Option<Call> {
    for (known, call) in &CALLS {
        if *known == name {
            return Some(*call);
        }
    }
    None
}
