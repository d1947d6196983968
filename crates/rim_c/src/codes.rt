//! The codes that calls end with.
ghost use Rattle.std.specs.Prelude.{◌≡◌, ◌≢◌, ◌<◌};
ghost use Rattle.rim_c.specs.Codes.{code_of, devicetree_code, image_code, layout_code, list_code, manifest_code, plan_code, refusal_code, show_code, start_code};

use arm64_image::ImageFault;
use fdt_tree::FdtFault;
use ipa_layout::LayoutFault;
use rim_accepted::AuditFault;
use rim_cli::Fault;
use rim_manifest::ManifestFault;
use rim_pages::StartFault;
use rim_show::ShowFault;
use rmi_list::ListFault;
use rtt_plan::PlanFault;

/// Memory was refused.
pub const NO_MEMORY: u32 = 4;

/// The room is too short for the answer. How many bytes it has is said.
pub const ROOM: u32 = 5;

/// A path of the file that is asked about, or a launch's name, is no UTF-8.
pub const NO_TEXT: u32 = 6;

/// The manifest names a file that is not among those that are lent.
pub const NO_FILE: u32 = 7;

/// A file has more than 256 MiB.
pub const FILE_TOO_LARGE: u32 = 8;

/// No launch of the manifest has the name.
pub const NO_SUCH_LAUNCH: u32 = 9;

/// The launch has no devicetree.
pub const NO_DEVICETREE: u32 = 10;

/// The launches have more than 1,048,576 different measured pages.
pub const TOO_MANY_PAGES: u32 = 11;

/// A fault of the program that no call meets: of its output, or of the number of workers.
pub const NEVER: u32 = 12;

/// The code of a fault.
pub fn code_of(fault: Fault) -> u32
    ensures value { result ≡ code_of fault }
    ensures own { (3 < result) × (result ≢ ROOM) × (result ≢ NO_TEXT) }
{
    match fault {
        Fault::Manifest(fault) => manifest_code(fault),
        Fault::Start(fault) => start_code(fault),
        Fault::Refused(fault) => refusal_code(fault),
        Fault::Show(fault) => show_code(fault),
        Fault::NoSuchLaunch => NO_SUCH_LAUNCH,
        Fault::NoDevicetree => NO_DEVICETREE,
        Fault::FileUnreadable => NO_FILE,
        Fault::FileTooLarge => FILE_TOO_LARGE,
        Fault::NoMemory => NO_MEMORY,
        Fault::OutputIsTerminal | Fault::OutputFailed => NEVER,
    }
}

fn manifest_code(fault: ManifestFault) -> u32
    ensures value { result ≡ manifest_code fault }
    ensures own { (3 < result) × (result ≢ ROOM) × (result ≢ NO_TEXT) }
{
    match fault {
        ManifestFault::Syntax => 20,
        ManifestFault::Version => 21,
        ManifestFault::WrongKind => 22,
        ManifestFault::UnknownKey => 23,
        ManifestFault::MissingKey => 24,
        ManifestFault::Limit => 25,
        ManifestFault::Range => 26,
        ManifestFault::TwoNames => 27,
        ManifestFault::NoSuchFile => 28,
        ManifestFault::BadStep => 29,
        ManifestFault::NoMemory => NO_MEMORY,
    }
}

fn start_code(fault: StartFault) -> u32
    ensures value { result ≡ start_code fault }
    ensures own { (3 < result) × (result ≢ ROOM) × (result ≢ NO_TEXT) }
{
    match fault {
        StartFault::TooManyPages => TOO_MANY_PAGES,
        StartFault::NoMemory => NO_MEMORY,
        StartFault::Workers => NEVER,
    }
}

fn refusal_code(fault: AuditFault) -> u32
    ensures value { result ≡ refusal_code fault }
    ensures own { (3 < result) × (result ≢ ROOM) × (result ≢ NO_TEXT) }
{
    match fault {
        AuditFault::Layout(fault) => layout_code(fault),
        AuditFault::List(fault) => list_code(fault),
        AuditFault::NoMemory => NO_MEMORY,
    }
}

fn layout_code(fault: LayoutFault) -> u32
    ensures value { result ≡ layout_code fault }
    ensures own { (3 < result) × (result ≢ ROOM) × (result ≢ NO_TEXT) }
{
    match fault {
        LayoutFault::Kernel(fault) => image_code(fault),
        LayoutFault::Dtb(fault) => devicetree_code(fault),
        LayoutFault::Unaligned => 70,
        LayoutFault::KernelBase => 71,
        LayoutFault::OutsideRam => 72,
        LayoutFault::Overlap => 73,
        LayoutFault::InitrdWindow => 74,
        LayoutFault::Size => 75,
        LayoutFault::NoMemory => NO_MEMORY,
    }
}

fn list_code(fault: ListFault) -> u32
    ensures value { result ≡ list_code fault }
    ensures own { (3 < result) × (result ≢ ROOM) × (result ≢ NO_TEXT) }
{
    match fault {
        ListFault::Plan(fault) => plan_code(fault),
        ListFault::PoolEnd => 90,
        ListFault::TooManyRecs => 91,
        ListFault::RecOrder => 92,
        ListFault::RecNotRunnable => 93,
        ListFault::NoMemory => NO_MEMORY,
    }
}

fn plan_code(fault: PlanFault) -> u32
    ensures value { result ≡ plan_code fault }
    ensures own { (3 < result) × (result ≢ ROOM) × (result ≢ NO_TEXT) }
{
    match fault {
        PlanFault::OutsideProtected => 80,
        PlanFault::Unaligned => 81,
        PlanFault::RipasTwice => 82,
        PlanFault::NotRam => 83,
        PlanFault::DataTwice => 84,
        PlanFault::TooManyEntries => 85,
        PlanFault::NoMemory => NO_MEMORY,
    }
}

fn show_code(fault: ShowFault) -> u32
    ensures value { result ≡ show_code fault }
    ensures own { (3 < result) × (result ≢ ROOM) × (result ≢ NO_TEXT) }
{
    match fault {
        ShowFault::Image(fault) => image_code(fault),
        ShowFault::Dtb(fault) => devicetree_code(fault),
        ShowFault::NoMemory => NO_MEMORY,
    }
}

fn image_code(fault: ImageFault) -> u32
    ensures value { result ≡ image_code fault }
    ensures own { (3 < result) × (result ≢ ROOM) × (result ≢ NO_TEXT) }
{
    match fault {
        ImageFault::Short => 40,
        ImageFault::BadMagic => 41,
    }
}

fn devicetree_code(fault: FdtFault) -> u32
    ensures value { result ≡ devicetree_code fault }
    ensures own { (3 < result) × (result ≢ ROOM) × (result ≢ NO_TEXT) }
{
    match fault {
        FdtFault::Short => 50,
        FdtFault::BadMagic => 51,
        FdtFault::BadVersion => 52,
        FdtFault::BadBlock => 53,
        FdtFault::BadReserve => 54,
        FdtFault::BadToken => 55,
        FdtFault::BadName => 56,
        FdtFault::BadString => 57,
        FdtFault::LateProperty => 58,
        FdtFault::TooDeep => 59,
        FdtFault::BadCells => 60,
        FdtFault::TooLarge => 61,
        FdtFault::NoMemory => NO_MEMORY,
    }
}
