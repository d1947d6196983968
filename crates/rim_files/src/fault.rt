//! Why a run of the program fails.
ghost use Rattle.std.specs.Prelude.{◌≡◌, ◌≤◌};
ghost use Rattle.rim_files.specs.Status.{word_of, status_of};
ghost use Rattle.rim_files.specs.declared.fault.Fault.TheVariants as fault;

use refusal::NoMemory;
use rim_accepted::AuditFault;
use rim_manifest::ManifestFault;
use rim_pages::StartFault;
use rim_show::ShowFault;

/// Why a run fails, apart from the words of its command line.
#[derive(Clone, Copy, Debug, PartialEq, Eq)]
pub enum Fault {
    Manifest(ManifestFault),
    /// No launch of the manifest has the name.
    NoSuchLaunch,
    Start(StartFault),
    /// The launch is refused, so it has no devicetree to give.
    Refused(AuditFault),
    /// The launch has no devicetree.
    NoDevicetree,
    Show(ShowFault),
    /// A file cannot be opened or read.
    FileUnreadable,
    /// A file has more bytes than the limit.
    FileTooLarge,
    /// The output is a terminal, and is to be bytes that are no text.
    OutputIsTerminal,
    /// The output cannot be written.
    OutputFailed,
    NoMemory,
}

impl From<NoMemory> for Fault {
    ghost from_gives = { λ _ e. e ≡ fault.NoMemory };

    fn from(_error: NoMemory) -> Fault {
        Fault::NoMemory
    }
}

impl Fault {
    /// The word that the fault is printed as.
    pub fn kind(&self) -> &'static str
        ensures { result.now ≡ word_of self.now }
    {
        match self {
            Fault::Manifest(fault) => fault.kind(),
            Fault::Start(fault) => fault.kind(),
            Fault::Refused(fault) => fault.kind(),
            Fault::Show(fault) => fault.kind(),
            Fault::NoSuchLaunch => "no-such-launch",
            Fault::NoDevicetree => "no-devicetree",
            Fault::FileUnreadable => "file-unreadable",
            Fault::FileTooLarge => "file-too-large",
            Fault::OutputIsTerminal => "output-is-terminal",
            Fault::OutputFailed => "output-failed",
            Fault::NoMemory => "no-memory",
        }
    }

    /// The exit status: 4 for want of memory, 3 for all else.
    pub fn status(&self) -> u8
        ensures value { result ≡ status_of self.now }
        ensures known { (3 ≤ result) × (result ≤ 4) }
    {
        match self {
            Fault::NoMemory
            | Fault::Manifest(ManifestFault::NoMemory)
            | Fault::Start(StartFault::NoMemory)
            | Fault::Refused(AuditFault::NoMemory)
            | Fault::Show(ShowFault::NoMemory) => 4,
            _ => 3,
        }
    }
}
