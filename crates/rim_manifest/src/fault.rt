//! Why a manifest is refused.
ghost use Rattle.std.specs.Prelude.{◌≡◌};
ghost use Rattle.rim_manifest.specs.declared.fault.ManifestFault.TheVariants as fault;
ghost use Rattle.rim_manifest.specs.Faults.{is_lower, kind_of, lower};

use refusal::NoMemory;
use std::alloc::AllocError;
use std::fmt;
use thiserror::Error;

/// Why a manifest is refused. Of the faults that hold anywhere in it the first of this list is
/// answered.
#[derive(Clone, Copy, Debug, PartialEq, Eq, Error)]
pub enum ManifestFault {
    /// The bytes are not UTF-8, or are no TOML document.
    Syntax,
    /// `rim_manifest` is not given or is neither of the whole numbers 1 and 2.
    Version,
    /// A known key holds another kind of value.
    WrongKind,
    /// A table has a key that its format does not list.
    UnknownKey,
    /// A required key is not given, a devicetree asks for an initrd or for RAM that the launch lacks, or in version 2 a
    /// launch with a REC that is not runnable gives no `rec_rule`.
    MissingKey,
    /// A list is longer than its limit.
    Limit,
    /// A value is outside its range or form.
    Range,
    /// Two files, two launches or two items of a launch share a name, or two items a kind other than raw and unknown.
    TwoNames,
    /// An item's `file` names no file.
    NoSuchFile,
    /// A text of `steps` is no step, or the steps do not name each thing once.
    BadStep,
    /// The allocator refused a growth.
    NoMemory,
}

impl From<AllocError> for ManifestFault {
    ghost from_gives = { λ _ e. e ≡ fault.NoMemory };

    fn from(_error: AllocError) -> ManifestFault {
        ManifestFault::NoMemory
    }
}

impl From<NoMemory> for ManifestFault {
    ghost from_gives = { λ _ e. e ≡ fault.NoMemory };

    fn from(_error: NoMemory) -> ManifestFault {
        ManifestFault::NoMemory
    }
}

impl ManifestFault {
    /// The fault's word, lower case with hyphens, as the program prints it.
    pub fn kind(&self) -> &'static str
        ensures { result.now ≡ kind_of self.now }
    {
        match self {
            ManifestFault::Syntax => "syntax",
            ManifestFault::Version => "version",
            ManifestFault::WrongKind => "wrong-kind",
            ManifestFault::UnknownKey => "unknown-key",
            ManifestFault::MissingKey => "missing-key",
            ManifestFault::Limit => "limit",
            ManifestFault::Range => "range",
            ManifestFault::TwoNames => "two-names",
            ManifestFault::NoSuchFile => "no-such-file",
            ManifestFault::BadStep => "bad-step",
            ManifestFault::NoMemory => "no-memory",
        }
    }
}

impl fmt::Display for ManifestFault {
    fn fmt<W: fmt::Write>(&self, f: &mut fmt::Formatter<W>) -> fmt::Result {
        f.write_str(self.kind())
    }
}

/// Keeps the lower of what was found so far and one more fault.
#[tactic(auto, unfolding(crate::specs::Faults::lower))]
pub fn lower(found: &mut Option<ManifestFault>, fault: ManifestFault)
    ensures { found.new ≡ lower found.old fault }
{
    match found {
        Some(least) if *least as u8 <= fault as u8 => {}
        _ => *found = Some(fault),
    }
}

/// Whether a fault comes before what was found so far.
pub fn is_lower(fault: ManifestFault, found: Option<ManifestFault>) -> bool
    ensures { result ≡ is_lower fault found }
{
    match found {
        Some(least) => (fault as u8) < least as u8,
        None => true,
    }
}
