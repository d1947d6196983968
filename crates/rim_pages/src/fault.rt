//! Why the measuring of a release does not start.
ghost use Rattle.std.specs.Prelude.{◌≡◌};
ghost use Rattle.rim_pages.specs.Faults.{start_kind_of};
ghost use Rattle.rim_pages.specs.declared.fault.StartFault.TheVariants as start;

use refusal::NoMemory;
use std::alloc::AllocError;
use std::fmt;
use thiserror::Error;

/// Why the measuring of a release does not start.
#[derive(Clone, Copy, Debug, PartialEq, Eq, Error)]
pub enum StartFault {
    /// The number of workers is not 1 to 64.
    Workers,
    /// The launches that are accepted have more than 1,048,576 different measured pages.
    TooManyPages,
    /// The allocator refused a growth.
    NoMemory,
}

impl From<NoMemory> for StartFault {
    ghost from_gives = { λ _ e. e ≡ start.NoMemory };

    fn from(_error: NoMemory) -> StartFault {
        StartFault::NoMemory
    }
}

impl From<AllocError> for StartFault {
    ghost from_gives = { λ _ e. e ≡ start.NoMemory };

    fn from(_error: AllocError) -> StartFault {
        StartFault::NoMemory
    }
}

impl StartFault {
    /// The fault's word, lower case with hyphens, as the program prints it.
    pub fn kind(&self) -> &'static str
        ensures { result.now ≡ start_kind_of self.now }
    {
        match self {
            StartFault::Workers => "workers",
            StartFault::TooManyPages => "too-many-pages",
            StartFault::NoMemory => "no-memory",
        }
    }
}

impl fmt::Display for StartFault {
    fn fmt<W: fmt::Write>(&self, f: &mut fmt::Formatter<W>) -> fmt::Result {
        f.write_str(self.kind())
    }
}
