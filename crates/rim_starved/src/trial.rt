//! A call, made with ample memory, made where memory may be refused, and made again with ample memory.

use refusal::NoMemory;
use shown_text::Remark;
use std::alloc::{AllocError, AllocFailed, Global};
use std::io;

/// Why a trial says nothing.
#[derive(Clone, Copy, Debug)]
pub enum Fault {
    /// Memory was refused outside the call that is tried, or what it is given is none of its inputs.
    Input,
    /// Want of memory has changed what the call works on, or the same call does not answer after it.
    Changed,
    /// The result cannot be written.
    Output,
}

impl From<AllocError> for Fault {
    fn from(_error: AllocError) -> Fault {
        Fault::Input
    }
}

impl<T: Drop> From<AllocFailed<T>> for Fault {
    fn from(_error: AllocFailed<T>) -> Fault {
        Fault::Input
    }
}

impl From<NoMemory> for Fault {
    fn from(_error: NoMemory) -> Fault {
        Fault::Input
    }
}

impl From<io::Error> for Fault {
    fn from(_error: io::Error) -> Fault {
        Fault::Output
    }
}

/// What a call answered: a digest of all that it gave or of its fault; `None` where that is want of memory.
pub type Seen = Option<u64>;

/// What a call shows that answered so with ample memory, where memory may have been refused, and with ample memory again:
/// `answered`, or `no-memory`; or else `wrong`.
pub fn word(wanted: Seen, tried: Seen, again: Seen) -> &'static str {
    if wanted.is_none() || again != wanted {
        return "wrong";
    }
    match tried {
        None => "no-memory",
        Some(_) if tried == wanted => "answered",
        Some(_) => "wrong",
    }
}

/// Where a call is made, and whether it is the one whose requests for memory may be refused.
#[derive(Drop)]
pub struct Trial<'a, R> {
    pub rt: &'a R,
    pub is_tried: bool,
}

impl<R: Print> Trial<'_, R> {
    /// Says that the call comes, where it is the one that is tried. Whoever refuses requests for memory counts from here on.
    pub fn begin(&self) -> Result<(), Fault> {
        self.say("call")
    }

    /// Says that the call has returned.
    pub fn end(&self) -> Result<(), Fault> {
        self.say("returned")
    }

    /// Prints a line, where the call is the one that is tried.
    pub fn say(&self, line: &str) -> Result<(), Fault> {
        let rt = self.rt;
        if self.is_tried {
            println!(rt; "{line}")?;
        }
        Ok(())
    }
}

/// A digest of bytes: FNV-1a of 64 bits.
pub fn digest(bytes: &[u8]) -> u64 {
    let mut value = 0xcbf2_9ce4_8422_2325_u64;
    for byte in bytes {
        value = (value ^ u64::from(*byte)).wrapping_mul(0x100_0000_01b3);
    }
    value
}

/// The digest of a text that a call answers.
pub fn text_digest(_alloc: Global, text: &Vec<u8>) -> Result<u64, AllocError> {
    Ok(digest(text.as_slice()))
}

/// The digest of remarks that a call answers.
pub fn remarks_digest(alloc: Global, remarks: &[Remark]) -> Result<u64, AllocError> {
    let mut text = Vec::new(alloc);
    for remark in remarks {
        remark.push_to(&mut text)?;
        text.push(b'\n')?;
    }
    Ok(digest(&text))
}

/// A call, between the two lines that are said around it.
macro_rules! made {
    ($trial:expr, $call:expr) => {{
        $trial.begin()?;
        let answer = $call;
        $trial.end()?;
        answer
    }};
}

pub(crate) use made;

/// What such a call answers. `$shown` makes a digest of what it gives, and `$no_memory` is its want of memory.
macro_rules! tried {
    ($trial:expr, $call:expr => $shown:expr, NoMemory) => {
        match $crate::trial::made!($trial, $call) {
            Ok(given) => Ok(Some($shown($trial.rt.alloc(), &given)?)),
            Err(NoMemory) => Ok(None),
        }
    };
    ($trial:expr, $call:expr => $shown:expr, $no_memory:pat) => {
        match $crate::trial::made!($trial, $call) {
            Ok(given) => Ok(Some($shown($trial.rt.alloc(), &given)?)),
            Err($no_memory) => Ok(None),
            Err(fault) => {
                let shown = format!(in $trial.rt.alloc(); "{fault:?}")?;
                Ok(Some($crate::trial::digest(shown.as_bytes())))
            }
        }
    };
}

pub(crate) use tried;
