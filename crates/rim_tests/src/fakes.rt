//! Files, readers and writers for the runs of the tests.
use rim_cli::{FreeGate, Opener, Patient, Terminals, run};
use std::io;
use std::io::{ErrorKind, Read, Write};
use std::process::Abort;
use std::sync::Wait;
use std::thread::Threads;

pub const SMALLEST: &[u8] =
    b"rim_manifest = 1\n[[launch]]\nname = \"small\"\nalgo = \"sha256\"\ns2sz = 33\n";

pub const SMALLEST_REPORT: &[u8] = b"rim-report 1
small sha256 bf97de388b1abb45577017aa8a9a8d1f160889b11df8e5803e2bf9d8a33e788c
pages 0
";

/// An item of two pages in a launch of each algorithm. Its file has the bytes `NINES`.
pub const BOTH: &str = "rim_manifest = 1
[[file]]
name = \"f\"
path = \"f\"
[[launch]]
name = \"a\"
algo = \"sha256\"
s2sz = 33
ram = [[0x40000000, 0x40200000]]
item = [{ name = \"x\", kind = \"raw\", file = \"f\", at = 0x40000000 }]
[[launch]]
name = \"b\"
algo = \"sha512\"
s2sz = 33
ram = [[0x40000000, 0x40200000]]
item = [{ name = \"x\", kind = \"raw\", file = \"f\", at = 0x40000000 }]
";

pub const NINES: [u8; 8192] = [9; 8192];

/// Its report.
pub const BOTH_REPORT: &[u8] = b"rim-report 1
a sha256 3c164e2ebad41032c05df5ab32f9adbae4dda06b1bf42fc84e84c38758357f94
b sha512 aafc034290411693d8f71eeb82a11e6b827ef0ac1627565407ae25c64c98ae40b24a7e1fffe7e8e20fca296299e840a5639d56ee845260ac0bc046df99a5a72c
pages 4
";

/// One file of these bytes, at every path.
#[derive(Drop)]
pub struct OneFile(pub &'static [u8]);

impl Opener for OneFile {
    type Reader = &'static [u8];

    fn open(&mut self, _path: &str) -> Option<&'static [u8]> {
        Some(self.0)
    }
}

/// What a run gave.
#[derive(Drop)]
pub struct Ran {
    pub status: u8,
    pub out: Vec<u8>,
    pub err: Vec<u8>,
}

/// No stream of a run is a terminal.
pub const NO_TERMINALS: Terminals = Terminals {
    out: false,
    err: false,
};

/// A run on some words over some files, where no stream is a terminal.
pub fn run_on<O: Opener>(
    rt: &(impl AllocGlobal + Threads + Wait + Sync),
    words: &[&str],
    files: &mut O,
) -> Ran {
    run_at(rt, words, NO_TERMINALS, files)
}

/// A run on some words over some files, where these streams are terminals.
pub fn run_at<O: Opener>(
    rt: &(impl AllocGlobal + Threads + Wait + Sync),
    words: &[&str],
    terminals: Terminals,
    files: &mut O,
) -> Ran {
    let (alloc, gate) = (rt.alloc(), &mut FreeGate);
    let mut out = Vec::new(alloc);
    let mut err = Vec::new(alloc);
    let status = run(rt, alloc, gate, words, terminals, files, &mut out, &mut err);
    Ran { status, out, err }
}

/// A run ended with this status, and wrote this to standard output and this to standard error. The tests
/// compare here alone, because each comparison is proved.
pub fn check(rt: &(impl Abort + AllocGlobal), ran: &Ran, status: u8, out: &[u8], err: &[u8]) {
    let found = (ran.status, ran.out.as_slice(), ran.err.as_slice());
    assert_eq!(rt; found, (status, out, err));
}

/// A reader that gives at most 100 bytes a read, and fails where it has no read left.
#[derive(Drop)]
pub struct FailingReader {
    text: &'static [u8],
    reads_left: u8,
    kind: ErrorKind,
}

impl Read for FailingReader {
    fn read(&mut self, buf: &mut [u8]) -> io::Result<usize> {
        if self.reads_left == 0 {
            return Err(io::Error::from(self.kind));
        }
        self.reads_left -= 1;
        let size = buf.len().min(100);
        self.text.read(&mut buf[..size])
    }
}

/// What a file does that fails.
#[derive(Clone, Copy)]
pub enum Failing {
    /// It is not opened.
    Open,
    /// Its reader fails after this many reads, with this kind of error.
    Read(u8, ErrorKind),
}

/// The release `BOTH` and its file, of which the one that is opened as this number fails: the manifest is 0, and its file 1.
#[derive(Drop)]
pub struct FailingFiles {
    opened: u8,
    number: u8,
    failing: Failing,
}

impl FailingFiles {
    pub fn new(number: u8, failing: Failing) -> FailingFiles {
        FailingFiles {
            opened: 0,
            number,
            failing,
        }
    }

    /// None of them fails.
    pub fn none() -> FailingFiles {
        FailingFiles::new(2, Failing::Open)
    }
}

impl Opener for FailingFiles {
    type Reader = Patient<FailingReader>;

    fn open(&mut self, path: &str) -> Option<Patient<FailingReader>> {
        let is_failing = self.opened == self.number;
        self.opened = self.opened.saturating_add(1);
        let text: &'static [u8] = if path == "f" { &NINES } else { BOTH.as_bytes() };
        let (reads_left, kind) = match self.failing {
            Failing::Open if is_failing => return None,
            Failing::Read(reads, kind) if is_failing => (reads, kind),
            _ => (u8::MAX, ErrorKind::Other),
        };
        Some(Patient::new(FailingReader {
            text,
            reads_left,
            kind,
        }))
    }
}

/// A reader of which this many reads in a row are interrupted before each one that is not.
#[derive(Drop)]
pub struct InterruptedReader {
    pub in_a_row: u32,
    pub left: u32,
    pub text: &'static [u8],
}

impl Read for InterruptedReader {
    fn read(&mut self, buf: &mut [u8]) -> io::Result<usize> {
        if self.left > 0 {
            self.left -= 1;
            return Err(io::Error::from(ErrorKind::Interrupted));
        }
        self.left = self.in_a_row;
        self.text.read(buf)
    }
}

/// Opens every path as the smallest manifest with this many interruptions in a row.
#[derive(Drop)]
pub struct InterruptedFiles(pub u32);

impl Opener for InterruptedFiles {
    type Reader = Patient<InterruptedReader>;

    fn open(&mut self, _path: &str) -> Option<Patient<InterruptedReader>> {
        Some(Patient::new(InterruptedReader {
            in_a_row: self.0,
            left: self.0,
            text: SMALLEST,
        }))
    }
}

/// A writer that takes 10 bytes a write, and fails at one of its writes.
#[derive(Drop)]
pub struct FailingWriter {
    pub writes_left: u8,
}

impl Write for FailingWriter {
    fn write(&mut self, buf: &[u8]) -> io::Result<usize> {
        if self.writes_left == 0 {
            return Err(io::Error::from(ErrorKind::WriteZero));
        }
        self.writes_left -= 1;
        Ok(buf.len().min(10))
    }

    fn flush(&mut self) -> io::Result<()> {
        Ok(())
    }
}

/// A writer that takes all, and fails with this kind of error when it is flushed.
#[derive(Drop)]
pub struct FailingFlush(pub ErrorKind);

impl Write for FailingFlush {
    fn write(&mut self, buf: &[u8]) -> io::Result<usize> {
        Ok(buf.len())
    }

    fn flush(&mut self) -> io::Result<()> {
        Err(io::Error::from(self.0))
    }
}
