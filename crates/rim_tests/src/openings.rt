//! The files of a manifest are opened once each in its order, up to the first that cannot be read.
use super::fakes::run_on;
use rim_cli::{Opener, Patient};
use std::io;
use std::io::Read;
use std::process::Abort;
use std::sync::Wait;
use std::thread::Threads;

/// A text, and zeros after it.
#[derive(Drop)]
struct Padded {
    text: &'static [u8],
    zeros: u64,
}

impl Read for Padded {
    fn read(&mut self, buf: &mut [u8]) -> io::Result<usize> {
        if !self.text.is_empty() {
            return self.text.read(buf);
        }
        let count = self.zeros.min(buf.len() as u64);
        self.zeros -= count;
        buf[..count as usize].fill(0);
        Ok(count as usize)
    }
}

/// A manifest, and files of zeros whose paths are the numbers of their bytes. It keeps the paths that were opened, each with
/// a space.
#[derive(Drop)]
struct Zeros {
    manifest: &'static [u8],
    opened: String,
}

impl Opener for Zeros {
    type Reader = Patient<Padded>;

    fn open(&mut self, path: &str) -> Option<Patient<Padded>> {
        let _ = self.opened.push_str(path);
        let _ = self.opened.push_str(" ");
        if path == "manifest.toml" {
            return Some(Patient::new(Padded {
                text: self.manifest,
                zeros: 0,
            }));
        }
        let zeros = path.parse::<u64>().ok()?;
        Some(Patient::new(Padded { text: b"", zeros }))
    }
}

/// A manifest, and the paths that are opened.
type Row = (&'static [u8], &'static str);

const ROWS: [Row; 6] = [
    (b"rim_manifest = 1\n", "manifest.toml "),
    (
        b"rim_manifest = 1\nfile = [{name = 'a', path = '3'}, {name = 'b', path = '0'}, {name = 'c', path = '3'}, {name = 'd', path = '2'}]\n",
        "manifest.toml 3 0 3 2 ",
    ),
    (
        b"rim_manifest = 1\nfile = [{name = 'a', path = '1'}, {name = 'b', path = 'missing'}, {name = 'c', path = '2'}]\n",
        "manifest.toml 1 missing ",
    ),
    (
        b"rim_manifest = 1\nfile = [{name = 'a', path = 'missing'}]\n",
        "manifest.toml missing ",
    ),
    (
        b"rim_manifest = 1\nfile = [{name = 'a', path = 'missing'}, {name = 'b', path = '268435457'}]\n",
        "manifest.toml missing ",
    ),
    (
        b"rim_manifest = 1\nfile = [{name = 'a', path = '1'}, {name = 'b', path = 'manifest.toml'}]\n",
        "manifest.toml 1 manifest.toml ",
    ),
];

/// The paths that a run on this manifest opens.
fn opened(rt: &(impl AllocGlobal + Threads + Wait + Sync), manifest: &'static [u8]) -> String {
    let mut files = Zeros {
        manifest,
        opened: String::new(rt.alloc()),
    };
    let _ = run_on(rt, &["rim", "measure", "manifest.toml"], &mut files);
    files.opened
}

/// A run on the manifest of this row opens its paths.
fn check_row(rt: &(impl Abort + AllocGlobal + Threads + Wait + Sync), row: &Row) {
    assert_eq!(rt; opened(rt, row.0).as_str(), row.1);
}

#[test]
fn files_in_their_order(rt: HostRuntime) {
    for row in &ROWS {
        check_row(&rt, row);
    }
}

/// A file without an end, and one after it.
const TOO_LARGE: Row = (
    b"rim_manifest = 1\nfile = [{name = 'a', path = '18446744073709551615'}, {name = 'b', path = 'missing'}]\n",
    "manifest.toml 18446744073709551615 ",
);

#[test]
fn nothing_after_a_file_too_large(rt: HostRuntime) {
    check_row(&rt, &TOO_LARGE);
}
