//! A run of the program over a manifest in memory, whose bytes are known.
ghost use Rattle.std.specs.Prelude.{◌≡◌, ◌≤◌, [], ◌++◌, Err, IsOkAnd, None, Ok, Some, codes, if◌then◌else◌};
ghost use Rattle.std.specs.Str.{bytes_eq};
ghost use Rattle.rim_manifest.specs.Launches.{ReleaseData};
ghost use Rattle.rim_manifest.specs.Manifest.{manifest_of};
ghost use Rattle.rim_manifest.specs.declared.fault.ManifestFault.{ManifestFault};
ghost use Rattle.rim_accepted.specs.Lines.{has_refused};
ghost use Rattle.rim_report.specs.Report.{measured_of};

use crate::program::{Terminals, run};
use job_workers::FreeGate;
use rim_files::Opener;
use std::alloc::Global;
use std::sync::Wait;
use std::thread::Threads;

/// A manifest in memory, at the path `manifest.toml`. No other file exists.
#[derive(Drop)]
struct InMemory<'a> {
    manifest: &'a [u8],
}

impl<'a> Opener for InMemory<'a> {
    ghost held = { λ m path. Some
        (if bytes_eq path (codes "manifest.toml") then Some m.manifest.now else None) };

    type Reader = &'a [u8];

    fn open(&mut self, path: &str) -> Option<&'a [u8]> {
        if path == "manifest.toml" {
            Some(self.manifest)
        } else {
            None
        }
    }
}

/// Runs `rim measure manifest.toml` on a manifest in memory. Where its launches name no file, statuses 0 and 1 say that
/// their report was added to `out`, and which of both it is. A manifest with a fault ends with 3 or 4, and `out` is as
/// it was. No program calls it.
pub fn measure_in_memory<R: Threads + Wait + Sync>(
    rt: &R,
    alloc: Global,
    manifest: &[u8],
    out: &mut Vec<u8>,
    err: &mut Vec<u8>,
) -> u8
    ensures known { result ≤ 4 }
    ensures report { (r : ReleaseData) → manifest_of manifest.now ≡ Ok r → r.paths ≡ [] → result ≤ 1
        → IsOkAnd (measured_of [] r.launches) (λ text. out.new.items ≡ out.old.items ++ text) }
    ensures status { (r : ReleaseData) → manifest_of manifest.now ≡ Ok r → r.paths ≡ [] → result ≤ 1
        → result ≡ (if has_refused [] r.launches then 1 else 0) }
    ensures refused { (f : ManifestFault) → manifest_of manifest.now ≡ Err f
        → (3 ≤ result) × (out.new.items ≡ out.old.items) }
{
    let words = ["rim", "measure", "manifest.toml"];
    let terminals = Terminals {
        out: false,
        err: false,
    };
    let opener = &mut InMemory { manifest };
    run(
        rt,
        alloc,
        &mut FreeGate,
        &words,
        terminals,
        opener,
        out,
        err,
    )
}
