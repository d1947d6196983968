//! A caller of the library: it reads a release, measures it by four workers, lists its first launch and replays that listing.
#![tactic(auto)]

ghost use Rattle.std.specs.Prelude.{◌≡◌, length, vec_len};

use anyhow::Result;
use rim_release::{Files, FreeGate, Release, listing, measure_release, read_manifest, replay};
use std::sync::Wait;
use std::thread::Threads;

/// A launch of one vCPU, with a file of two pages.
const MANIFEST: &[u8] = b"
rim_manifest = 2
file = [{ name = 'data', path = 'data' }]
[[launch]]
name = 'guest'
algo = 'sha256'
s2sz = 40
ram = [[0x40000000, 0x40200000]]
item = [{ name = 'data', kind = 'raw', file = 'data', at = 0x40000000 }]
rec = [{ pc = 0x40000000 }]
";

fn main(rt: HostRuntime) -> Result<()> {
    let alloc = rt.alloc();
    let release = read_manifest(alloc, MANIFEST)?;
    // the library opens no file: whoever calls it hands in the bytes of each, in the manifest's order
    let files = vec![in alloc; vec![in alloc; 9; 8_192]?; release.file_count()]?;
    show(&rt, &release, &files)
}

/// Prints the report of a release, and the listing of its first launch, of which a replay says that it is what it says.
fn show<R: Threads + Wait + Sync + Print + AllocGlobal>(
    rt: &R,
    release: &Release,
    files: &Files,
) -> Result<()>
    requires { vec_len files.now ≡ length release.now.paths }
{
    let outcome = measure_release(rt, rt.alloc(), &mut FreeGate, release, files, 4)?;
    print(rt, outcome.report.as_slice())?;
    if release.launches() > 0 {
        let text = listing(rt.alloc(), release, files, 0)?;
        print(rt, text.as_slice())?;
        let is_confirmed = replay(rt.alloc(), text.as_slice()).is_ok();
        println!(rt; "confirmed: {is_confirmed}")?;
    }
    Ok(())
}

/// Prints a text of ASCII.
fn print<R: Print>(rt: &R, text: &[u8]) -> Result<()> {
    let text = str::from_utf8(text)?;
    print!(rt; "{text}")?;
    Ok(())
}
