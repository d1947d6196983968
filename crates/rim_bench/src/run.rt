//! A job, done through the public calls of rim.
use crate::contents::{bytes, image};
use crate::digest::Digest;
use crate::job::{Job, Shape};
use crate::manifest::manifest;
use rim_release::{
    Files, Gate, JobId, Lanes, LoadedRelease, audit_with_gate, list_launch, measure_release,
    outcome_alone, read_manifest, replay,
};
use std::alloc::{AllocError, Global};
use std::sync::Wait;
use std::thread::Threads;

/// Why a job was not done.
#[derive(Clone, Copy, Debug)]
pub enum Fault {
    NoMemory,
    /// A call refused what it was given.
    Refused,
    Output,
}

impl From<AllocError> for Fault {
    fn from(_error: AllocError) -> Fault {
        Fault::NoMemory
    }
}

/// A gate that does nothing but say how many lanes there are.
#[derive(Drop)]
struct LanesGate {
    lanes: Lanes,
}

impl Gate for LanesGate {
    fn before(&self, _worker: usize, _job: JobId) {}

    fn after(&self, _worker: usize, _job: JobId) {}

    fn lets_launches_wait(&self) -> bool {
        true
    }

    fn lanes(&self) -> Lanes {
        self.lanes
    }
}

/// How many workers measure, which is the program's default.
const WORKERS: usize = 4;

/// Does a job on a release of a shape, and digests its results.
pub fn run<R: Threads + Wait + Sync>(
    rt: &R,
    alloc: Global,
    job: Job,
    shape: &Shape,
    seed: u32,
    lanes: Lanes,
    devicetree: &[u8],
) -> Result<Digest, Fault> {
    let text = manifest(alloc, shape, !devicetree.is_empty())?;
    let files = files(alloc, shape, seed, devicetree)?;
    let release = read_manifest(alloc, text.as_bytes()).map_err(|_| Fault::Refused)?;
    if files.len() != release.file_count() {
        return Err(Fault::Refused);
    }
    let mut gate = LanesGate { lanes };
    let mut found = Digest::EMPTY;
    let loaded = LoadedRelease::new(&release, &files);
    match job {
        Job::Audit => {
            let report = audit_with_gate(alloc, &gate, loaded).map_err(|_| Fault::NoMemory)?;
            found.add(report.text.as_slice());
        }
        Job::List => listed(alloc, lanes, loaded, &mut found)?,
        Job::Guest => {
            let outcome = outcome_alone(alloc, lanes, &release, &files);
            found.add(outcome.map_err(|_| Fault::Refused)?.report.as_slice());
        }
        Job::Release | Job::Recs | Job::Alike => {
            let outcome = measure_release(rt, alloc, &mut gate, &release, &files, WORKERS);
            found.add(outcome.map_err(|_| Fault::Refused)?.report.as_slice());
        }
    }
    Ok(found)
}

fn files(alloc: Global, shape: &Shape, seed: u32, devicetree: &[u8]) -> Result<Files, AllocError> {
    let seed = u64::from(seed) << 16;
    let mut files = Vec::new(alloc);
    for n in 0..shape.kernels {
        files.push(image(alloc, seed.wrapping_add(n), shape.kernel_size)?)?;
    }
    for n in 0..shape.initrds {
        let own = seed.wrapping_add(256).wrapping_add(n);
        files.push(bytes(alloc, own, shape.initrd_size)?)?;
    }
    if !devicetree.is_empty() {
        files.push(Vec::from_slice(alloc, devicetree)?)?;
    }
    Ok(files)
}

/// The listing of each launch, and whether its replay confirms it.
fn listed(
    alloc: Global,
    lanes: Lanes,
    loaded: LoadedRelease<'_>,
    found: &mut Digest,
) -> Result<(), Fault> {
    for i in 0..loaded.release.launches() {
        let Ok(Ok(listing)) = list_launch(alloc, lanes, loaded.launch(i)) else {
            return Err(Fault::Refused);
        };
        found.add(listing.as_slice());
        if replay(alloc, listing.as_slice()).is_err() {
            return Err(Fault::Refused);
        }
    }
    Ok(())
}
