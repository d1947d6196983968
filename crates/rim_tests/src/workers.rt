//! Reports made by workers: each is that of one thread, whoever does which job.
use super::fakes::{BOTH, NINES, NO_TERMINALS, SMALLEST};
use rim_cli::{Opener, run};
use rim_release::{
    FreeGate, Gate, JobId, Outcome, StartFault, audit_report, measure_alone, measure_release,
    read_manifest,
};
use std::alloc::Global;
use std::process::Abort;
use std::sync::Wait;
use std::sync::atomic::{AtomicU64, Ordering};
use std::test::Fail;
use std::thread;
use std::thread::Threads;

/// Two launches of one item of two pages, with both algorithms, one that is refused, and one without items.
const LAUNCHES: &str = "rim_manifest = 1
[[file]]
name = \"f\"
path = \"f\"
[[launch]]
name = \"a\"
algo = \"sha256\"
s2sz = 33
ram = [[0x40000000, 0x40200000]]
item = [{ name = \"x\", kind = \"raw\", file = \"f\", at = 0x40000000 }]
[[launch]]
name = \"b\"
algo = \"sha512\"
s2sz = 33
ram = [[0x40000000, 0x40200000]]
item = [{ name = \"x\", kind = \"raw\", file = \"f\", at = 0x40000000 }]
[[launch]]
name = \"c\"
algo = \"sha256\"
s2sz = 33
item = [{ name = \"x\", kind = \"raw\", file = \"f\", at = 0x40000000 }]
[[launch]]
name = \"d\"
algo = \"sha256\"
s2sz = 33
";

/// How many jobs there are: four pages and three launches.
const JOBS: u64 = 7;

/// Four pages and two launches, once each.
const SIX_ONCE: u64 = 0x101_0101_0101;

/// Four pages and three launches, once each.
const SEVEN_ONCE: u64 = 0x1_0101_0101_0101;

/// A count of 1 of this job in a byte of its own, four pages and then the launches. What is no job has a byte above all others.
fn one_of(job: JobId) -> u64 {
    let number = match job {
        JobId::Page(page) => page,
        JobId::Launch(launch) => launch.saturating_add(4),
    };
    1 << (8 * number.min(7))
}

/// Holds the first page until two others were put, for a number of turns. It counts the calls before and after each
/// job, the pages that were begun, and the calls after pages for worker 0 and for the others. Pages are given whether or not
/// launches may wait.
#[derive(Drop)]
struct Hold {
    begun: AtomicU64,
    pages_begun: AtomicU64,
    ended: AtomicU64,
    first: AtomicU64,
    others: AtomicU64,
    in_vain: AtomicU64,
    lets_wait: bool,
}

/// How often it looks for the pages that were put.
const TURNS: u64 = 100_000_000;

impl Hold {
    fn new(lets_wait: bool) -> Hold {
        Hold {
            begun: AtomicU64::new(0),
            pages_begun: AtomicU64::new(0),
            ended: AtomicU64::new(0),
            first: AtomicU64::new(0),
            others: AtomicU64::new(0),
            in_vain: AtomicU64::new(0),
            lets_wait,
        }
    }

    /// How many calls there were before and after each job, and how often the first page was held in vain.
    fn calls(&self) -> (u64, u64, u64) {
        (
            self.begun.load(Ordering::SeqCst),
            self.ended.load(Ordering::SeqCst),
            self.in_vain.load(Ordering::SeqCst),
        )
    }

    /// How many pages worker 0 has put, and how many the others.
    fn pages(&self) -> (u64, u64) {
        (
            self.first.load(Ordering::SeqCst),
            self.others.load(Ordering::SeqCst),
        )
    }
}

impl Gate for Hold {
    fn before(&self, _worker: usize, job: JobId) {
        self.begun.fetch_add(one_of(job), Ordering::SeqCst);
        let JobId::Page(_) = job else {
            return;
        };
        if self.pages_begun.fetch_add(1, Ordering::SeqCst) > 0 {
            return;
        }
        for _turn in 0..TURNS {
            let (first, others) = self.pages();
            if first.saturating_add(others) > 1 {
                return;
            }
            thread::yield_now();
        }
        self.in_vain.fetch_add(1, Ordering::SeqCst);
    }

    fn after(&self, worker: usize, job: JobId) {
        self.ended.fetch_add(one_of(job), Ordering::SeqCst);
        let JobId::Page(_) = job else {
            return;
        };
        let count = if worker == 0 {
            &self.first
        } else {
            &self.others
        };
        count.fetch_add(1, Ordering::SeqCst);
    }

    fn lets_launches_wait(&self) -> bool {
        self.lets_wait
    }
}

/// The part of an outcome that does not borrow its release.
#[derive(Drop)]
struct Ran {
    report: Vec<u8>,
    has_refused: bool,
    pages: u64,
    shares: Vec<u64>,
    started: usize,
}

/// The run of this many workers on a manifest, all of whose files are the same.
fn measured<G: Gate + Sync>(
    rt: &(impl AllocGlobal + Threads + Wait + Sync),
    gate: &mut G,
    manifest: &[u8],
    workers: usize,
) -> Result<Ran, Fail> {
    let alloc = rt.alloc();
    let release = read_manifest(alloc, manifest)?;
    let files = vec![in alloc; NINES.to_vec(alloc)?; release.file_count()]?;
    let outcome = measure_release(rt, alloc, gate, &release, &files, workers)?;
    let Outcome {
        report,
        has_refused,
        pages,
        shares,
        started,
        ..
    } = outcome;
    Ok(Ran {
        report,
        has_refused,
        pages,
        shares,
        started,
    })
}

/// The report of the same manifest by one thread.
fn alone(alloc: Global, manifest: &[u8]) -> Result<Vec<u8>, Fail> {
    let release = read_manifest(alloc, manifest)?;
    let files = vec![in alloc; NINES.to_vec(alloc)?; release.file_count()]?;
    Ok(measure_alone(alloc, &release, &files)?)
}

/// Its audit, in which a monitor is given the commands of each launch.
fn audited(alloc: Global, manifest: &[u8]) -> Result<Vec<u8>, Fail> {
    let release = read_manifest(alloc, manifest)?;
    let files = vec![in alloc; NINES.to_vec(alloc)?; release.file_count()]?;
    Ok(audit_report(alloc, &release, &files)?)
}

/// Whether the gate lets launches wait, the manifest, a count of 1 of each job, and whether a launch is refused.
const RUNS: [(bool, &str, u64, bool); 4] = [
    (false, BOTH, SIX_ONCE, false),
    (false, LAUNCHES, SEVEN_ONCE, true),
    (true, BOTH, SIX_ONCE, false),
    (true, LAUNCHES, SEVEN_ONCE, true),
];

/// A run of two workers has done each job once, and each worker's number of pages is its own. Its report is that of one
/// thread.
fn check_two(
    rt: &(impl Abort + AllocGlobal + Threads + Wait + Sync),
    manifest: &[u8],
    once: u64,
    has_refused: bool,
    lets_wait: bool,
) -> Result<(), Fail> {
    let mut gate = Hold::new(lets_wait);
    let outcome = measured(rt, &mut gate, manifest, 2)?;
    let found = (outcome.started, outcome.pages, outcome.has_refused);
    assert_eq!(rt; found, (2, 4, has_refused));
    assert_eq!(rt; gate.calls(), (once, once, 0));
    let (first, others) = gate.pages();
    assert_eq!(rt; outcome.shares.as_slice(), [first, others].as_slice());
    assert!(rt; first > 0 && others > 0);
    let report = alone(rt.alloc(), manifest)?;
    assert_eq!(rt; outcome.report.as_slice(), report.as_slice());
    Ok(())
}

#[test]
fn two_workers_at_a_time(rt: HostRuntime) -> Result<(), Fail> {
    for (lets_wait, manifest, once, has_refused) in RUNS {
        check_two(&rt, manifest.as_bytes(), once, has_refused, lets_wait)?;
    }
    Ok(())
}

/// The launches and their file.
#[derive(Drop)]
struct Given;

impl Opener for Given {
    type Reader = &'static [u8];

    fn open(&mut self, path: &str) -> Option<&'static [u8]> {
        match path {
            "manifest.toml" => Some(LAUNCHES.as_bytes()),
            "f" => Some(&NINES),
            _ => None,
        }
    }
}

/// Two workers of a command line have called the gate around each job, and both have put pages.
fn check_words(rt: &(impl Abort + AllocGlobal + Threads + Wait + Sync), lets_wait: bool) {
    let alloc = rt.alloc();
    let mut gate = Hold::new(lets_wait);
    let words = ["rim", "measure", "--workers", "2", "manifest.toml"];
    let mut out = Vec::new(alloc);
    let mut err = Vec::new(alloc);
    let (given, out, err) = (&mut Given, &mut out, &mut err);
    let status = run(rt, alloc, &mut gate, &words, NO_TERMINALS, given, out, err);
    assert_eq!(rt; (status, gate.calls()), (1, (SEVEN_ONCE, SEVEN_ONCE, 0)));
    assert!(rt; gate.pages().1 > 0);
}

/// The words of a command line say how many workers there are, and all of them call the program's gate.
#[test]
fn workers_of_a_command_line(rt: HostRuntime) {
    for lets_wait in [false, true] {
        check_words(&rt, lets_wait);
    }
}

/// A worker is counted where it was started, though there is no page for it.
#[test]
fn workers_without_a_page(rt: HostRuntime) -> Result<(), Fail> {
    let outcome = measured(&rt, &mut FreeGate, SMALLEST, 2)?;
    assert_eq!(rt; outcome.started, 2);
    Ok(())
}

/// What follows the first line of a text.
fn after_first_line(text: &[u8]) -> &[u8] {
    match text.iter().position(|byte| *byte == b'\n') {
        Some(end) => text.split_at(end.min(text.len())).1,
        None => text,
    }
}

/// The report of this many workers is this one, and each of them has a share.
fn check_by(
    rt: &(impl Abort + AllocGlobal + Threads + Wait + Sync),
    manifest: &[u8],
    workers: usize,
    report: &[u8],
) -> Result<(), Fail> {
    let outcome = measured(rt, &mut FreeGate, manifest, workers)?;
    assert_eq!(rt; outcome.report.as_slice(), report);
    assert_eq!(rt; outcome.shares.len(), workers);
    Ok(())
}

/// The reports of a manifest by some numbers of workers are that of one thread, which has the measurements of the audit.
fn check_by_all(
    rt: &(impl Abort + AllocGlobal + Threads + Wait + Sync),
    manifest: &[u8],
) -> Result<(), Fail> {
    let report = alone(rt.alloc(), manifest)?;
    for workers in [1, 2, 3, 16, 64] {
        check_by(rt, manifest, workers, report.as_slice())?;
    }
    let audit = audited(rt.alloc(), manifest)?;
    let audited = after_first_line(audit.as_slice());
    assert!(rt; after_first_line(report.as_slice()).starts_with(audited));
    Ok(())
}

#[test]
fn one_worker_and_many(rt: HostRuntime) -> Result<(), Fail> {
    check_by_all(&rt, LAUNCHES.as_bytes())
}

/// Three launches, of which the second has two items of one page on one page.
const PAGE_TWICE: &str = "rim_manifest = 1
[[file]]
name = \"f\"
path = \"f\"
[[launch]]
name = \"a\"
algo = \"sha256\"
s2sz = 33
[[launch]]
name = \"b\"
algo = \"sha256\"
s2sz = 33
ram = [[0x40000000, 0x40200000]]
item = [
  { name = \"x\", kind = \"raw\", file = \"f\", at = 0x40000000 },
  { name = \"y\", kind = \"raw\", file = \"f\", at = 0x40000000 },
]
[[launch]]
name = \"c\"
algo = \"sha256\"
s2sz = 33
";

/// There are no runs of this many workers.
fn check_none(
    rt: &(impl Abort + AllocGlobal + Threads + Wait + Sync),
    workers: usize,
) -> Result<(), Fail> {
    let alloc = rt.alloc();
    let release = read_manifest(alloc, PAGE_TWICE.as_bytes())?;
    let files = vec![in alloc; vec![in alloc; 5; 4096]?; release.file_count()]?;
    let answer = measure_release(rt, alloc, &mut FreeGate, &release, &files, workers);
    assert!(rt; matches!(answer, Err(StartFault::Workers)));
    Ok(())
}

#[test]
fn no_worker_and_too_many(rt: HostRuntime) -> Result<(), Fail> {
    for workers in [0, 65, usize::MAX] {
        check_none(&rt, workers)?;
    }
    Ok(())
}

/// Delays one call until another comes, or for a number of turns.
#[derive(Drop)]
struct Delay {
    calls: AtomicU64,
    late: u64,
    lets_wait: bool,
}

impl Delay {
    fn call(&self) {
        let number = self.calls.fetch_add(1, Ordering::SeqCst);
        if number != self.late {
            return;
        }
        for _turn in 0..10_000 {
            if self.calls.load(Ordering::SeqCst) > number.saturating_add(1) {
                return;
            }
            thread::yield_now();
        }
    }
}

impl Gate for Delay {
    fn before(&self, _worker: usize, _job: JobId) {
        self.call();
    }

    fn after(&self, _worker: usize, _job: JobId) {
        self.call();
    }

    fn lets_launches_wait(&self) -> bool {
        self.lets_wait
    }
}

/// The report of two workers is this one, where the call of this number is late.
fn check_late(
    rt: &(impl Abort + AllocGlobal + Threads + Wait + Sync),
    late: u64,
    lets_wait: bool,
    report: &[u8],
) -> Result<(), Fail> {
    let mut gate = Delay {
        calls: AtomicU64::new(0),
        late,
        lets_wait,
    };
    let outcome = measured(rt, &mut gate, LAUNCHES.as_bytes(), 2)?;
    assert_eq!(rt; outcome.report.as_slice(), report, "{late}");
    assert_eq!(rt; gate.calls.load(Ordering::SeqCst), 2 * JOBS);
    Ok(())
}

#[test]
fn each_call_late_in_turn(rt: HostRuntime) -> Result<(), Fail> {
    let report = alone(rt.alloc(), LAUNCHES.as_bytes())?;
    for case in 0..4 * JOBS {
        check_late(&rt, case / 2, case % 2 == 1, report.as_slice())?;
    }
    Ok(())
}

/// A launch of this number over one file: by one of both algorithms, with one of three sizes of RAM, an item of two pages that
/// all have, and one at another page each. So some launches begin alike, with and without the first item.
fn generated_launch(alloc: Global, n: u64) -> Result<String, Fail> {
    let algo = if n % 2 == 0 { "sha512" } else { "sha256" };
    let end = 0x4020_0000_u64.saturating_add((n % 3).saturating_mul(0x10_0000));
    let at = 0x4001_0000_u64.saturating_add((n / 4).saturating_mul(4096));
    Ok(format!(in alloc;
        "[[launch]]\nname = \"l{n}\"\nalgo = \"{algo}\"\ns2sz = 33\nram = [[0x40000000, {end}]]\nitem = [{{ name = \"x\", kind = \"raw\", file = \"f\", at = 0x40000000 }}, {{ name = \"y\", kind = \"raw\", file = \"f\", at = {at} }}]\n"
    )?)
}

/// A manifest of this many such launches.
fn generated(alloc: Global, launches: u64) -> Result<String, Fail> {
    let mut text = String::new(alloc);
    text.push_str("rim_manifest = 1\n[[file]]\nname = \"f\"\npath = \"f\"\n")?;
    for n in 0..launches {
        text.push_str(generated_launch(alloc, n)?.as_str())?;
    }
    Ok(text)
}

#[test]
fn generated_releases(rt: HostRuntime) -> Result<(), Fail> {
    for launches in [1, 2, 7, 40] {
        let text = generated(rt.alloc(), launches)?;
        check_by_all(&rt, text.as_bytes())?;
    }
    Ok(())
}
