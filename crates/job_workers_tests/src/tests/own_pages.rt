//! A run of two launches with a page of their own each: one is done while the other's page is late.
ghost use Rattle.std.specs.Prelude.{map, IfOk};
ghost use Rattle.page_jobs.specs.Key.{IsRising};
ghost use Rattle.page_jobs.specs.Page.{page_view};
ghost use Rattle.page_jobs.specs.Table.{page_keys_of};

use super::{check, plan_of, values_by};
use job_board::JobId;
use job_workers::Gate;
use page_jobs::{Blob, Page};
use page_jobs_tests::distinct_pages;
use refusal::NoMemory;
use rim_desc::{Algo, Measurement, Source};
use std::alloc::Global;
use std::process::Abort;
use std::sync::Wait;
use std::sync::atomic::{AtomicU64, Ordering};
use std::test::Fail;
use std::thread;
use std::thread::Threads;

/// The page of file 0.
const SEVENS: [u8; 4096] = [7; 4096];

/// The page of file 1.
const NINES: [u8; 4096] = [9; 4096];

/// The first eight bytes of each launch's measurement, from a program in Python: the realm's page and the descriptor laid
/// out by hand, and its hashlib.
const VALUES: [u64; 2] = [0x57a1_3a8f_129f_ba3d, 0xe00b_3704_aced_9207];

/// How often page 1 looks whether it may go on.
const TURNS: u64 = 10_000_000;

/// Holds page 1 until launch 0 was put, for a number of turns. It counts what it waited for in vain. Launch 0 waits for no
/// other, also where the gate lets launches wait.
#[derive(Drop)]
struct Held {
    lets_wait: bool,
    put: AtomicU64,
    in_vain: AtomicU64,
}

impl Gate for Held {
    fn before(&self, _worker: usize, job: JobId) {
        if !matches!(job, JobId::Page(1)) {
            return;
        }
        for _turn in 0..TURNS {
            if self.put.load(Ordering::SeqCst) > 0 {
                return;
            }
            thread::yield_now();
        }
        self.in_vain.fetch_add(1, Ordering::SeqCst);
    }

    fn after(&self, _worker: usize, job: JobId) {
        if matches!(job, JobId::Launch(0)) {
            self.put.fetch_add(1, Ordering::SeqCst);
        }
    }

    fn lets_launches_wait(&self) -> bool {
        self.lets_wait
    }
}

/// The page of each file.
fn pages_of_files(alloc: Global) -> Result<Vec<Page<'static>>, NoMemory>
    ensures { IfOk result (λ pages. IsRising (page_keys_of (map page_view pages.items))) }
{
    let mut pages = Vec::new(alloc);
    pages.push(Blob::new(Source::File(0), 0, &SEVENS).page(Algo::Sha256, 0))?;
    pages.push(Blob::new(Source::File(1), 0, &NINES).page(Algo::Sha256, 0))?;
    distinct_pages(&mut pages);
    Ok(pages)
}

fn begin(value: &Measurement) -> u64 {
    let b = &value.bytes;
    u64::from_be_bytes([b[0], b[1], b[2], b[3], b[4], b[5], b[6], b[7]])
}

fn check_values(rt: &impl Abort, values: &[Measurement]) {
    check(rt, values.len() == VALUES.len(), "two values");
    for (value, want) in values.iter().zip(&VALUES) {
        assert_eq!(rt; begin(value), *want);
    }
}

/// A run by the gate, which waits for nothing in vain. The launches' values are the known ones.
fn run_held<R: Threads + Wait + Abort + Sync>(
    rt: &R,
    alloc: Global,
    lets_wait: bool,
) -> Result<(), NoMemory> {
    let pages = pages_of_files(alloc)?;
    let plans = [plan_of(rt, alloc, 0, 1), plan_of(rt, alloc, 1, 1)];
    let mut gate = Held {
        lets_wait,
        put: AtomicU64::new(0),
        in_vain: AtomicU64::new(0),
    };
    let values = values_by(rt, alloc, 2, &pages, &plans, &mut gate)?;
    check_values(rt, &values);
    check(rt, gate.in_vain.load(Ordering::SeqCst) == 0, "in vain");
    Ok(())
}

/// A launch is done where its own page is, though another page is held.
#[test]
fn a_launch_needs_its_own_pages_alone(rt: HostRuntime) -> Result<(), Fail> {
    for lets_wait in [false, true] {
        run_held(&rt, rt.alloc(), lets_wait)?;
    }
    Ok(())
}
