//! A run whose last page is late: launches are shared all the same.
use super::{check, pages_of, plans_of, values_by};
use job_board::JobId;
use job_workers::Gate;
use refusal::NoMemory;
use std::alloc::Global;
use std::process::Abort;
use std::sync::Wait;
use std::sync::atomic::{AtomicU64, Ordering};
use std::test::Fail;
use std::thread;
use std::thread::Threads;

/// Two pages.
const BYTES: [u8; 8192] = [7; 8192];

/// How often a job that is held looks whether it may go on.
const TURNS: u64 = 10_000_000;

/// Of two pages and two launches that measure both, holds the first page until the second is begun; the second until the
/// first was put, and for some turns more, in which the worker that put it finds nothing ready; the first launch until the
/// second is begun; and worker 0's launch until the other was put, and for some turns more, in which worker 1 finds nothing
/// ready. It counts what it waited for in vain.
///
/// The launches have the pages in common and no links, so neither waits for the other where the gate lets launches wait. So both
/// are begun at a time.
#[derive(Drop)]
struct Late {
    lets_wait: bool,
    pages: AtomicU64,
    pages_put: AtomicU64,
    launches: AtomicU64,
    launches_put: AtomicU64,
    in_vain: AtomicU64,
}

impl Late {
    fn new(lets_wait: bool) -> Late {
        Late {
            lets_wait,
            pages: AtomicU64::new(0),
            pages_put: AtomicU64::new(0),
            launches: AtomicU64::new(0),
            launches_put: AtomicU64::new(0),
            in_vain: AtomicU64::new(0),
        }
    }

    /// Waits until this many are counted, for a number of turns.
    fn wait(&self, count: &AtomicU64, least: u64) {
        for _turn in 0..TURNS {
            if count.load(Ordering::SeqCst) >= least {
                return;
            }
            thread::yield_now();
        }
        self.in_vain.fetch_add(1, Ordering::SeqCst);
    }
}

/// Turns in which another worker looks for a job.
fn wait_a_while() {
    for _turn in 0..1000 {
        thread::yield_now();
    }
}

impl Gate for Late {
    fn before(&self, worker: usize, job: JobId) {
        match job {
            JobId::Page(_) => {
                if self.pages.fetch_add(1, Ordering::SeqCst) == 0 {
                    self.wait(&self.pages, 2);
                } else {
                    self.wait(&self.pages_put, 1);
                    wait_a_while();
                }
            }
            JobId::Launch(_) => {
                self.launches.fetch_add(1, Ordering::SeqCst);
                self.wait(&self.launches, 2);
                if worker == 0 {
                    self.wait(&self.launches_put, 1);
                    wait_a_while();
                }
            }
        }
    }

    fn after(&self, _worker: usize, job: JobId) {
        let count = match job {
            JobId::Page(_) => &self.pages_put,
            JobId::Launch(_) => &self.launches_put,
        };
        count.fetch_add(1, Ordering::SeqCst);
    }

    fn lets_launches_wait(&self) -> bool {
        self.lets_wait
    }
}

/// A run by the gate, which waits for nothing in vain.
fn share<R: Threads + Wait + Abort + Sync>(
    rt: &R,
    alloc: Global,
    lets_wait: bool,
) -> Result<(), NoMemory> {
    let pages = pages_of(alloc, &BYTES, 2)?;
    let plans = plans_of(rt, alloc, 2, 2);
    let mut gate = Late::new(lets_wait);
    values_by(rt, alloc, 2, &pages, &plans, &mut gate)?;
    check(rt, gate.in_vain.load(Ordering::SeqCst) == 0, "in vain");
    Ok(())
}

/// A worker that finds nothing ready sleeps until the last page is put. Then it shares the launches with the worker that
/// held that page. Worker 1 then sleeps until the last launch is put.
#[test]
fn launches_are_shared_where_a_page_is_late(rt: HostRuntime) -> Result<(), Fail> {
    for lets_wait in [false, true] {
        share(&rt, rt.alloc(), lets_wait)?;
    }
    Ok(())
}
