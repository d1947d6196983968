//! How far a run is, on standard error.
use rim_cli::{Gate, JobId, Lanes};
use std::io;
use std::io::Eprint;
use std::sync::{Mutex, Wait};
use std::time::{Clock, Duration, Instant};

/// How long a line is left as it is, in milliseconds.
const PAUSE: u64 = 250;

/// Shows how many pages and launches are done, a few times a second, and removes this line after the last job.
#[derive(Drop)]
pub struct Progress<'a, R: Wait + Clock + Eprint> {
    rt: &'a R,
    is_terminal: bool,
    lanes: Lanes,
    line: Mutex<Line>,
}

/// How many pages and launches are done of all, and when a line was last shown.
#[derive(Drop)]
struct Line {
    pages: usize,
    all_pages: usize,
    launches: usize,
    all_launches: usize,
    last: Option<Instant>,
    is_shown: bool,
}

impl<'a, R: Wait + Clock + Eprint> Progress<'a, R> {
    /// Shows nothing where standard error is no terminal.
    pub fn new(rt: &'a R, is_terminal: bool, lanes: Lanes) -> Progress<'a, R> {
        Progress {
            rt,
            is_terminal,
            lanes,
            line: Mutex::new(Line {
                pages: 0,
                all_pages: 0,
                launches: 0,
                all_launches: 0,
                last: None,
                is_shown: false,
            }),
        }
    }
}

impl<R: Wait + Clock + Eprint> Gate for Progress<'_, R> {
    fn begin(&self, pages: usize, launches: usize) {
        let mut line = self.line.lock(self.rt);
        line.all_pages = pages;
        line.all_launches = launches;
        line.last = Instant::now(self.rt).ok();
    }

    fn before(&self, _worker: usize, _job: JobId) {}

    fn after(&self, _worker: usize, job: JobId) {
        if self.is_terminal {
            let mut line = self.line.lock(self.rt);
            line.count(job);
            // A terminal that cannot be written to changes nothing.
            let _ = line.show(self.rt);
        }
    }

    fn lets_launches_wait(&self) -> bool {
        true
    }

    fn lanes(&self) -> Lanes {
        self.lanes
    }
}

impl Line {
    fn count(&mut self, job: JobId) {
        match job {
            JobId::Page(_) => self.pages = self.pages.saturating_add(1),
            JobId::Launch(_) => self.launches = self.launches.saturating_add(1),
        }
    }

    /// Shows the counts where none were shown for a while, and removes them where all is done.
    fn show(&mut self, rt: &(impl Clock + Eprint)) -> io::Result<()> {
        if self.pages >= self.all_pages && self.launches >= self.all_launches {
            return self.remove(rt);
        }
        let now = Instant::now(rt)?;
        if !self.is_due(now) {
            return Ok(());
        }
        let up = self.up();
        self.last = Some(now);
        self.is_shown = true;
        self.write(rt, up)
    }

    /// Writes the counts, after what leads back to the line that they replace. An audit counts no pages.
    fn write(&self, rt: &impl Eprint, up: &str) -> io::Result<()> {
        if self.all_pages == 0 {
            return eprint!(rt;
                "{up}rim: {} of {} launches\x1b[K\n",
                self.launches, self.all_launches
            );
        }
        eprint!(rt;
            "{up}rim: {} of {} pages, {} of {} launches\x1b[K\n",
            self.pages, self.all_pages, self.launches, self.all_launches
        )
    }

    fn is_due(&self, now: Instant) -> bool {
        match self.last {
            Some(last) => now.duration_since(last) >= Duration::from_millis(PAUSE),
            None => false,
        }
    }

    /// What leads back to the line that is shown. The cursor is on the one under it, so that a run which is broken off, as by
    /// Ctrl-C, leaves it at the beginning of a line.
    fn up(&self) -> &'static str {
        if self.is_shown { "\x1b[A" } else { "" }
    }

    /// Removes the line, if one was shown: back to it, and all from there on is erased.
    fn remove(&mut self, rt: &impl Eprint) -> io::Result<()> {
        if !self.is_shown {
            return Ok(());
        }
        let up = self.up();
        self.is_shown = false;
        eprint!(rt; "{up}\x1b[K")
    }
}
