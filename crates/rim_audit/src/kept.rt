//! What an audit keeps of launches for later ones: digests of their files' pages, and monitors that were given their first
//! commands. It is kept where there is room and memory for it, and no answer depends on it.
ghost use Rattle.std.specs.Prelude.{◌≡◌, ℕ, List};
ghost use Rattle.std.specs.List.{All};
ghost use Rattle.ipa_layout.specs.Files.{bytes_of_files};
ghost use Rattle.rim_audit.specs.inside.Commands.{state_after};
ghost use Rattle.rim_audit.specs.inside.Copies.{AreKept, IsCopyIn, IsKept};

use crate::beside::Beside;
use crate::commands::LaunchCommands;
use crate::copies::{LaunchCopies, MonitorCopy};
use crate::known_pages::{KnownPages, room_for};
use rmi_list::Plan;
use rmm_monitor::Monitor;
use std::alloc::Global;

/// What is kept.
#[derive(Drop)]
pub struct Kept<'a> {
    /// Digests of the files' pages.
    pub beside: Beside<'a>,
    /// Copies of monitors, launch by launch in their order.
    pub launches: Vec<LaunchCopies<'a>>,
    /// How many bytes copies and lists may take.
    most: usize,
    /// The most pages whose digests are kept.
    room: usize,
    alloc: Global,
}

/// Copies are kept of this many launches at most. This project's choice.
const LAUNCHES_KEPT: usize = 32;

/// What copies and lists take at most, in bytes, with those of the launch that is audited. This project's choice.
const MOST_KEPT: usize = 24 * 1024 * 1024;

/// What a monitor takes for a command that it was given, and a list for a span, in bytes: a little more than was measured.
const COMMAND_SIZE: usize = 32;

const SPAN_SIZE: usize = 80;

impl<'a> Kept<'a> {
    /// Nothing is kept, and nothing will be.
    pub fn nothing(alloc: Global, files: &'a [Vec<u8>]) -> Kept<'a>
        ensures { AreKept (bytes_of_files files.now) result }
    {
        Kept::within(alloc, files, 0, 0)
    }

    /// Nothing is kept yet.
    pub fn new(alloc: Global, files: &'a [Vec<u8>]) -> Kept<'a>
        ensures { AreKept (bytes_of_files files.now) result }
    {
        Kept::within(alloc, files, MOST_KEPT, room_for(files))
    }

    /// The same within these bounds.
    fn within(alloc: Global, files: &'a [Vec<u8>], most: usize, room: usize) -> Kept<'a>
        ensures { AreKept (bytes_of_files files.now) result }
    {
        Kept {
            beside: Beside::new(KnownPages::new(alloc, files, room)),
            launches: Vec::new(alloc),
            most,
            room,
            alloc,
        }
    }

    /// Frees all that is kept, since memory is needed for something else. From then on half as much is kept.
    pub fn free(&mut self, files: &'a [Vec<u8>])
        ensures { AreKept (bytes_of_files files.now) self.new }
    {
        *self = Kept::within(self.alloc, files, self.most / 2, self.room / 2);
    }

    /// No more copies are kept where the launch that comes is the last one: no other could go on from them.
    pub fn close_at_last(&mut self, is_last: bool)
        ensures { (files : List (List ℕ)) → AreKept files self.old → AreKept files self.new }
    {
        if is_last {
            self.most = 0;
        }
    }

    /// Adds a copy of a monitor that was given this many commands to those of its launch, where there is room and memory for it.
    pub fn push_copy(
        &mut self,
        copies: &mut Vec<MonitorCopy>,
        commands: &LaunchCommands,
        count: usize,
        monitor: &Monitor,
    )
        requires copies { All (IsCopyIn commands.now) copies.old.items }
        requires monitor { monitor.now ≡ state_after commands.now count }
        ensures copies { All (IsCopyIn commands.now) copies.new.items }
        ensures beside { self.new.beside ≡ self.old.beside }
        ensures launches { (files : List (List ℕ)) → All (IsKept files) self.old.launches.items
            → All (IsKept files) self.new.launches.items }
    {
        let size = COMMAND_SIZE.saturating_mul(count);
        if !self.make_room(size_of(&commands.plan, copies).saturating_add(size)) {
            return;
        }
        if let Ok(monitor) = monitor.try_clone() {
            let _ = copies.push(MonitorCopy { count, monitor });
        }
    }

    /// Keeps copies that were made of a launch's monitor, and the launch's list, where there is room and memory for it.
    pub fn keep(&mut self, commands: LaunchCommands<'a>, copies: Vec<MonitorCopy>)
        requires copies { All (IsCopyIn commands) copies.items }
        requires kept { All (IsKept (bytes_of_files commands.accepted.files.now))
            self.old.launches.items }
        ensures beside { self.new.beside ≡ self.old.beside }
        ensures launches { All (IsKept (bytes_of_files commands.entry.accepted.files.now))
            self.new.launches.items }
    {
        if copies.is_empty() {
            return;
        }
        if !self.make_room(size_of(&commands.plan, &copies)) {
            return;
        }
        let Ok(items) = Vec::from_slice(self.alloc, commands.accepted.placed().items()) else {
            return;
        };
        let LaunchCommands { accepted, plan, .. } = commands;
        let launch = accepted.launch();
        let _ = self.launches.push(LaunchCopies {
            launch,
            items,
            plan,
            copies,
        });
    }

    /// Drops the copies of the launches that were audited first, until there is room for this many bytes and one launch more.
    /// False where these are too many by themselves.
    fn make_room(&mut self, size: usize) -> bool
        ensures beside { self.new.beside ≡ self.old.beside }
        ensures launches { (files : List (List ℕ)) → All (IsKept files) self.old.launches.items
            → All (IsKept files) self.new.launches.items }
    {
        if size > self.most {
            return false;
        }
        drop_first(&mut self.launches, self.most - size);
        true
    }
}

/// Drops copies from the first launch on, until the others take no more than this many bytes and are not too many launches.
fn drop_first(launches: &mut Vec<LaunchCopies>, most: usize)
    ensures { (files : List (List ℕ)) → All (IsKept files) launches.old.items
        → All (IsKept files) launches.new.items }
{
    for _ in 0..launches.len() {
        if launches.is_empty() || are_few(launches, most) {
            return;
        }
        launches.remove(0);
    }
}

/// Whether copies of one launch more can be kept, and these take no more than this many bytes. It is a measure of memory alone.
fn are_few(launches: &[LaunchCopies], most: usize) -> bool {
    let mut all = 0usize;
    for of_launch in launches {
        all = all.saturating_add(size_of(&of_launch.plan, &of_launch.copies));
    }
    launches.len() < LAUNCHES_KEPT && all <= most
}

/// What a list and copies take, in bytes. It is a measure of memory alone.
fn size_of(plan: &Plan, copies: &[MonitorCopy]) -> usize {
    let mut size = SPAN_SIZE.saturating_mul(plan.span_count());
    for copy in copies {
        size = size.saturating_add(COMMAND_SIZE.saturating_mul(copy.count));
    }
    size
}
