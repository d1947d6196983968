//! What launches wait for: the first pages of groups, where a group has pages with numbers in a row.
//!
//! Reaches are enough, since the pages of a link are the first ones of their item, and a table has the pages of an item in a
//! row. So how far a launch reaches into a group is one number, however many pages that has. Each put of a page moves on how
//! far its group is done without a gap, and lowers the number of each launch whose reach is passed. A launch is ready where
//! its number is 0, so no list of its pages is kept or searched.
ghost use Rattle.std.specs.Prelude.{◌≡◌, ◌<◌, ◌≤◌, ◌+◌, ◌^◌, ◌++◌, ℕ, List, true, false, length, drop, IfOk, IfSome, Some, slice_index, vec_capacity};
ghost use Rattle.job_core.specs.declared.job.JobState.{JobState};
ghost use Rattle.job_core.specs.declared.reaches.PageGroup.{PageGroup};
ghost use Rattle.job_core.specs.declared.reaches.Reach.{Reach};
ghost use Rattle.job_core.specs.Jobs.{is_page_done};
ghost use Rattle.job_core.specs.inside.Lines.{IsLine};
ghost use Rattle.job_core.specs.inside.Reaches.{AreApart, AreFewer, AreGroups, AreMet, AreNamed, AreRising, AreStill, HasPut, HasPutJob, OfOwnGroup, Waits, all_of, count_of};

use crate::job::{JobId, JobState};
use crate::line::wait_less;
use refusal::NoMemory;
use std::alloc::Global;

/// How far a launch reaches into a group: it needs as many of the first pages.
#[derive(Clone, Copy)]
pub struct Reach {
    pub launch: usize,
    pub count: usize,
}

/// Pages with numbers in a row, and which launches need the first of them: those that need the fewest first.
#[derive(Drop)]
pub struct PageGroup {
    pub first: usize,
    pub count: usize,
    pub reaches: Vec<Reach>,
}

/// How many pages of a group are done without a gap, and how many of its reaches are done with them.
#[derive(Clone, Copy)]
pub struct Cursor {
    pub done: usize,
    pub met: usize,
}

/// The group that has a page, if one has.
fn group_of(groups: &[PageGroup], page: usize) -> Option<usize>
    requires { AreApart groups.now }
    ensures own { OfOwnGroup groups.now page (λ k. result ≡ Some k) }
    ensures there { IfSome result (λ k. k < length groups.now) }
{
    groups_up_to(groups, page).checked_sub(1)
}

/// How many groups begin at a page or before it. Only the last of them can have the page.
fn groups_up_to(groups: &[PageGroup], page: usize) -> usize
    requires { AreApart groups.now }
    ensures bound { result ≤ length groups.now }
    ensures last { OfOwnGroup groups.now page (λ k. k + 1 ≡ result) }
{
    groups.partition_point(|group| group.first <= page)
}

/// How many pages from a first one on are done without a gap, of this many, where as many as are given are.
fn done_to(pages: &[JobState], first: usize, count: usize, from: usize) -> usize
    requires pages { first + count ≤ length pages.now }
    requires from { from ≤ count }
    ensures within { (from ≤ result) × (result ≤ count) }
    ensures done { (k : ℕ) → from ≤ k → k < result → is_page_done pages.now (first + k) ≡ true }
    ensures stops { result < count → is_page_done pages.now (first + result) ≡ false }
{
    for k in from..count {
        if !matches!(pages[first + k], JobState::Done) {
            return k;
        }
    }
    count
}

/// How many reaches are done, where this many pages are, and as many reaches as are given were done before. Each launch
/// waits for one fewer for each of its reaches that is done now.
fn meet(
    reaches: &[Reach],
    done: usize,
    from: usize,
    left: &mut [usize],
    ready: &mut Vec<usize>,
) -> usize
    requires from { from ≤ length reaches.now }
    requires named { AreNamed reaches.now (length left.old) }
    requires counted { (l : ℕ) → count_of l (drop from reaches.now) ≤ slice_index left.old l }
    requires rising { AreRising reaches.now }
    requires line { IsLine left.old ready.old.items (vec_capacity ready.old) }
    ensures within { (from ≤ result) × (result ≤ length reaches.now) }
    ensures met { AreMet reaches.now done from result }
    ensures open { AreStill reaches.now done result }
    ensures left { AreFewer reaches.now from result left.old left.new }
    ensures line { IsLine left.new ready.new.items (vec_capacity ready.new) }
    ensures grows { (more : List ℕ) × (ready.new.items ≡ ready.old.items ++ more) }
{
    for k in from..reaches.len() {
        let reach = reaches[k];
        if reach.count > done {
            return k;
        }
        wait_less(left, reach.launch, ready);
    }
    reaches.len()
}

/// Notes that a page is done: its group's cursor goes on over pages that are done and reaches that are done with them,
/// and launches wait for fewer.
fn note_page(
    groups: &[PageGroup],
    pages: &[JobState],
    page: usize,
    cursors: &mut [Cursor],
    left: &mut [usize],
    ready: &mut Vec<usize>,
)
    requires put { HasPut pages.now page groups.now cursors.old left.old }
    requires line { IsLine left.old ready.old.items (vec_capacity ready.old) }
    ensures waits { Waits pages.now groups.now cursors.new left.new }
    ensures line { IsLine left.new ready.new.items (vec_capacity ready.new) }
    ensures grows { (more : List ℕ) × (ready.new.items ≡ ready.old.items ++ more) }
{
    let Some(number) = group_of(groups, page) else {
        return;
    };
    let group = &groups[number];
    let cursor = cursors[number];
    let done = done_to(pages, group.first, group.count, cursor.done);
    let met = meet(&group.reaches, done, cursor.met, left, ready);
    cursors[number] = Cursor { done, met };
}

/// Notes that a job is done.
pub fn note_done(
    groups: &[PageGroup],
    pages: &[JobState],
    job: JobId,
    cursors: &mut [Cursor],
    left: &mut [usize],
    ready: &mut Vec<usize>,
)
    requires put { HasPutJob pages.now job groups.now cursors.old left.old }
    requires line { IsLine left.old ready.old.items (vec_capacity ready.old) }
    ensures waits { Waits pages.now groups.now cursors.new left.new }
    ensures line { IsLine left.new ready.new.items (vec_capacity ready.new) }
    ensures grows { (more : List ℕ) × (ready.new.items ≡ ready.old.items ++ more) }
{
    match job {
        JobId::Page(page) => note_page(groups, pages, page, cursors, left, ready),
        JobId::Launch(_) => {}
    }
}

/// Counts for each launch the reaches of a group that are its own.
fn count_group(reaches: &[Reach], left: &mut [usize])
    requires named { AreNamed reaches.now (length left.old) }
    requires few { (l : ℕ) → slice_index left.old l + count_of l reaches.now < 2 ^ 64 }
    ensures { (l : ℕ) → slice_index left.new l ≡ slice_index left.old l + count_of l reaches.now }
{
    for reach in reaches {
        left[reach.launch] += 1;
    }
}

/// Counts for each launch the reaches that are its own.
fn count_all(groups: &[PageGroup], left: &mut [usize])
    requires groups { (pages : ℕ) × AreGroups pages (length left.old) groups.now }
    requires zeros { (l : ℕ) → slice_index left.old l ≡ 0 }
    ensures { (l : ℕ) → slice_index left.new l ≡ all_of l groups.now }
{
    for group in groups {
        count_group(&group.reaches, left);
    }
}

/// For each launch, how many reaches are its own.
pub fn all_left(
    alloc: Global,
    groups: &[PageGroup],
    launches: usize,
) -> Result<Vec<usize>, NoMemory>
    requires { (pages : ℕ) × AreGroups pages launches groups.now }
    ensures size { IfOk result (λ left. length left.items ≡ launches) }
    ensures counts { IfOk result
        (λ left. (l : ℕ) → slice_index left.items l ≡ all_of l groups.now) }
{
    let mut left = vec![in alloc; 0; launches]?;
    count_all(groups, &mut left);
    Ok(left)
}
