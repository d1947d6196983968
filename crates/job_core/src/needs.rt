//! Which pages each launch needs.
ghost use Rattle.std.specs.Prelude.{◌≡◌, ◌<◌, [], length, map, IfOk, OnOk};
ghost use Rattle.std.specs.List.{All};
ghost use Rattle.job_core.specs.Jobs.{NeedsWithin};
ghost use Rattle.job_core.specs.inside.Needs.{AreNeeds, groups_of, needs_of};
ghost use Rattle.job_core.specs.inside.Reaches.{AddsList, IsListed};

use crate::reaches::{PageGroup, Reach};
use refusal::NoMemory;
use std::alloc::Global;

/// Which pages each launch needs. They are kept in groups.
#[derive(Drop)]
pub enum Needs {
    /// Each launch needs the pages that are listed for it, and the groups have the same.
    Listed(Vec<Vec<usize>>, Vec<PageGroup>),
    /// Each of this many launches needs the first pages of groups.
    Reaches(usize, Vec<PageGroup>),
}

impl Needs {
    /// How many launches there are.
    pub fn launches(&self) -> usize
        ensures { result ≡ length (needs_of self.now) }
    {
        match self {
            Needs::Listed(lists, _) => lists.len(),
            Needs::Reaches(launches, _) => *launches,
        }
    }

    pub fn groups(&self) -> &[PageGroup]
        ensures { result.now ≡ groups_of self.now }
    {
        match self {
            Needs::Listed(_, groups) => groups.as_slice(),
            Needs::Reaches(_, groups) => groups.as_slice(),
        }
    }

    /// Each launch needs the pages that are listed for it.
    pub fn listed(alloc: Global, pages: usize, lists: Vec<Vec<usize>>) -> Result<Needs, NoMemory>
        requires { NeedsWithin (map (λ v. v.items) lists.items) pages }
        ensures same { IfOk result (λ n. needs_of n ≡ map (λ v. v.items) lists.items) }
        ensures needs { IfOk result (λ n. AreNeeds pages n) }
    {
        let mut groups = single_pages(alloc, pages)?;
        for launch in 0..lists.len() {
            add_list(&mut groups, launch, &lists[launch])?;
        }
        Ok(Needs::Listed(lists, groups))
    }
}

/// A group for each page, which no launch needs.
fn single_pages(alloc: Global, pages: usize) -> Result<Vec<PageGroup>, NoMemory>
    ensures { IfOk result (λ groups. IsListed pages groups.items []) }
{
    let mut groups = Vec::with_capacity(alloc, pages)?;
    for first in 0..pages {
        groups.push(PageGroup {
            first,
            count: 1,
            reaches: Vec::new(alloc),
        })?;
    }
    Ok(groups)
}

/// Adds what a launch needs, the next one after those that were added.
fn add_list(groups: &mut [PageGroup], launch: usize, list: &[usize]) -> Result<(), NoMemory>
    requires within { All (λ page. page < length groups.old) list.now }
    ensures { OnOk result (AddsList groups.old launch list.now groups.new) }
{
    for page in list {
        let group = &mut groups[*page];
        group.reaches.push(Reach { launch, count: 1 })?;
    }
    Ok(())
}
