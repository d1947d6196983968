//! The pages that two plans begin with.
ghost use Rattle.std.specs.Prelude.{◌≡◌, ◌++◌, ◌<◌, ◌≤◌, length, take, true, IfSome};
ghost use Rattle.launch_plan.specs.Links.{keys_in, keys_of};
ghost use Rattle.launch_plan.specs.Rows.{HaveFirstPages};

use crate::link::Link;
use crate::plan::{LaunchPlan, page_count};

impl LaunchPlan {
    /// How many of the plan's first links have pages that another plan begins with too. Links without pages are passed over in
    /// both.
    pub fn common_pages(&self, other: &LaunchPlan) -> usize
        ensures within { result ≤ length self.now.links }
        ensures first { HaveFirstPages result self.now.links other.now.links }
    {
        let mut from = 0;
        for at in 0..self.links().len() {
            let Some(next) = after_pages(&self.links()[at], other.links(), from) else {
                return at;
            };
            from = next;
        }
        self.links().len()
    }
}

/// Where links go on after the pages of a link, if these are the next pages of them from a place on.
fn after_pages(link: &Link, others: &[Link], from: usize) -> Option<usize>
    requires { from ≤ length others.now }
    ensures within { IfSome result (λ next. next ≤ length others.now) }
    ensures pages { IfSome result (λ next.
        keys_of (take next others.now) ≡ keys_of (take from others.now) ++ keys_in link.now) }
{
    if page_count(link) == 0 {
        return Some(from);
    }
    let next = next_pages(others, from)?;
    if has_same_pages(link, &others[next]) {
        Some(next + 1)
    } else {
        None
    }
}

/// The first link with pages, from a place on.
fn next_pages(links: &[Link], from: usize) -> Option<usize>
    requires { from ≤ length links.now }
    ensures within { IfSome result (λ next. next < length links.now) }
    ensures none { IfSome result
        (λ next. keys_of (take next links.now) ≡ keys_of (take from links.now)) }
{
    for at in from..links.len() {
        if page_count(&links[at]) != 0 {
            return Some(at);
        }
    }
    None
}

/// Whether two links have the same pages.
fn has_same_pages(a: &Link, b: &Link) -> bool
    ensures { result ≡ true → keys_in a.now ≡ keys_in b.now }
{
    match (a, b) {
        (
            Link::Pages { key, count, .. },
            Link::Pages {
                key: other,
                count: others,
                ..
            },
        ) => key == other && count == others,
        _ => false,
    }
}
