//! What is measured of a launch, without the digests of its pages.
ghost use Rattle.std.specs.Prelude.{◌≡◌, ◌+◌, ◌*◌, ◌^◌, ◌<◌, ◌≤◌, length, take, Some, IfSome, IsSome, IsTrue, ◌↔◌};
ghost use Rattle.std.specs.List.{slice_get};
ghost use Rattle.launch_plan.specs.Prefixes.{HavePrefix};
ghost use Rattle.launch_plan.specs.Links.{IsEmpty, keys_in, keys_of, page_count};
ghost use Rattle.launch_plan.specs.inside.Counted.{AreLinks};
ghost use Rattle.launch_plan.specs.Fitting.{AreFitting, BeginsItem, IsFitting};

use crate::link::Link;
use page_jobs::PageKey;
use rim_desc::{Algo, GRANULE_SIZE, RealmParams};
use std::cmp::Ordering;
use std::marker::Model;

/// For how many pages a row is filled in about the time that is gained by one part that is chained beside others.
const PAGES_A_PART: u64 = 8;

/// What is measured of a launch, in order: its realm and what follows it, with keys in the places of the digests of
/// its pages. It borrows nothing.
#[derive(Drop)]
pub struct LaunchPlan {
    params: RealmParams,
    links: Vec<Link>,
    pages: usize,
}

impl Model for LaunchPlan {
    ghost use Rattle.launch_plan.specs.Links.{PlanView};
    ghost use Rattle.launch_plan.specs.inside.Counted.{AreLinks};

    ghost Value = { PlanView };

    ghost view = { λ p. record { params = p.params; links = p.links.items } };

    ghost invariant = { λ p. AreLinks p.links.items p.pages };
}

impl LaunchPlan {
    /// A plan of these parts, or `None` where a link of pages does not begin with the first page of its item, or the end of
    /// a link's addresses or page numbers, or the number of measured pages, is 2^64 or more.
    pub fn new(params: RealmParams, links: Vec<Link>) -> Option<LaunchPlan>
        ensures valid { IsSome result ↔ AreFitting links.items }
        ensures value { IfSome result (λ p. p ≡ record { params = params; links = links.items }) }
    {
        let pages = checked_pages(links.as_slice())?;
        Some(LaunchPlan::of_links(params, links, pages))
    }

    /// A plan of these parts, which fit and have this many measured pages.
    pub fn of_links(params: RealmParams, links: Vec<Link>, pages: usize) -> LaunchPlan
        requires { AreLinks links.items pages }
        ensures { result ≡ record { params = params; links = links.items } }
    {
        LaunchPlan {
            params,
            links,
            pages,
        }
    }

    /// How many measured pages it has.
    pub fn pages(&self) -> usize
        ensures { result ≡ length (keys_of self.now.links) }
    {
        self.pages
    }

    /// How many measured pages its first links have.
    pub fn pages_before(&self, links: usize) -> usize
        requires { links ≤ length self.now.links }
        ensures { result ≡ length (keys_of (take links self.now.links)) }
    {
        // No more than all its pages, so the number fits.
        let _all = self.pages();
        let mut pages = 0;
        for at in 0..links {
            pages += page_count(&self.links()[at]) as usize;
        }
        pages
    }

    /// The parameters of its realm.
    pub fn params(&self) -> RealmParams
        ensures { result ≡ self.now.params }
    {
        self.params
    }

    /// The algorithm that its realm is measured by.
    pub fn algo(&self) -> Algo
        ensures { result ≡ self.now.params.algo }
    {
        self.params.algo
    }

    /// What follows the realm. The pages of a link are the first ones of their item.
    pub fn links(&self) -> &[Link]
        ensures links { result.now ≡ self.now.links }
        ensures kept { AreLinks self.now.links (length (keys_of self.now.links)) }
    {
        self.links.as_slice()
    }

    /// The key of a measured page, by its place among them.
    pub fn key(&self, index: usize) -> PageKey
        requires { index < length (keys_of self.now.links) }
        ensures { Some result ≡ slice_get (keys_of self.now.links) index }
    {
        let mut rest = index as u64;
        for link in self.links() {
            if let Some(key) = key_in(link, rest) {
                return key;
            }
            rest -= page_count(link);
        }
        unreachable!()
    }

    /// Whether two plans are equal: they have the same realm, parts and keys.
    pub fn is_same(&self, other: &LaunchPlan) -> bool
        ensures { IsTrue result ↔ (self.now ≡ other.now) }
    {
        self.params == other.params && is_same_links(self.links.as_slice(), other.links.as_slice())
    }
}

impl LaunchPlan {
    /// Whether two plans have the same prefix of this many links: the same realm, and the same first links.
    pub fn is_same_prefix(&self, other: &LaunchPlan, links: usize) -> bool
        ensures { IsTrue result ↔ HavePrefix links self.now other.now }
    {
        let (own, others) = (self.links.as_slice(), other.links.as_slice());
        links <= own.len()
            && links <= others.len()
            && self.params == other.params
            && is_same_links(own.split_at(links).0, others.split_at(links).0)
    }

    /// How many of their first links two plans have in common; none where their realms differ.
    pub fn common_links(&self, other: &LaunchPlan) -> usize
        ensures { take result self.now.links ≡ take result other.now.links }
    {
        if self.params != other.params {
            return 0;
        }
        let (own, others) = (self.links.as_slice(), other.links.as_slice());
        let end = own.len().min(others.len());
        for at in 0..end {
            if !is_same_link(&own[at], &others[at]) {
                return at;
            }
        }
        end
    }

    /// How many parts follow its first links: a chain that goes on from there takes as many hashes. It is a measure of the
    /// work alone, and stays at 2^64 - 1 from there on.
    pub fn parts_after(&self, links: usize) -> u64 {
        let mut parts = 0u64;
        for at in links..self.links.len() {
            parts = parts.saturating_add(part_count(&self.links[at]));
        }
        parts
    }

    /// Whether so much follows its first links that it is best chained beside others. That needs a row of its own, and to fill it
    /// takes as long as is gained by few of its parts. No value depends on it.
    pub fn is_long_after(&self, links: usize) -> bool {
        self.parts_after(links).saturating_mul(PAGES_A_PART) >= self.pages as u64
    }

    /// How many parts its first links have. It is a measure of the work alone.
    pub fn parts_before(&self, links: usize) -> u64 {
        self.parts_after(0).saturating_sub(self.parts_after(links))
    }

    /// The order of two plans: by their realms, then by the first links that they do not have in common.
    pub fn compare(&self, other: &LaunchPlan) -> Ordering {
        let at = self.common_links(other);
        let (own, others) = (self.links.as_slice(), other.links.as_slice());
        compare_params(&self.params, &other.params).then(match (own.get(at), others.get(at)) {
            (Some(a), Some(b)) => a.compare(b),
            (a, b) => a.is_some().cmp(&b.is_some()),
        })
    }
}

fn compare_params(a: &RealmParams, b: &RealmParams) -> Ordering {
    (a.algo.cmp(&b.algo))
        .then(a.flags.cmp(&b.flags))
        .then(a.s2sz.cmp(&b.s2sz))
        .then(a.numbers.cmp(&b.numbers))
        .then(a.rtt_level_start.cmp(&b.rtt_level_start))
        .then(a.rtt_num_start.cmp(&b.rtt_num_start))
        .then(a.rpv.cmp(&b.rpv))
        .then(a.rtt_base.cmp(&b.rtt_base))
}

/// How many measured pages some links have, or `None` where they do not fit.
fn checked_pages(links: &[Link]) -> Option<usize>
    ensures valid { IsSome result ↔ AreFitting links.now }
    ensures value { IfSome result (λ n. n ≡ length (keys_of links.now)) }
{
    let mut pages = 0u64;
    for link in links {
        if !is_fitting(link) {
            return None;
        }
        if !begins_item(link) {
            return None;
        }
        let Some(more) = pages.checked_add(page_count(link)) else {
            return None;
        };
        pages = more;
    }
    Some(pages as usize)
}

fn is_fitting(link: &Link) -> bool
    ensures { IsTrue result ↔ IsFitting link.now }
{
    match link {
        Link::Blocks { base, size, count } => ends_within(*base, *size, *count),
        Link::Pages { ipa, key, count } => {
            ends_within(*ipa, GRANULE_SIZE, *count) && key.number.checked_add(*count).is_some()
        }
        Link::Unmeasured { ipa, count } => ends_within(*ipa, GRANULE_SIZE, *count),
        Link::Rec { .. } => true,
    }
}

/// Whether a link's pages are the first ones of their item.
fn begins_item(link: &Link) -> bool
    ensures { IsTrue result ↔ BeginsItem link.now }
{
    match link {
        Link::Pages { key, .. } => key.number == 0,
        _ => true,
    }
}

/// Whether this many stretches of a size end below 2^64.
fn ends_within(base: u64, size: u64, count: u64) -> bool
    ensures { IsTrue result ↔ (base + count * size < 2 ^ 64) }
{
    match count.checked_mul(size) {
        Some(length) => base.checked_add(length).is_some(),
        None => false,
    }
}

/// How many measured pages a link has.
pub fn page_count(link: &Link) -> u64
    ensures { result ≡ page_count link.now }
{
    match link {
        Link::Pages { count, .. } => *count,
        _ => 0,
    }
}

/// How many parts a link has.
pub fn part_count(link: &Link) -> u64
    ensures { result ≡ 0 → IsEmpty link.now }
{
    match link {
        Link::Blocks { count, .. } => *count,
        Link::Pages { count, .. } => *count,
        Link::Unmeasured { count, .. } => *count,
        Link::Rec { .. } => 1,
    }
}

/// The key of a link's page, if it has one of this number.
fn key_in(link: &Link, number: u64) -> Option<PageKey>
    requires { IsFitting link.now }
    ensures { result ≡ slice_get (keys_in link.now) number }
{
    match link {
        Link::Pages { key, count, .. } => {
            if number < *count {
                Some(PageKey {
                    number: key.number + number,
                    ..*key
                })
            } else {
                None
            }
        }
        _ => None,
    }
}

fn is_same_link(a: &Link, b: &Link) -> bool
    ensures { IsTrue result ↔ (a.now ≡ b.now) }
{
    *a == *b
}

/// Whether two lists of links are equal.
fn is_same_links(a: &[Link], b: &[Link]) -> bool
    ensures { IsTrue result ↔ (a.now ≡ b.now) }
{
    a == b
}
