//! Chains that are under way, part by part, and some of them side by side.
ghost use Rattle.std.specs.Prelude.{◌≡◌, ◌<◌, ◌≤◌, length, map, true, false, IfSome};
ghost use Rattle.std.specs.List.{All};
ghost use Rattle.rim_desc.specs.Measurement.{measurement_of};
ghost use Rattle.rim_desc.specs.Part.{extended_by};
ghost use Rattle.rim_desc.specs.declared.side_by_side.TheConstants.{MOST_LANES};
ghost use Rattle.launch_plan.specs.Fitting.{IsFitting};
ghost use Rattle.launch_plan.specs.Prefixes.{prefix_value};
ghost use Rattle.launch_plan.specs.Links.{keys_of, parts_with};
ghost use Rattle.launch_plan.specs.Rows.{IsFilled};
ghost use Rattle.rim_chain.specs.Chains.{HaveGoneOn, IsNext, chains_to};
ghost use Rattle.rim_chain.specs.inside.Places.{IsPlace};
ghost use Rattle.rim_chain.specs.inside.UnderWay.{AreSet, HaveTaken, set_to};

use crate::chaining::{Place, extended_by_link};
use launch_plan::{LaunchPlan, Link, page_count, part_count};
use page_jobs::DigestRow;
use rim_desc::{
    Algo, DESCRIPTOR_SIZE, GRANULE_SIZE, MOST_LANES, Measurement, data_descriptor, extend_each,
    rec_descriptor, ripas_descriptor,
};
use std::marker::Model;

/// No parts.
const NONE_LEFT: Link = Link::Unmeasured { ipa: 0, count: 0 };

/// A measurement, and the parts that it is still to be extended by.
#[derive(Drop)]
pub struct LaunchChain<'a> {
    algo: Algo,
    value: Measurement,
    /// What is left of a link.
    rest: Link,
    /// The links after it.
    links: &'a [Link],
    /// The digests of the pages of them all.
    digests: &'a [Measurement],
    /// How many parts are left. It is a measure of the work alone.
    parts: u64,
    /// After how many links of its launch's plan it ends.
    end: usize,
    /// Whether other launches go on from where it ends. No value depends on it.
    is_awaited: bool,
}

impl<'a> Model for LaunchChain<'a> {
    ghost use Rattle.std.specs.Prelude.{◌∷◌};
    ghost use Rattle.launch_plan.specs.Links.{parts_with};
    ghost use Rattle.rim_chain.specs.Chains.{ChainView};
    ghost use Rattle.rim_chain.specs.inside.UnderWay.{AreLeft};

    ghost Value = { ChainView };

    ghost view = { λ c. record {
      algo = c.algo;
      value = c.value.bytes;
      left = parts_with (c.rest ∷ c.links.now) c.digests.now;
      end = c.end;
    } };

    ghost invariant = { λ c. AreLeft (c.rest ∷ c.links.now) c.digests.now };
}

/// Chains by an algorithm without parts.
pub fn no_chains<'a>(algo: Algo) -> [LaunchChain<'a>; MOST_LANES] {
    [
        LaunchChain::none(algo),
        LaunchChain::none(algo),
        LaunchChain::none(algo),
        LaunchChain::none(algo),
        LaunchChain::none(algo),
        LaunchChain::none(algo),
        LaunchChain::none(algo),
        LaunchChain::none(algo),
    ]
}

impl<'a> LaunchChain<'a> {
    /// A chain by an algorithm without parts.
    fn none(algo: Algo) -> LaunchChain<'a> {
        LaunchChain {
            algo,
            value: Measurement { bytes: [0; 64] },
            rest: NONE_LEFT,
            links: &[],
            digests: &[],
            parts: 0,
            end: 0,
            is_awaited: false,
        }
    }

    /// The chain of a plan's first links from a place on, where the plan's pages have the digests of a row; others may wait for
    /// what it comes to.
    pub(crate) fn new(
        plan: &'a LaunchPlan,
        row: &'a DigestRow,
        from: Place,
        end: usize,
        is_awaited: bool,
    ) -> LaunchChain<'a>
        requires filled { IsFilled plan.now row.now.digests }
        requires from { IsPlace plan.now row.now.digests from }
        requires end { (from.links ≤ end) × (end ≤ length plan.now.links) }
        ensures value { chains_to result ≡ prefix_value end plan.entry.now row.entry.now.digests }
        ensures end { result.end ≡ end }
    {
        let before = plan.parts_before(from.links);
        let (first_links, _) = plan.links().split_at(end);
        let (first_digests, _) = row.digests().split_at(plan.pages_before(end));
        let (_, links) = first_links.split_at(from.links);
        let (_, digests) = first_digests.split_at(from.pages);
        LaunchChain {
            algo: plan.params().algo,
            value: from.value,
            rest: NONE_LEFT,
            links,
            digests,
            parts: plan.parts_before(end).saturating_sub(before),
            end,
            is_awaited,
        }
    }

    fn algo(&self) -> Algo
        ensures { result ≡ self.now.algo }
    {
        self.algo
    }

    /// After how many links of its launch's plan it ends.
    pub fn end(&self) -> usize
        ensures { result ≡ self.now.end }
    {
        self.end
    }

    /// Whether it has come to where other launches go on. No value depends on it.
    pub fn has_arrived(&self) -> bool {
        self.is_awaited && self.parts == 0
    }

    /// Whether it has still to come to where other launches go on.
    fn is_awaited(&self) -> bool {
        self.is_awaited && self.parts > 0
    }

    fn parts(&self) -> u64 {
        self.parts
    }

    /// Takes the next part from those that are left, and writes its descriptor. False where no part is left.
    fn next(&mut self, descriptor: &mut [u8; DESCRIPTOR_SIZE]) -> bool
        ensures algo { self.new.algo ≡ self.old.algo }
        ensures end { self.new.end ≡ self.old.end }
        ensures taken { result ≡ true
            → chains_to (set_to self.new (measurement_of self.new.algo descriptor.new))
            ≡ chains_to self.old }
        ensures none { result ≡ false → chains_to self.new ≡ chains_to self.old }
    {
        self.take_link();
        self.parts = self.parts.saturating_sub(1);
        match self.rest {
            Link::Blocks { base, size, count } if count > 0 => {
                let top = base + size;
                let count = count - 1;
                self.rest = Link::Blocks {
                    base: top,
                    size,
                    count,
                };
                *descriptor = ripas_descriptor(&self.value, base, top);
                true
            }
            Link::Pages { ipa, key, count } if count > 0 => {
                let Some((digest, digests)) = self.digests.split_first() else {
                    return false;
                };
                self.rest = Link::Pages {
                    ipa: ipa + GRANULE_SIZE,
                    key,
                    count: count - 1,
                };
                self.digests = digests;
                *descriptor = data_descriptor(&self.value, ipa, Some(digest));
                true
            }
            Link::Unmeasured { ipa, count } if count > 0 => {
                self.rest = Link::Unmeasured {
                    ipa: ipa + GRANULE_SIZE,
                    count: count - 1,
                };
                *descriptor = data_descriptor(&self.value, ipa, None);
                true
            }
            Link::Rec { content } => {
                self.rest = NONE_LEFT;
                *descriptor = rec_descriptor(&self.value, &content);
                true
            }
            _ => false,
        }
    }

    /// Goes on to the next link where no part of one is left.
    fn take_link(&mut self)
        ensures { self.new ≡ self.old }
    {
        if part_count(&self.rest) > 0 {
            return;
        }
        if let Some((link, links)) = self.links.split_first() {
            self.rest = *link;
            self.links = links;
        }
    }

    /// Puts the measurement in the place of the one before it.
    fn set(&mut self, value: &Measurement)
        ensures { self.new ≡ set_to self.old value.now.bytes }
    {
        self.value = *value;
    }

    /// Takes all parts that are left.
    fn finish(&mut self)
        ensures { IsNext self.old self.new }
    {
        self.value = self.finished();
        self.rest = NONE_LEFT;
        self.links = &[];
        self.digests = &[];
        self.parts = 0;
    }

    /// The measurement after all the parts that are left.
    pub fn finished(&self) -> Measurement
        ensures { result.bytes ≡ chains_to self.now }
    {
        let (own, others) = self.digests.split_at(page_count(&self.rest) as usize);
        extended_by_links(
            self.algo,
            extended_by_link(self.algo, self.value, &self.rest, own),
            self.links,
            others,
        )
    }
}

/// A measurement extended by the parts of links, whose pages have these digests.
fn extended_by_links(
    algo: Algo,
    rim: Measurement,
    links: &[Link],
    digests: &[Measurement],
) -> Measurement
    requires fit { All IsFitting links.now }
    requires filled { length digests.now ≡ length (keys_of links.now) }
    ensures { result.bytes ≡ extended_by algo rim.bytes (parts_with links.now digests.now) }
{
    let mut rim = rim;
    let mut digests = digests;
    for link in links {
        let (own, others) = digests.split_at(page_count(link) as usize);
        rim = extended_by_link(algo, rim, link, own);
        digests = others;
    }
    rim
}

/// Lets chains go on: those by one algorithm side by side, until the first that others wait for has come to its end, or only few have
/// parts left; or else one of them to its end, first one that others wait for. False where none has parts left. What side by side
/// is quick are four, or eight by SHA-256: so as many are to be given, if need be some without parts.
pub fn go_on(chains: &mut [LaunchChain]) -> bool
    requires few { length chains.old ≤ MOST_LANES }
    ensures { HaveGoneOn chains.old chains.new }
{
    let parts = parts_together(chains);
    if parts > 0
        && let Some(algo) = common_algo(chains)
    {
        go_on_together(algo, chains, parts);
        return true;
    }
    let Some(next) = next_alone(chains) else {
        return false;
    };
    chains[next].finish();
    true
}

/// The algorithm of chains that have one in common.
fn common_algo(chains: &[LaunchChain]) -> Option<Algo>
    ensures { IfSome result (λ algo. All (λ c. c.algo ≡ algo) chains.now) }
{
    let algo = chains.first()?.algo();
    for i in 0..chains.len() {
        if chains[i].algo() != algo {
            return None;
        }
    }
    Some(algo)
}

/// How many chains must have parts left to be quicker side by side than one after another. A group takes less than twice what a
/// chain alone does; by SHA-256 it is little less, so that two gain nothing.
pub fn fewest_together(algo: Algo) -> usize
    ensures { (0 < result) × (result < MOST_LANES) }
{
    match algo {
        Algo::Sha256 => 3,
        Algo::Sha512 => 2,
    }
}

/// How many parts chains are best extended by side by side: none where too few have parts left. It is a measure of the work alone.
fn parts_together(chains: &[LaunchChain]) -> u64
    requires { length chains.now ≤ MOST_LANES }
{
    let Some(first) = chains.first() else {
        return 0;
    };
    let fewest = fewest_together(first.algo());
    let mut parts = [0; MOST_LANES];
    let mut until = u64::MAX;
    for i in 0..chains.len() {
        parts[i] = chains[i].parts();
        if chains[i].is_awaited() {
            until = until.min(parts[i]);
        }
    }
    parts.sort_unstable();
    until.min(parts[MOST_LANES - fewest])
}

/// The chain that is best finished alone, if one has parts left: the first that others wait for, or else the first.
fn next_alone(chains: &[LaunchChain]) -> Option<usize>
    ensures { IfSome result (λ next. next < length chains.now) }
{
    let mut next = None;
    for i in 0..chains.len() {
        if chains[i].is_awaited() {
            return Some(i);
        }
        if chains[i].parts() > 0 && next.is_none() {
            next = Some(i);
        }
    }
    next
}

/// Extends the measurements of chains by one algorithm by this many of their next parts each, or by all where fewer are left.
fn go_on_together(algo: Algo, chains: &mut [LaunchChain], parts: u64)
    requires few { length chains.old ≤ MOST_LANES }
    requires algo { All (λ c. c.algo ≡ algo) chains.old }
    ensures { HaveGoneOn chains.old chains.new }
{
    let mut descriptors = [[0; DESCRIPTOR_SIZE]; MOST_LANES];
    let mut values = [Measurement { bytes: [0; 64] }; MOST_LANES];
    let mut taken = [false; MOST_LANES];
    let descriptors = &mut descriptors[..chains.len()];
    let values = &mut values[..chains.len()];
    let taken = &mut taken[..chains.len()];
    'parts: for _ in 0..parts {
        extend_next(algo, chains, descriptors, values, taken);
    }
}

/// Extends each measurement by the next part of its chain, if it has one.
fn extend_next(
    algo: Algo,
    chains: &mut [LaunchChain],
    descriptors: &mut [[u8; DESCRIPTOR_SIZE]],
    values: &mut [Measurement],
    taken: &mut [bool],
)
    requires descriptors { length descriptors.old ≡ length chains.old }
    requires values { length values.old ≡ length chains.old }
    requires taken { length taken.old ≡ length chains.old }
    requires algo { All (λ c. c.algo ≡ algo) chains.old }
    ensures chains { HaveGoneOn chains.old chains.new }
    ensures values { length values.new ≡ length values.old }
    ensures descriptors { length descriptors.new ≡ length descriptors.old }
    ensures taken { length taken.new ≡ length taken.old }
{
    take_next(chains, descriptors, taken);
    extend_each(algo, descriptors, values);
    set_each(chains, values, taken);
}

/// Takes the next part of each chain that has one, writes its descriptor, and notes that.
fn take_next(
    chains: &mut [LaunchChain],
    descriptors: &mut [[u8; DESCRIPTOR_SIZE]],
    taken: &mut [bool],
)
    requires descriptors { length descriptors.old ≡ length chains.old }
    requires taken { length taken.old ≡ length chains.old }
    ensures chains { HaveTaken (length chains.old) chains.old chains.new descriptors.new taken.new }
    ensures descriptors { length descriptors.new ≡ length descriptors.old }
    ensures taken { length taken.new ≡ length taken.old }
{
    'each: for i in 0..chains.len() {
        taken[i] = chains[i].next(&mut descriptors[i]);
    }
}

/// Puts the measurements of chains of which the next part was taken in the places of those before them.
fn set_each(chains: &mut [LaunchChain], values: &[Measurement], taken: &[bool])
    requires values { length values.now ≡ length chains.old }
    requires taken { length taken.now ≡ length chains.old }
    ensures { AreSet (length chains.old) chains.old chains.new (map (λ m. m.bytes) values.now)
        taken.now }
{
    'each: for i in 0..chains.len() {
        if taken[i] {
            chains[i].set(&values[i]);
        }
    }
}
