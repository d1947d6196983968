//! Measurements extended link by link.
ghost use Rattle.std.specs.Prelude.{◌≡◌, ◌+◌, ◌*◌, ◌^◌, ◌<◌, ◌≤◌, List, length, map, IfSome, None, Some};
ghost use Rattle.rim_desc.specs.Part.{Data, extended_by};
ghost use Rattle.rim_desc.specs.declared.measurement.Measurement.{Measurement};
ghost use Rattle.rmm_model.specs.Blocks.{granules};
ghost use Rattle.launch_plan.specs.Prefixes.{IsPrefix, prefix_value};
ghost use Rattle.launch_plan.specs.Links.{PlanView, chain_of, keys_of, link_parts, page_count, pages_with};
ghost use Rattle.launch_plan.specs.Rows.{IsFilled};
ghost use Rattle.launch_plan.specs.Fitting.{IsFitting};
ghost use Rattle.rim_chain.specs.inside.Places.{IsPlace};
ghost use Rattle.rim_desc.specs.declared.page.TheConstants.{PAGE_SIZE};

use launch_plan::{LaunchPlan, Link, Prefix, page_count};
use page_jobs::DigestRow;
use rim_desc::{
    Algo, GRANULE_SIZE, Measurement, data_descriptor, extend, hash, realm_page, rec_descriptor,
};
use rmm_model::extended_by_stretches;

/// A measurement extended by pages from an IPA on, with these digests.
fn extended_by_pages(algo: Algo, rim: Measurement, ipa: u64, digests: &[Measurement]) -> Measurement
    requires { ipa + PAGE_SIZE * length digests.now < 2 ^ 64 }
    ensures { result.bytes ≡ extended_by algo rim.bytes (pages_with ipa digests.now) }
{
    let mut rim = rim;
    let mut next = ipa;
    for digest in digests {
        rim = extend(algo, &data_descriptor(&rim, next, Some(digest)));
        next += GRANULE_SIZE;
    }
    rim
}

/// A measurement extended by pages from an IPA on, of which the contents are not measured.
fn extended_by_unmeasured(algo: Algo, rim: Measurement, ipa: u64, count: u64) -> Measurement
    requires { ipa + PAGE_SIZE * count < 2 ^ 64 }
    ensures { result.bytes
        ≡ extended_by algo rim.bytes (map (λ x. Data x None) (granules count ipa)) }
{
    let mut rim = rim;
    let mut next = ipa;
    for _ in 0..count {
        rim = extend(algo, &data_descriptor(&rim, next, None));
        next += GRANULE_SIZE;
    }
    rim
}

/// A measurement extended by the parts of a link, whose pages have these digests.
pub(crate) fn extended_by_link(
    algo: Algo,
    rim: Measurement,
    link: &Link,
    digests: &[Measurement],
) -> Measurement
    requires fits { IsFitting link.now }
    requires filled { length digests.now ≡ page_count link.now }
    ensures { result.bytes ≡ extended_by algo rim.bytes (link_parts link.now digests.now) }
{
    match link {
        Link::Blocks { base, size, count } => {
            extended_by_stretches(algo, rim, *base, *size, *count)
        }
        Link::Pages { ipa, .. } => extended_by_pages(algo, rim, *ipa, digests),
        Link::Unmeasured { ipa, count } => extended_by_unmeasured(algo, rim, *ipa, *count),
        Link::Rec { content } => extend(algo, &rec_descriptor(&rim, content)),
    }
}

/// Where a chain is: how many links and pages of a plan it has taken, and its value there.
#[derive(Clone, Copy, Debug)]
pub(crate) struct Place {
    pub links: usize,
    pub pages: usize,
    pub value: Measurement,
}

/// The Realm Initial Measurement that a plan and the digests of its pages make. It takes a hash for each part.
pub fn chain(plan: &LaunchPlan, row: &DigestRow) -> Measurement
    requires { IsFilled plan.now row.now.digests }
    ensures { result.bytes ≡ chain_of plan.now row.now.digests }
{
    chain_on(plan, row, place_of(plan, row, None))
}

/// The same measurement, where its chain has come to a place.
pub(crate) fn chain_on(plan: &LaunchPlan, row: &DigestRow, from: Place) -> Measurement
    requires filled { IsFilled plan.now row.now.digests }
    requires from { IsPlace plan.now row.now.digests from }
    ensures { result.bytes ≡ chain_of plan.now row.now.digests }
{
    chained_to(plan, row, from, plan.links().len()).value
}

/// The place where a prefix ends, or the one after the realm.
pub(crate) fn place_of(plan: &LaunchPlan, row: &DigestRow, shared_prefix: Option<Prefix>) -> Place
    requires filled { IsFilled plan.now row.now.digests }
    requires shared_prefix { IfSome shared_prefix (IsPrefix plan.now row.now.digests) }
    ensures { IsPlace plan.now row.now.digests result }
{
    match shared_prefix {
        Some(prefix) => Place {
            links: prefix.links,
            pages: plan.pages_before(prefix.links),
            value: prefix.value,
        },
        None => Place {
            links: 0,
            pages: 0,
            value: realm_value(plan),
        },
    }
}

/// What the realm of a plan is measured as.
pub(crate) fn realm_value(plan: &LaunchPlan) -> Measurement
    ensures { (digests : List Measurement) → result.bytes ≡ prefix_value 0 plan.now digests }
{
    let params = plan.params();
    hash(params.algo, &realm_page(&params))
}

/// The place after this many links, to which a chain goes on from an earlier one.
fn chained_to(plan: &LaunchPlan, row: &DigestRow, from: Place, end: usize) -> Place
    requires filled { IsFilled plan.now row.now.digests }
    requires from { IsPlace plan.now row.now.digests from }
    requires end { (from.links ≤ end) × (end ≤ length plan.now.links) }
    ensures place { IsPlace plan.now row.now.digests result }
    ensures end { result.links ≡ end }
{
    let algo = plan.params().algo;
    let mut place = from;
    for at in from.links..end {
        let link = &plan.links()[at];
        let (_, rest) = row.digests().split_at(place.pages);
        let (own, _) = rest.split_at(page_count(link) as usize);
        place = Place {
            links: at + 1,
            pages: place.pages + own.len(),
            value: extended_by_link(algo, place.value, link, own),
        };
    }
    place
}
