//! Plans: their pages and keys, and which may be.
use super::{check, first_key, plan, plan_with, realm};
use page_jobs::PageKey;
use rim_chain::{LaunchPlan, Link};
use rim_desc::Algo;
use std::alloc::Global;
use std::process::Abort;

/// Two pages of an item with this lead.
fn led(lead: u64) -> Link {
    Link::Pages {
        ipa: 4096,
        key: PageKey {
            lead,
            ..first_key(Algo::Sha512)
        },
        count: 2,
    }
}

/// Pages that are not measured before pages that are, twice.
fn four_pages(rt: &impl Abort, alloc: Global) -> LaunchPlan {
    let links = [NINE, led(0), NINE, led(8)];
    plan_with(rt, alloc, realm(Algo::Sha512), &links).expect(rt, "the links fit")
}

const NINE: Link = Link::Unmeasured { ipa: 0, count: 9 };

fn check_key(rt: &impl Abort, key: &PageKey, index: usize) {
    let index = index as u64;
    let place = key.lead == (index / 2).saturating_mul(8) && key.number == index % 2;
    assert!(rt; place && key.algo == Algo::Sha512, "page {index}");
}

#[test]
fn pages_have_keys_in_their_order(rt: HostRuntime) {
    let plan = four_pages(&rt, rt.alloc());
    check(&rt, plan.pages() == 4, "four pages");
    for index in 0..plan.pages() {
        check_key(&rt, &plan.key(index), index);
    }
}

#[test]
fn plans_are_compared_by_what_they_hold(rt: HostRuntime) {
    let one = plan(&rt, rt.alloc(), Algo::Sha256);
    let is_same = one.is_same(&plan(&rt, rt.alloc(), Algo::Sha256));
    check(&rt, is_same, "the same");
    let is_other = !one.is_same(&plan(&rt, rt.alloc(), Algo::Sha512));
    check(&rt, is_other, "another algorithm");
    let empty = plan_with(&rt, rt.alloc(), realm(Algo::Sha256), &[]);
    let empty = empty.expect(&rt, "no links fit");
    check(&rt, !one.is_same(&empty), "no links");
    check(&rt, empty.pages() == 0, "no pages");
}

/// Links of which an end is 2^64.
const TOO_FAR: [Link; 4] = [
    Link::Blocks {
        base: 0,
        size: 0x8000_0000_0000_0000,
        count: 2,
    },
    Link::Unmeasured {
        ipa: 0xffff_ffff_ffff_f000,
        count: 1,
    },
    Link::Unmeasured {
        ipa: 0,
        count: 0x10_0000_0000_0000,
    },
    Link::Blocks {
        base: 1,
        size: 0xffff_ffff_ffff_ffff,
        count: 1,
    },
];

fn check_refused(rt: &impl Abort, alloc: Global, link: Link) {
    let made = plan_with(rt, alloc, realm(Algo::Sha256), &[link]);
    assert!(rt; made.is_none(), "{link:?}");
}

#[test]
fn links_end_below_2_to_64(rt: HostRuntime) {
    for link in TOO_FAR {
        check_refused(&rt, rt.alloc(), link);
    }
}

#[test]
fn a_link_begins_with_the_first_page_of_its_item(rt: HostRuntime) {
    let key = PageKey {
        number: 1,
        ..first_key(Algo::Sha256)
    };
    let link = Link::Pages {
        ipa: 0,
        key,
        count: 1,
    };
    check_refused(&rt, rt.alloc(), link);
}
