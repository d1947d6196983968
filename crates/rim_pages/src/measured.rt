//! The measured pages of launches, counted without looking at any.
ghost use Rattle.std.specs.Prelude.{◌≡◌, ◌++◌, IfOk, OnOk, Some};
ghost use Rattle.std.specs.List.{flat_map, sum_by};
ghost use Rattle.rim_pages.specs.inside.Ends.{item_ends, launch_ends, step_ends};

use ipa_layout::PlacedItem;
use page_jobs::{KeyRange, PageKey, distinct_ranges};
use refusal::NoMemory;
use rim_accepted::{AcceptedLaunch, item_at};
use rim_chain::page_key;
use rim_desc::Algo;
use rim_launch::Step;
use std::alloc::{AllocError, Global};
use std::marker::Model;

/// The measured pages of some launches, of which a clause sees the keys. It takes memory for each item, not for each page.
#[derive(Drop)]
pub struct MeasuredPages {
    ends: Vec<PageKey>,
}

impl Model for MeasuredPages {
    ghost use Rattle.std.specs.Prelude.{List};
    ghost use Rattle.std.specs.List.{flat_map};
    ghost use Rattle.page_jobs.specs.Ranges.{keys_before};
    ghost use Rattle.page_jobs.specs.declared.page.PageKey.{PageKey};

    ghost Value = { List PageKey };

    ghost view = { λ m. flat_map keys_before m.ends.items };
}

impl MeasuredPages {
    ghost use Rattle.std.specs.Prelude.{◌≡◌, ◌++◌, [], IfOk, Ok, OnOk, length};
    ghost use Rattle.rim_pages.specs.Pages.{keys_at};
    ghost use Rattle.page_jobs.specs.Key.{rising_keys};

    /// Those of no launch. It takes no memory.
    pub fn new(alloc: Global) -> MeasuredPages
        ensures { result ≡ [] }
    {
        MeasuredPages {
            ends: Vec::new(alloc),
        }
    }

    /// Adds those of a launch that is accepted.
    pub fn add(&mut self, accepted: &AcceptedLaunch<'_>) -> Result<(), AllocError>
        ensures { OnOk result (self.new
            ≡ self.old ++ keys_at accepted.now.named.now.launch (Ok accepted.now.placed)) }
    {
        push_launch(&mut self.ends, accepted)
    }

    /// How many different pages they are.
    pub fn count(self, alloc: Global) -> Result<u128, NoMemory>
        ensures { IfOk result (λ count. count ≡ length (rising_keys self)) }
    {
        let ranges = distinct_ranges(alloc, self.ends)?;
        Ok(page_count(&ranges))
    }
}

/// Adds the measured items of a launch, each by the key after its last page.
pub(crate) fn push_launch(
    ends: &mut Vec<PageKey>,
    accepted: &AcceptedLaunch<'_>,
) -> Result<(), AllocError>
    ensures { OnOk result (ends.new.items ≡ ends.old.items ++ launch_ends accepted.now) }
{
    for step in accepted.launch().steps() {
        push_step(ends, accepted, *step)?;
    }
    Ok(())
}

/// Adds the item of a step, where the step has one that is measured.
fn push_step(
    ends: &mut Vec<PageKey>,
    accepted: &AcceptedLaunch<'_>,
    step: Step,
) -> Result<(), AllocError>
    ensures { OnOk result (ends.new.items
        ≡ ends.old.items ++ step_ends accepted.now.named.now.launch accepted.now.placed step) }
{
    let Step::Item(number) = step else {
        return Ok(());
    };
    match item_at(accepted.placed().items(), number) {
        Some(item) => push_item(ends, accepted.launch().config().algo, &item),
        None => Ok(()),
    }
}

/// Adds the key after the last page of an item, if it is measured.
fn push_item(ends: &mut Vec<PageKey>, algo: Algo, item: &PlacedItem) -> Result<(), AllocError>
    ensures { OnOk result (ends.new.items ≡ ends.old.items ++ item_ends algo (Some item.now)) }
{
    match item.source {
        Some(source) if item.measured => ends.push(page_key(algo, source, item, item.pages))?,
        _ => {}
    }
    Ok(())
}

/// How many pages some ranges have.
pub(crate) fn page_count(ranges: &[KeyRange]) -> u128
    ensures { result ≡ sum_by (λ r. r.count) ranges.now }
{
    let mut count = 0;
    for range in ranges {
        count += u128::from(range.count);
    }
    count
}
