//! The steps of a launch, each as it is listed.
ghost use Rattle.std.specs.Prelude.{◌≡◌, ◌<◌, ◌≤◌, length, None, Some, slice_get};
ghost use Rattle.rmi_list.specs.Listed.{lacks_rule, list_item, list_rec, list_region, list_step};
ghost use Rattle.rmi_list.specs.Measured.{page_content};
ghost use Rattle.rmi_list.specs.Reason.{item_range, region_range, step_extent};
ghost use Rattle.rmi_list.specs.inside.Drafts.{AreListable, Continues, InPool, launch_of, progress_of};
ghost use Rattle.rim_desc.specs.declared.rec.TheConstants.{REC_LIMIT};
ghost use Rattle.ipa_layout.specs.declared.item_check.TheConstants.{PAGE_LIMIT};

use crate::draft::{Draft, ItemPages};
use crate::reason::{StepReason, item_range, region_range};
use crate::span::Span;
use crate::step_fault::StepFault;
use ipa_layout::{PlacedItem, PlacedRec};
use list_model::PageContent;
use rim_desc::RecRule;
use rim_launch::{Region, Step};

/// What the monitor knows of the content of an item's pages.
fn page_content(item: &PlacedItem) -> PageContent
    ensures { result ≡ page_content item.now }
{
    match item.source {
        None => PageContent::Unknown,
        Some(_) => {
            if item.measured {
                PageContent::Measured
            } else {
                PageContent::Unmeasured
            }
        }
    }
}

/// Whether a REC is not runnable, and there is no rule for such.
fn lacks_rule(rule: Option<RecRule>, rec: &PlacedRec) -> bool
    ensures { result ≡ lacks_rule rule rec.now }
{
    !rec.runnable && rule.is_none()
}

impl<'a> Draft<'a> {
    /// Lists that a region becomes RAM.
    fn region(&mut self, region: &Region) -> Result<(), StepFault>
        requires { InPool self.old }
        ensures { Continues self.old self.new (Some (region_range region.now)) result
            (list_region self.old.config (progress_of self.old) region.now) }
    {
        let acts = match self.tables.ripas_runs(region.base, region.end) {
            Ok(acts) => acts,
            Err(fault) => return Err(StepFault::of_plan(fault, region_range(region))),
        };
        self.acts(&acts, None)
    }

    /// Lists the pages of an item.
    fn item(&mut self, item: &PlacedItem, number: usize) -> Result<(), StepFault>
        requires pool { InPool self.old }
        requires number { number < 64 }
        requires few { item.now.pages ≤ PAGE_LIMIT }
        requires lead { item.now.lead ≤ item.now.address }
        ensures { Continues self.old self.new (Some (item_range item.now)) result
            (list_item self.old.config (progress_of self.old) number item.now) }
    {
        if item.pages == 0 {
            return Ok(());
        }
        let base = item.address - item.lead;
        let acts = match self.tables.data_pages(base, item.pages) {
            Ok(acts) => acts,
            Err(fault) => return Err(StepFault::of_plan(fault, item_range(item))),
        };
        let pages = ItemPages {
            number: number as u8,
            known: page_content(item),
        };
        self.acts(&acts, Some(pages))
    }

    /// Lists a REC.
    fn rec(&mut self, rec: &PlacedRec, number: usize) -> Result<(), StepFault>
        requires pool { InPool self.old }
        requires number { number < REC_LIMIT }
        requires own { slice_get self.old.placed.now.recs number ≡ Some rec.now }
        ensures { Continues self.old self.new None result
            (list_rec self.old.config (progress_of self.old) number rec.now) }
    {
        if number != self.num_recs {
            return Err(StepFault::Refused(StepReason::RecOrder {
                listed: self.num_recs,
            }));
        }
        if lacks_rule(self.config.rec_rule, rec) {
            return Err(StepFault::Refused(StepReason::RecNotRunnable));
        }
        let granule = self.delegate()?;
        self.delegate_all(self.config.num_aux as u64)?;
        self.push(Span::RecCreate {
            rec: granule,
            number: number as u16,
        })?;
        self.num_recs += 1;
        Ok(())
    }

    /// Lists a step of the launch.
    pub fn step(&mut self, step: &Step) -> Result<(), StepFault>
        requires pool { InPool self.old }
        requires items { AreListable self.old.placed.now.items }
        requires recs { length self.old.placed.now.recs ≤ REC_LIMIT }
        ensures { Continues self.old self.new
            (step_extent (launch_of self.old) self.old.placed.now step.now) result
            (list_step (launch_of self.old) self.old.placed.now (progress_of self.old) step.now) }
    {
        let (launch, placed) = (self.launch, self.placed);
        match step {
            Step::Ram(number) => match launch.ram().get(*number) {
                Some(region) => self.region(region),
                None => Ok(()),
            },
            Step::Item(number) => match placed.items().get(*number) {
                Some(item) => self.item(item, *number),
                None => Ok(()),
            },
            Step::Rec(number) => match placed.recs().get(*number) {
                Some(rec) => self.rec(rec, *number),
                None => Ok(()),
            },
        }
    }
}
