//! A list that is being made.
ghost use Rattle.std.specs.Prelude.{◌≡◌, ◌+◌, ◌*◌, ◌<◌, ◌≤◌, ◌^◌, [], ◌∷◌, IfOk, OnOk, Some, None};
ghost use Rattle.rim_desc.specs.declared.command.Command.TheVariants.{Delegate, RttCreate, InitRipas};
ghost use Rattle.rmm_model.specs.Blocks.{granules};
ghost use Rattle.list_model.specs.Entries.{Whole, delegate_all, delegated, granule};
ghost use Rattle.list_model.specs.inside.Acts.{act_entries, entries_of_act, entries_of_pages, pages_in};
ghost use Rattle.rmi_list.specs.inside.Acts.{HasRoom, HaveRoom, item_of};
ghost use Rattle.rmi_list.specs.inside.Spans.{IsSpan};
ghost use Rattle.rmi_list.specs.inside.Drafts.{Grows, Lists, span_in};
ghost use Rattle.rim_desc.specs.declared.page.TheConstants.{PAGE_SIZE};

use crate::reason::StepReason;
use crate::span::Span;
use crate::step_fault::StepFault;
use ipa_layout::Placed;
use list_model::PageContent;
use refusal::NoMemory;
use rim_launch::{Config, Launch};
use rtt_plan::{Act, Tables};

/// The commands of a launch that were listed so far, and what they made.
#[derive(Drop)]
pub struct Draft<'a> {
    pub launch: &'a Launch,
    /// The launch's configuration, or that with another pool.
    pub config: Config,
    pub placed: &'a Placed,
    /// The tables, the RAM and the pages of data.
    pub tables: Tables,
    pub spans: Vec<Span>,
    /// How many granules of the pool were taken.
    pub taken: u64,
    /// How many RECs were listed.
    pub num_recs: usize,
}

/// The item whose pages are listed: its number, and what the monitor knows of its content.
#[derive(Clone, Copy)]
pub struct ItemPages {
    pub number: u8,
    pub known: PageContent,
}

impl<'a> Draft<'a> {
    /// Lists a command that takes no granule of the pool by itself.
    pub fn push(&mut self, span: Span) -> Result<(), NoMemory>
        requires none { delegated (span_in self.old span) ≡ 0 }
        requires span { IsSpan span }
        ensures { OnOk result (Grows self.old self.new (span_in self.old span)) }
    {
        self.spans.push(span)?;
        Ok(())
    }

    /// Takes the next granule of the pool, and lists that it is delegated; its number in the pool.
    pub fn delegate(&mut self) -> Result<u32, StepFault>
        ensures lists { let g = granule self.old.config.pool_base self.old.taken in
            Lists self.old self.new result (Whole (Delegate g) ∷ []) }
        ensures value { IfOk result (λ n. n ≡ self.old.taken) }
    {
        if self.taken >= self.config.pool_count {
            return Err(StepFault::Refused(StepReason::PoolEnd));
        }
        let granule = self.taken as u32;
        self.spans.push(Span::Delegate { granule })?;
        self.taken += 1;
        Ok(granule)
    }

    /// Delegates this many granules, one after another.
    pub fn delegate_all(&mut self, count: u64) -> Result<(), StepFault>
        ensures { let first = granule self.old.config.pool_base self.old.taken in
            Lists self.old self.new result (delegate_all (granules count first)) }
    {
        for _ in 0..count {
            self.delegate()?;
        }
        Ok(())
    }

    /// Lists a table of a level, in the next granule.
    fn table(&mut self, base: u64, level: u8) -> Result<(), StepFault>
        ensures { let g = granule self.old.config.pool_base self.old.taken in
            Lists self.old self.new result
            (Whole (Delegate g) ∷ Whole (RttCreate g base level) ∷ []) }
    {
        let rtt = self.delegate()?;
        self.push(Span::RttCreate {
            rtt,
            ipa: base,
            level,
        })?;
        Ok(())
    }

    /// Lists `count` pages of an item, from its page `first` and the IPA `base` on, each in the next granule.
    fn pages(&mut self, base: u64, count: u64, item: ItemPages, first: u64) -> Result<(), StepFault>
        requires few { first + count ≤ 2 ^ 32 }
        requires low { base + PAGE_SIZE * count ≤ 2 ^ 47 }
        ensures { let pool = self.old.config.pool_base in
            Lists self.old self.new result (entries_of_pages pool self.old.taken item.known
            item.number first (granules count base)) }
    {
        if count == 0 {
            return Ok(());
        }
        let most = self.config.pool_count;
        if self.taken > most {
            return Err(StepFault::Refused(StepReason::PoolEnd));
        }
        if most - self.taken < count {
            return Err(StepFault::Refused(StepReason::PoolEnd));
        }
        self.spans.push(Span::Pages {
            granule: self.taken as u32,
            ipa: base,
            item: item.number,
            known: item.known,
            page: first as u32,
            count,
        })?;
        self.taken += count;
        Ok(())
    }

    /// Lists an act of the plan; where it creates pages, those of the item from page `page` on. It answers the
    /// number of the item's next page.
    fn act(&mut self, act: &Act, item: Option<ItemPages>, page: u64) -> Result<u64, StepFault>
        requires { HasRoom (item_of item) page act.now }
        ensures lists { let pool = self.old.config.pool_base in
            Lists self.old self.new result
            (entries_of_act pool self.old.taken (item_of item) page act.now) }
        ensures next { IfOk result (λ next. next ≡ page + pages_in (item_of item) act.now) }
    {
        match (*act, item) {
            (Act::Table { base, level }, _) => {
                self.table(base, level)?;
                Ok(page)
            }
            (Act::Run { base, top, .. }, _) => {
                self.push(Span::InitRipas { base, top })?;
                Ok(page)
            }
            (Act::Pages { base, count }, Some(item)) => {
                self.pages(base, count, item, page)?;
                Ok(page + count)
            }
            (Act::Pages { .. }, None) => Ok(page),
        }
    }

    /// Lists the acts of a plan, one after another; where they create pages, those of the item from its first on.
    pub fn acts(&mut self, acts: &[Act], item: Option<ItemPages>) -> Result<(), StepFault>
        requires { HaveRoom (item_of item) 0 acts.now }
        ensures { let pool = self.old.config.pool_base in
            Lists self.old self.new result
            (act_entries pool self.old.taken (item_of item) 0 acts.now) }
    {
        let mut page = 0;
        for act in acts {
            page = self.act(act, item, page)?;
        }
        Ok(())
    }
}
