//! The list of a launch.
mod common;

ghost use Rattle.std.specs.Prelude.{◌≡◌, ℕ, List, ◌+◌, ◌-◌, ◌*◌, ◌<◌, ◌≤◌, ◌^◌, ◌⊎◌, slice_index, length, take, Some, option_map, option_and_then, slice_get, IfOk, IfErr, Ok, Err};
ghost use Rattle.refusal.specs.Answer.{Answers};
ghost use Rattle.rmm_model.specs.Blocks.{granules};
ghost use Rattle.list_model.specs.Entries.{Whole, command_of, delegated, granule, page_of};
ghost use Rattle.rmi_list.specs.Listed.{HasPlace, listed, opening_progress, opening_entries};
ghost use Rattle.rmi_list.specs.Reason.{IsReason};
ghost use Rattle.rmi_list.specs.declared.fault.ListFault.{ListFault};
ghost use Rattle.rmi_list.specs.declared.step_fault.StepFault.{StepFault};
ghost use Rattle.rmi_list.specs.inside.Drafts.{AreSpans, InPool, entries_in, progress_of};
ghost use Rattle.rmi_list.specs.inside.Spans.{IsCommandAt, IsPageAt, IsSpan, commands_in, entries_of_span, rec_entry};
ghost use Rattle.rmi_list.specs.inside.Plans.{AreStarts};
ghost use Rattle.list_model.specs.inside.Acts.{entries_of_pages};
ghost use Rattle.std.specs.List.{All, sum_by};
ghost use Rattle.rim_desc.specs.declared.realm.RealmParams.{RealmParams};
ghost use Rattle.ipa_layout.specs.declared.rec.PlacedRec.{PlacedRec};
ghost use Rattle.rim_desc.specs.declared.rec.TheConstants.{AUX_LIMIT, REC_LIMIT};

use crate::draft::Draft;
use crate::fault::ListFault;
use crate::reason::ListReason;
use crate::span::Span;
use crate::step_fault::StepFault;
use ipa_layout::{Placed, PlacedRec};
use list_model::PageContent;
use refusal::NoMemory;
use rim_desc::{
    AUX_LIMIT, Command, GRANULE_SIZE, Measurement, REC_LIMIT, RealmParams, RecParams, rec_mpidr,
};
use rim_launch::{Launch, realm_params};
use rmm_model::start_count;
use rtt_plan::Tables;
use std::alloc::Global;
use std::marker::Model;

/// The commands that a host gives the monitor to build a launch's realm. The contents of measured pages are open:
/// they are handed in where a command is asked for.
///
/// It keeps spans: the commands of neighbouring pages are one, and each other command is one. `starts` has for each span how
/// many commands come before it, and at last how many there are in all.
#[derive(Drop)]
pub struct Plan {
    params: RealmParams,
    num_aux: u8,
    recs: Vec<PlacedRec>,
    spans: Vec<Span>,
    starts: Vec<usize>,
}

impl Model for Plan {
    ghost use Rattle.std.specs.Prelude.{List};
    ghost use Rattle.list_model.specs.Entries.{Entry};

    ghost Value = { List Entry };

    ghost use Rattle.rmi_list.specs.inside.Plans.{IsWellFormed, shown_plan};

    ghost view = { shown_plan };

    ghost invariant = { IsWellFormed };
}

impl Plan {
    /// The plan of a list that was made.
    pub(crate) fn of<'a>(alloc: Global, draft: Draft<'a>) -> Result<Plan, NoMemory>
        requires config { draft.config ≡ draft.launch.now.config }
        requires recs { length draft.placed.now.recs ≤ REC_LIMIT }
        requires few { delegated (entries_in draft) ≤ 2 ^ 32 }
        requires spans { All IsSpan draft.spans.items }
        ensures { IfOk result (λ plan. plan ≡ entries_in draft.entry) }
    {
        let starts = number(alloc, &draft.spans)?;
        Ok(Plan {
            params: realm_params(draft.launch),
            num_aux: draft.config.num_aux,
            recs: Vec::from_slice(alloc, draft.placed.recs())?,
            spans: draft.spans,
            starts,
        })
    }

    /// How many commands it has.
    pub fn len(&self) -> usize
        ensures { result ≡ length self.now }
    {
        self.starts[self.spans.len()]
    }

    /// How many spans it keeps. This says how much memory it takes, and nothing of its commands.
    pub fn span_count(&self) -> usize {
        self.spans.len()
    }

    /// The number of the item and of its page, where a command creates a measured page.
    pub fn page_of(&self, index: usize) -> Option<(usize, u64)>
        requires { index < length self.now }
        ensures { result ≡ option_and_then page_of (slice_get self.now index) }
    {
        let at = span_at(&self.starts, index);
        page_in(&self.spans[at], index - self.starts[at])
    }

    /// A command of the list. Where it creates a measured page, the page's content is this measurement; others do not use it.
    pub fn command(&self, index: usize, content: &Measurement) -> Command
        requires { index < length self.now }
        ensures { option_map (command_of (λ item page. content.now)) (slice_get self.now index)
            ≡ Some result }
    {
        let at = span_at(&self.starts, index);
        command_in(
            self.params,
            self.num_aux,
            self.recs.as_slice(),
            &self.spans[at],
            index - self.starts[at],
            content,
        )
    }
}

/// A command of a span.
fn command_in(
    params: RealmParams,
    num_aux: u8,
    recs: &[PlacedRec],
    span: &Span,
    offset: usize,
    content: &Measurement,
) -> Command
    requires low { params.rtt_base < 2 ^ 48 }
    requires aux { num_aux ≤ AUX_LIMIT }
    requires few { length recs.now ≤ REC_LIMIT }
    requires span { IsSpan span.now }
    requires within { offset < commands_in span.now }
    ensures { IsCommandAt content.now (entries_of_span params num_aux recs.now span.now) offset
        result }
{
    let pool = params.rtt_base;
    match *span {
        Span::Delegate { granule } => Command::Delegate {
            granule: granule_at(pool, granule as u64),
        },
        Span::RealmCreate { rd } => Command::RealmCreate {
            rd: granule_at(pool, rd as u64),
            params,
        },
        Span::RttCreate { rtt, ipa, level } => Command::RttCreate {
            rtt: granule_at(pool, rtt as u64),
            ipa,
            level,
        },
        Span::InitRipas { base, top } => Command::InitRipas { base, top },
        Span::Pages {
            granule,
            ipa,
            known,
            ..
        } => page_command(pool, granule, ipa, known, offset, content),
        Span::RecCreate { rec, number } => rec_create(pool, num_aux, recs, rec, number),
        Span::Activate => Command::Activate,
    }
}

/// How many commands a span has.
fn commands_in(span: &Span) -> usize
    requires { commands_in span.now < 2 ^ 64 }
    ensures { result ≡ commands_in span.now }
{
    match *span {
        Span::Pages { count, .. } => 2 * count as usize,
        _ => 1,
    }
}

/// How many commands come before each span, and how many there are in all.
fn number(alloc: Global, spans: &[Span]) -> Result<Vec<usize>, NoMemory>
    requires { sum_by commands_in spans.now < 2 ^ 64 }
    ensures { IfOk result (λ starts. AreStarts spans.now starts.items) }
{
    let mut starts = Vec::with_capacity(alloc, spans.len() + 1)?;
    let mut len = 0;
    starts.push(len)?;
    for span in spans {
        len += commands_in(span);
        starts.push(len)?;
    }
    Ok(starts)
}

/// The span of a command, by binary search: the last that begins at it or before.
fn span_at(starts: &[usize], index: usize) -> usize
    requires some { 1 ≤ length starts.now }
    requires first { slice_index starts.now 0 ≡ 0 }
    requires last { index < slice_index starts.now (length starts.now - 1) }
    ensures inside { result + 1 < length starts.now }
    ensures from { slice_index starts.now result ≤ index }
    ensures below { index < slice_index starts.now (result + 1) }
{
    let mut low = 0;
    let mut high = starts.len() - 1;
    while high - low > 1 {
        let middle = low + (high - low) / 2;
        if starts[middle] <= index {
            low = middle;
        } else {
            high = middle;
        }
    }
    low
}

/// The number of the item and of its page, where a command of a span creates a measured page.
fn page_in(span: &Span, offset: usize) -> Option<(usize, u64)>
    requires { offset < commands_in span.now }
    ensures { IsPageAt span.now offset result }
{
    match *span {
        Span::Pages {
            item,
            known,
            page,
            ..
        } => {
            if !known.is_measured() {
                return None;
            }
            if offset % 2 == 0 {
                return None;
            }
            Some((item as usize, page as u64 + (offset / 2) as u64))
        }
        _ => None,
    }
}

/// A command of a span of pages: a granule is delegated, or it becomes a page.
fn page_command(
    pool: u64,
    granule: u32,
    ipa: u64,
    known: PageContent,
    offset: usize,
    content: &Measurement,
) -> Command
    requires low { pool < 2 ^ 48 }
    requires few { offset < 2 ^ 33 }
    requires ipa { ipa ≤ 2 ^ 47 }
    ensures { (item page count : ℕ) → offset < 2 * count
        → IsCommandAt content.now
        (entries_of_pages pool granule known item page (granules count ipa)) offset result }
{
    let page = (offset / 2) as u64;
    let granule = granule_at(pool, granule as u64 + page);
    if offset % 2 == 0 {
        return Command::Delegate { granule };
    }
    let ipa = ipa + GRANULE_SIZE * page;
    match known {
        PageContent::Measured => Command::DataCreate {
            granule,
            ipa,
            content: Some(*content),
        },
        PageContent::Unmeasured => Command::DataCreate {
            granule,
            ipa,
            content: None,
        },
        PageContent::Unknown => Command::DataCreateUnknown { granule, ipa },
    }
}

/// A granule of the pool that begins at an address.
fn granule_at(pool: u64, number: u64) -> u64
    requires low { pool < 2 ^ 48 }
    requires few { number < 2 ^ 33 }
    ensures { result ≡ granule pool number }
{
    pool + GRANULE_SIZE * number
}

/// The granules from this number of the pool on, in the first places.
fn granules_at(pool: u64, first: u64, count: usize) -> [u64; AUX_LIMIT]
    requires low { pool < 2 ^ 48 }
    requires few { first ≤ 2 ^ 32 }
    requires count { count ≤ AUX_LIMIT }
    ensures { take count result ≡ granules count (granule pool first) }
{
    let mut granules = [0; AUX_LIMIT];
    for index in 0..count {
        granules[index] = granule_at(pool, first + index as u64);
    }
    granules
}

/// The command that creates a REC of the launch, in a granule of the pool and with the auxiliary granules after it.
fn rec_create(pool: u64, num_aux: u8, recs: &[PlacedRec], rec: u32, number: u16) -> Command
    requires low { pool < 2 ^ 48 }
    requires aux { num_aux ≤ AUX_LIMIT }
    requires few { length recs.now ≤ REC_LIMIT }
    ensures { Whole result ≡ rec_entry pool num_aux rec number (slice_get recs.now number) }
{
    match recs.get(number as usize) {
        Some(placed) => {
            let aux = granules_at(pool, rec as u64 + 1, num_aux as usize);
            Command::RecCreate {
                rec: granule_at(pool, rec as u64),
                params: RecParams::new(
                    if placed.runnable { 1 } else { 0 },
                    rec_mpidr(number as usize),
                    placed.pc,
                    placed.x,
                    &aux[..num_aux as usize],
                ),
            }
        }
        None => Command::Activate,
    }
}
