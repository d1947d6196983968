//! The list of a launch is made, step by step.
ghost use Rattle.std.specs.Prelude.{◌≡◌, ◌<◌, ◌⊎◌, IfErr, IfOk, Ok};
ghost use Rattle.refusal.specs.Answer.{Answers};
ghost use Rattle.list_model.specs.Entries.{delegated};
ghost use Rattle.rmi_list.specs.Granules.{HasLargestPool, TakesGranules, with_config};
ghost use Rattle.rmi_list.specs.Listed.{HasPlace, listed, opening_entries, opening_progress};
ghost use Rattle.rmi_list.specs.Reason.{IsReason};
ghost use Rattle.rmi_list.specs.declared.fault.ListFault.{ListFault};
ghost use Rattle.rmi_list.specs.declared.step_fault.StepFault.{StepFault};
ghost use Rattle.rmi_list.specs.inside.Drafts.{AreSpans, InPool, IsWhole, entries_in, progress_of};

use crate::draft::Draft;
use crate::fault::ListFault;
use crate::plan::Plan;
use crate::reason::ListReason;
use crate::span::Span;
use crate::step_fault::StepFault;
use ipa_layout::Placed;
use refusal::NoMemory;
use rim_desc::REC_LIMIT;
use rim_launch::{Config, Launch, POOL_LIMIT};
use rmm_model::start_count;
use rtt_plan::Tables;
use std::alloc::Global;

/// The list of a launch that has its place, or why it has none. The first reason that holds is answered, but want of memory
/// may come before it.
pub fn list(alloc: Global, launch: &Launch, placed: &Placed) -> Result<Plan, ListFault>
    requires { HasPlace launch.now placed.now }
    ensures { Answers ListFault.NoMemory (λ plan. plan) result (listed launch.now placed.now) }
{
    match list_with_reason(alloc, launch, placed)? {
        Ok(plan) => Ok(plan),
        Err(reason) => Err(reason.fault()),
    }
}

/// The same, with the whole reason: which part of the list is refused, and the numbers that its check looked at.
pub fn list_with_reason(
    alloc: Global,
    launch: &Launch,
    placed: &Placed,
) -> Result<Result<Plan, ListReason>, NoMemory>
    requires { HasPlace launch.now placed.now }
    ensures list { IfOk result (λ found. IfOk found (λ plan.
        listed launch.now placed.now ≡ Ok plan)) }
    ensures reason { IfOk result (λ found. IfErr found (IsReason launch.now placed.now)) }
{
    match draft_of(alloc, launch, launch.config(), placed)? {
        Ok(draft) => Ok(Ok(Plan::of(alloc, draft)?)),
        Err(reason) => Ok(Err(reason)),
    }
}

/// How many granules the launch takes of the largest pool that one may have; `None` where it is refused with that pool too.
pub fn granules_taken(
    alloc: Global,
    launch: &Launch,
    placed: &Placed,
) -> Result<Option<u64>, NoMemory>
    requires { HasPlace launch.now placed.now }
    ensures { IfOk result (TakesGranules launch.now placed.now) }
{
    let config = with_largest_pool(launch.config());
    match draft_of(alloc, launch, config, placed)? {
        Ok(draft) => Ok(Some(draft.taken)),
        Err(_) => Ok(None),
    }
}

/// The same configuration, with the largest pool.
fn with_largest_pool(config: Config) -> Config
    ensures { HasLargestPool config result }
{
    let rpv = config.rpv;
    Config {
        algo: config.algo,
        s2sz: config.s2sz,
        sve: config.sve,
        pmu: config.pmu,
        numbers: config.numbers,
        rpv,
        block_level: config.block_level,
        num_aux: config.num_aux,
        rec_rule: config.rec_rule,
        pool_base: config.pool_base,
        pool_count: POOL_LIMIT,
    }
}

/// The whole list of a launch that has its place, with its own configuration or another one; or why it has none.
fn draft_of<'a>(
    alloc: Global,
    launch: &'a Launch,
    config: Config,
    placed: &'a Placed,
) -> Result<Result<Draft<'a>, ListReason>, NoMemory>
    requires { HasPlace launch.now placed.now }
    ensures whole { IfOk result (λ found. IfOk found
        (IsWhole (with_config launch.now config) placed.now)) }
    ensures own { IfOk result (λ found. IfOk found (λ d. (d.launch.now ≡ launch.now)
        × (d.config ≡ config))) }
    ensures reason { IfOk result (λ found. IfErr found
        (IsReason (with_config launch.now config) placed.now)) }
{
    let count = placed.recs().len();
    if count > REC_LIMIT {
        return Ok(Err(ListReason::TooManyRecs { count }));
    }
    let mut draft = match open(alloc, launch, config, placed) {
        Ok(draft) => draft,
        Err(StepFault::NoMemory) => return Err(NoMemory),
        Err(StepFault::Refused(_)) => return Ok(Err(ListReason::Opening)),
    };
    for (number, step) in launch.steps().iter().enumerate() {
        if let Err(fault) = draft.step(step) {
            return Ok(Err(ListReason::Step {
                number,
                step: *step,
                reason: fault.reason()?,
            }));
        }
    }
    draft.push(Span::Activate)?;
    Ok(Ok(draft))
}

/// The list's begin: the granules of the start tables and of the realm descriptor, and the realm.
fn open<'a>(
    alloc: Global,
    launch: &'a Launch,
    config: Config,
    placed: &'a Placed,
) -> Result<Draft<'a>, StepFault>
    ensures launch { IfOk result (λ d. d.launch.now ≡ launch.now) }
    ensures config { IfOk result (λ d. d.config ≡ config) }
    ensures placed { IfOk result (λ d. d.placed.now ≡ placed.now) }
    ensures entries { IfOk result (λ d. entries_in d ≡ opening_entries config) }
    ensures progress { IfOk result (λ d. progress_of d ≡ opening_progress config) }
    ensures pool { IfOk result InPool }
    ensures spans { IfOk result AreSpans }
    ensures fault { IfErr result (λ e. (e ≡ StepFault.NoMemory)
        ⊎ (config.pool_count < delegated (opening_entries config))) }
{
    let mut draft = Draft {
        launch,
        config,
        placed,
        tables: Tables::new(alloc, config.s2sz, config.block_level),
        spans: Vec::new(alloc),
        taken: 0,
        num_recs: 0,
    };
    draft.delegate_all(start_count(config.s2sz))?;
    let rd = draft.delegate()?;
    draft.push(Span::RealmCreate { rd })?;
    Ok(draft)
}
