//! Calls of the layers, on the first launch of a manifest.
ghost use Rattle.std.specs.Prelude.{◌≡◌, IfOk, None, length, map, replicate};
ghost use Rattle.std.specs.List.{All, Contains};
ghost use Rattle.job_core.specs.Jobs.{NeedsWithin};
ghost use Rattle.page_jobs.specs.Key.{IsRising};
ghost use Rattle.page_jobs.specs.Page.{page_view};
ghost use Rattle.page_jobs.specs.Table.{page_keys_of};
ghost use Rattle.launch_plan.specs.Links.{keys_of};
ghost use Rattle.rmi_list.specs.Listed.{HasPlace};

use crate::calls::LayerCall;
use crate::inputs::{files_of, split};
use crate::trial::{Fault, Seen, Trial, digest, made, tried};
use ipa_layout::{LayoutFault, Placed, place};
use job_board::{BoardState, Core, Run};
use job_board_tests::has_all_keys;
use page_jobs::{Blob, DigestRow, Page, Table};
use page_jobs_tests::distinct_pages;
use refusal::NoMemory;
use rim_chain::LaunchPlan;
use rim_desc::Measurement;
use rim_launch::Launch;
use rim_release::{Files, read_manifest};
use rmi_list::{ListFault, Plan, list};
use rtt_plan::{Act, PlanFault, Tables};
use std::alloc::{AllocError, Global};
use std::marker::Brand;
use std::sync::ledger::Blank;

/// What a call answers on the first launch of a manifest.
pub fn seen<R: Print + AllocGlobal>(
    trial: &Trial<'_, R>,
    call: LayerCall,
    input: &[u8],
) -> Result<Seen, Fault> {
    match call {
        LayerCall::RipasRuns | LayerCall::DataPages => planned(trial, call),
        LayerCall::NewCore => core_made(trial),
        _ => of_manifest(trial, call, input),
    }
}

fn of_manifest<R: Print + AllocGlobal>(
    trial: &Trial<'_, R>,
    call: LayerCall,
    input: &[u8],
) -> Result<Seen, Fault> {
    let alloc = trial.rt.alloc();
    let (text, rest) = split(input);
    let release = read_manifest(alloc, text).map_err(|_| Fault::Input)?;
    let files = files_of(alloc, &release, rest)?;
    match release.all_launches().first() {
        Some(named) => of_launch(trial, call, named.launch(), &files),
        None => Err(Fault::Input),
    }
}

/// Tables of 40 bits and blocks of up to 1 GiB; where data are to come, with 2 GiB of RAM.
fn tables_for(alloc: Global, call: LayerCall) -> Result<Tables, Fault> {
    let mut tables = Tables::new(alloc, 40, 1);
    if let LayerCall::DataPages = call {
        if tables.ripas_runs(0x4000_0000, 0xc000_0000).is_err() {
            return Err(Fault::Input);
        }
    }
    Ok(tables)
}

fn plan(tables: &mut Tables, call: LayerCall) -> Result<Vec<Act>, PlanFault> {
    match call {
        LayerCall::DataPages => tables.data_pages(0x4000_0000, 1),
        _ => tables.ripas_runs(0x4000_0000, 0xc020_1000),
    }
}

fn acts_digest(alloc: Global, acts: &Vec<Act>) -> Result<u64, AllocError> {
    Ok(digest(format!(in alloc; "{acts:?}")?.as_bytes()))
}

/// The levels at which walks end.
fn levels(tables: &Tables) -> [u8; 4] {
    [
        tables.walk_level(0x4000_0000),
        tables.walk_level(0x8000_0000),
        tables.walk_level(0xc000_0000),
        tables.walk_level(0xc020_0000),
    ]
}

/// A plan that goes on. Where memory is refused, walks end as before, and the same call then plans what it plans of new tables.
fn planned<R: Print + AllocGlobal>(trial: &Trial<'_, R>, call: LayerCall) -> Result<Seen, Fault> {
    let alloc = trial.rt.alloc();
    let mut tables = tables_for(alloc, call)?;
    let before = levels(&tables);
    match made!(trial, plan(&mut tables, call)) {
        Ok(acts) => Ok(Some(acts_digest(alloc, &acts)?)),
        Err(PlanFault::NoMemory) if levels(&tables) == before => {
            planned_again(alloc, call, &mut tables)
        }
        Err(_) => Err(Fault::Changed),
    }
}

fn planned_again(alloc: Global, call: LayerCall, tables: &mut Tables) -> Result<Seen, Fault> {
    let (Ok(acts), Ok(wanted)) = (
        plan(tables, call),
        plan(&mut tables_for(alloc, call)?, call),
    ) else {
        return Err(Fault::Changed);
    };
    if acts_digest(alloc, &acts)? == acts_digest(alloc, &wanted)? {
        Ok(None)
    } else {
        Err(Fault::Changed)
    }
}

/// What each launch needs: of two pages, the first, and both.
fn needs(alloc: Global) -> Result<Vec<Vec<usize>>, AllocError>
    ensures { IfOk result (λ v. NeedsWithin (map (λ needed. needed.items) v.items) 2) }
{
    let one = Vec::from_slice(alloc, &[0])?;
    let both = Vec::from_slice(alloc, &[0, 1])?;
    Ok(Vec::from_array(alloc, [one, both])?)
}

/// A core of three workers, two pages and two launches. What it is given is gone where memory is refused.
fn core_made<R: Print + AllocGlobal>(trial: &Trial<'_, R>) -> Result<Seen, Fault> {
    let alloc = trial.rt.alloc();
    let needs = needs(alloc)?;
    tried!(trial, Core::new(alloc, 3, 2, needs) => core_digest, NoMemory)
}

fn core_digest(alloc: Global, core: &Core) -> Result<u64, AllocError> {
    let (workers, pages, launches) = (core.workers(), core.pages(), core.launches());
    Ok(digest(format!(in alloc; "{workers} {pages} {launches}")?.as_bytes()))
}

/// Calls on a launch and its files.
fn of_launch<R: Print + AllocGlobal>(
    trial: &Trial<'_, R>,
    call: LayerCall,
    launch: &Launch,
    files: &Files,
) -> Result<Seen, Fault> {
    let alloc = trial.rt.alloc();
    if !launch.has_files(files.len()) {
        return Err(Fault::Input);
    }
    if let LayerCall::Place = call {
        return tried!(trial, place(alloc, launch, files) => place_digest, LayoutFault::NoMemory);
    }
    let Ok(placed) = place(alloc, launch, files) else {
        return Err(Fault::Input);
    };
    match call {
        LayerCall::List =>
            tried!(trial, list(alloc, launch, &placed) => list_digest, ListFault::NoMemory),
        _ => of_list(trial, call, launch, &placed, files),
    }
}

fn place_digest(alloc: Global, placed: &Placed) -> Result<u64, AllocError> {
    let (items, recs, edited) = (placed.items(), placed.recs(), placed.edited());
    Ok(digest(format!(in alloc; "{items:?} {recs:?} {edited:?}")?.as_bytes()))
}

/// A digest of all commands, each measured page with zeros for its contents.
fn list_digest(alloc: Global, list: &Plan) -> Result<u64, AllocError> {
    let mut value = 0_u64;
    for index in 0..list.len() {
        let command = list.command(index, &Measurement { bytes: [0; 64] });
        let shown = format!(in alloc; "{command:?}")?;
        value = value.rotate_left(1) ^ digest(shown.as_bytes());
    }
    Ok(value)
}

/// Calls on a launch that has its list.
fn of_list<R: Print + AllocGlobal>(
    trial: &Trial<'_, R>,
    call: LayerCall,
    launch: &Launch,
    placed: &Placed,
    files: &Files,
) -> Result<Seen, Fault>
    requires { HasPlace launch.now placed.now }
{
    let (alloc, algo) = (trial.rt.alloc(), launch.config().algo);
    let Ok(list) = list(alloc, launch, placed) else {
        return Err(Fault::Input);
    };
    let read = || LaunchPlan::read(alloc, algo, launch, placed, &list);
    if let LayerCall::ReadPlan = call {
        return tried!(trial, read() => plan_digest, NoMemory);
    }
    let plan = read()?;
    of_plan(trial, call, plan, placed, files)
}

fn plan_digest(alloc: Global, plan: &LaunchPlan) -> Result<u64, AllocError> {
    let links = plan.links();
    Ok(digest(format!(in alloc; "{links:?}")?.as_bytes()))
}

/// Calls on a launch that has its plan.
fn of_plan<R: Print + AllocGlobal>(
    trial: &Trial<'_, R>,
    call: LayerCall,
    plan: LaunchPlan,
    placed: &Placed,
    files: &Files,
) -> Result<Seen, Fault> {
    let alloc = trial.rt.alloc();
    if let LayerCall::ReserveRow = call {
        return tried!(trial, DigestRow::reserve(alloc, plan.pages()) => room, NoMemory);
    }
    let pages = pages_of(alloc, &plan, placed, files)?;
    if let LayerCall::ReserveTable = call {
        return tried!(trial, Table::reserve(alloc, &pages) => slots, NoMemory);
    }
    let plans = Vec::from_array(alloc, [plan])?;
    board_made(trial, &pages, &plans)
}

fn room(_alloc: Global, row: &DigestRow) -> Result<u64, AllocError> {
    Ok(row.room() as u64)
}

fn slots(_alloc: Global, table: &Table) -> Result<u64, AllocError> {
    Ok(table.pages().len() as u64)
}

/// The different measured pages of a plan.
fn pages_of<'a>(
    alloc: Global,
    plan: &LaunchPlan,
    placed: &'a Placed,
    files: &'a Files,
) -> Result<Vec<Page<'a>>, Fault>
    ensures { IfOk result (λ pages. IsRising (page_keys_of (map page_view pages.items))) }
{
    let mut pages = Vec::new(alloc);
    for index in 0..plan.pages() {
        let key = plan.key(index);
        if key.lead >= 4_096 || key.number >= 1 << 52 {
            return Err(Fault::Input);
        }
        let bytes = placed.bytes(files.as_slice(), key.source);
        pages.push(Blob::new(key.source, key.lead, bytes).page(key.algo, key.number))?;
    }
    distinct_pages(&mut pages);
    Ok(pages)
}

/// A board of three workers. What it is given is gone where memory is refused.
fn board_made<R: Print + AllocGlobal>(
    trial: &Trial<'_, R>,
    pages: &[Page],
    plans: &[LaunchPlan],
) -> Result<Seen, Fault>
    requires { IsRising (page_keys_of (map page_view pages.now)) }
{
    let table = Table::reserve(trial.rt.alloc(), pages)?;
    if !has_all_keys(&table, plans) {
        return Err(Fault::Input);
    }
    board_of::<Brand, R>(trial, Blank::new(3), table, plans)
}

fn board_of<'a, L: Run, R: Print + AllocGlobal>(
    trial: &Trial<'_, R>,
    blank: Blank,
    table: Table<'a>,
    plans: &'a [LaunchPlan],
) -> Result<Seen, Fault>
    requires name { blank.name ≡ L.name }
    requires parts { (blank.parts ≡ L.parts) × (blank.parts ≡ 3) }
    requires pages { table.pages ≡ L.pages }
    requires plans { plans.now ≡ L.plans }
    requires empty { table.digests ≡ replicate (length table.pages) None }
    requires keys { All (λ p. All (Contains (page_keys_of table.pages)) (keys_of p.links))
        plans.now }
{
    let alloc = trial.rt.alloc();
    match made!(trial, BoardState::<L>::new(alloc, blank, 3, table, plans)) {
        Ok((_board, shares)) => Ok(Some(shares.len() as u64)),
        Err(NoMemory) => Ok(None),
    }
}
