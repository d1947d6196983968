//! The plan of a launch that has its place.
ghost use Rattle.std.specs.Prelude.{◌≡◌, [], ◌++◌, ◌^◌, ◌<◌, ◌≤◌, length, map, Some, Ok, IfOk, IsOk, OnErr, OnOk};
ghost use Rattle.std.specs.List.{All, flat_map, slice_get};
ghost use Rattle.rtt_plan.specs.Places.{IsRegion};
ghost use Rattle.rtt_plan.specs.Runs.{runs_of};
ghost use Rattle.rmi_list.specs.Listed.{listed};
ghost use Rattle.rmi_list.specs.Measured as measured;
ghost use Rattle.rmi_list.specs.RecParams.{rec_params};
ghost use Rattle.launch_plan.specs.Keys.{key_at};
ghost use Rattle.launch_plan.specs.Links.{keys_of};
ghost use Rattle.launch_plan.specs.Reading.{IsReadOf};
ghost use Rattle.launch_plan.specs.inside.Steps.{IsReadable, item_links, rec_links, run_link, step_links};

use crate::link::Link;
use crate::plan::{LaunchPlan, page_count};
use crate::recs::LastRecs;
use ipa_layout::{Placed, PlacedItem, PlacedRec};
use page_jobs::PageKey;
use rim_desc::{Algo, NoMemory, RecParams, RecRule, Source, extends};
use rim_launch::{Config, Launch, Region, Step, realm_params};
use rmi_list::Plan;
use rmm_model::{size_of_level, start_level};
use rtt_plan::{Run, run_from};
use std::alloc::Global;

impl LaunchPlan {
    /// The plan of a launch that has its place and this list of commands. It has no page's digest yet. This is the plain form of
    /// `of_launch`, which needs no list and which programs call.
    pub fn read(
        alloc: Global,
        algo: Algo,
        launch: &Launch,
        placed: &Placed,
        _list: &Plan,
    ) -> Result<LaunchPlan, NoMemory>
        requires algo { algo ≡ launch.now.config.algo }
        requires list { listed launch.now placed.now ≡ Ok _list.now }
        ensures read { IfOk result (λ p. IsReadOf launch.now placed.now p) }
        // A launch without steps takes no memory.
        ensures growth { OnErr result (0 < length launch.now.steps) }
    {
        LaunchPlan::of_launch(alloc, algo, launch, placed, &mut LastRecs::new())
    }

    /// The plan of a launch that has its place and a list of commands, which is not needed. A REC is hashed only where its contents are
    /// not those of one of the RECs that were hashed last.
    pub fn of_launch(
        alloc: Global,
        algo: Algo,
        launch: &Launch,
        placed: &Placed,
        last: &mut LastRecs,
    ) -> Result<LaunchPlan, NoMemory>
        requires algo { algo ≡ launch.now.config.algo }
        requires list { IsOk (listed launch.now placed.now) }
        ensures read { IfOk result (λ p. IsReadOf launch.now placed.now p) }
        // A launch without steps takes no memory.
        ensures growth { OnErr result (0 < length launch.now.steps) }
    {
        let mut links = Vec::new(alloc);
        push_steps(&mut links, algo, launch, placed, launch.steps(), last)?;
        let pages = pages_of(links.as_slice());
        Ok(LaunchPlan::of_links(realm_params(launch), links, pages))
    }
}

/// Adds the links of some steps.
fn push_steps(
    links: &mut Vec<Link>,
    algo: Algo,
    launch: &Launch,
    placed: &Placed,
    steps: &[Step],
    last: &mut LastRecs,
) -> Result<(), NoMemory>
    requires algo { algo ≡ launch.now.config.algo }
    requires readable { All (IsReadable launch.now) steps.now }
    ensures links { OnOk result (links.new.items
        ≡ links.old.items ++ flat_map (step_links launch.now placed.now) steps.now) }
    ensures growth { OnErr result (0 < length steps.now) }
{
    for step in steps {
        push_step(links, algo, launch, placed, *step, last)?;
    }
    Ok(())
}

/// Adds the links of a step.
fn push_step(
    links: &mut Vec<Link>,
    algo: Algo,
    launch: &Launch,
    placed: &Placed,
    step: Step,
    last: &mut LastRecs,
) -> Result<(), NoMemory>
    requires algo { algo ≡ launch.now.config.algo }
    requires readable { IsReadable launch.now step }
    ensures { OnOk result
        (links.new.items ≡ links.old.items ++ step_links launch.now placed.now step) }
{
    match step {
        Step::Ram(number) => match region_at(launch, number) {
            Some(region) => push_region(links, least_level(&launch.config()), &region),
            None => Ok(()),
        },
        Step::Item(number) => match item_at(placed, number) {
            Some(item) => push_item(links, algo, &item),
            None => Ok(()),
        },
        Step::Rec(number) => match rec_at(placed, number) {
            Some(rec) => push_rec(links, algo, launch.config().rec_rule, &rec, last),
            None => Ok(()),
        },
    }
}

/// The region of this number, if the launch has one.
fn region_at(launch: &Launch, number: usize) -> Option<Region>
    ensures { result ≡ slice_get launch.now.ram number }
{
    launch.ram().get(number).copied()
}

/// The item of this number, if the launch has one.
fn item_at(placed: &Placed, number: usize) -> Option<PlacedItem>
    ensures { result ≡ slice_get placed.now.items number }
{
    placed.items().get(number).copied()
}

/// The REC of this number, if the launch has one.
fn rec_at(placed: &Placed, number: usize) -> Option<PlacedRec>
    ensures { result ≡ slice_get placed.now.recs number }
{
    placed.recs().get(number).copied()
}

/// The least level of a block of RAM, which is no larger than an entry of a start table.
fn least_level(config: &Config) -> u8
    ensures { result ≡ measured.least_level config.now }
{
    config.block_level.max(start_level(config.s2sz))
}

/// Adds the links of a region of RAM, one for each of its runs.
fn push_region(links: &mut Vec<Link>, least_level: u8, region: &Region) -> Result<(), NoMemory>
    requires whole { IsRegion region.now.base region.now.end }
    requires small { region.now.end ≤ 2 ^ 47 }
    requires low { least_level ≤ 3 }
    ensures { OnOk result (links.new.items
        ≡ links.old.items
        ++ map run_link (runs_of region.now.base region.now.end least_level)) }
{
    let mut x = region.base;
    while x < region.end {
        let run = run_from(region.base, region.end, least_level, x);
        links.push(run_link(&run))?;
        x = run.top;
    }
    Ok(())
}

/// The blocks of a run.
fn run_link(run: &Run) -> Link
    requires { run.now.base ≤ run.now.top }
    ensures { result ≡ run_link run.now }
{
    let size = size_of_level(run.level);
    Link::Blocks {
        base: run.base,
        size,
        count: (run.top - run.base) / size,
    }
}

/// Adds the link of an item, if it has pages and a source.
fn push_item(links: &mut Vec<Link>, algo: Algo, item: &PlacedItem) -> Result<(), NoMemory>
    ensures { OnOk result (links.new.items ≡ links.old.items ++ item_links algo (Some item.now)) }
{
    if item.pages == 0 {
        return Ok(());
    }
    let Some(source) = item.source else {
        return Ok(());
    };
    let ipa = item.address.saturating_sub(item.lead);
    let count = item.pages;
    links.push(if item.measured {
        let key = page_key(algo, source, item, 0);
        Link::Pages { ipa, key, count }
    } else {
        Link::Unmeasured { ipa, count }
    })?;
    Ok(())
}

/// The key of the page of this number of an item that has its bytes from this source.
pub fn page_key(algo: Algo, source: Source, item: &PlacedItem, number: u64) -> PageKey
    ensures { result ≡ key_at algo source item.now number }
{
    PageKey {
        algo,
        source,
        lead: item.lead,
        number,
    }
}

/// Adds the link of a REC, if it extends the measurement.
fn push_rec(
    links: &mut Vec<Link>,
    algo: Algo,
    rule: Option<RecRule>,
    rec: &PlacedRec,
    last: &mut LastRecs,
) -> Result<(), NoMemory>
    ensures { OnOk result
        (links.new.items ≡ links.old.items ++ rec_links rule algo (Some rec.now)) }
{
    if !extends(rule, rec.runnable) {
        return Ok(());
    }
    let content = last.content(algo, &measured_params(rec));
    links.push(Link::Rec { content })?;
    Ok(())
}

/// The parameters of a REC that are measured. Its MPIDR and its auxiliary granules are not, so it has none here.
fn measured_params(rec: &PlacedRec) -> RecParams
    ensures { result ≡ rec_params 0 rec.now [] }
{
    let flags = if rec.runnable { 1 } else { 0 };
    RecParams::new(flags, 0, rec.pc, rec.x, &[])
}

/// How many measured pages some links have.
fn pages_of(links: &[Link]) -> usize
    requires { length (keys_of links.now) < 2 ^ 32 }
    ensures { result ≡ length (keys_of links.now) }
{
    let mut pages = 0;
    for link in links {
        pages += page_count(link) as usize;
    }
    pages
}
