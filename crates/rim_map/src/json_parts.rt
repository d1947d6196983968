//! The parts of a map as JSON values. Members are in the order of their names.
ghost use Rattle.std.specs.Prelude.{◌≡◌, [], ◌∷◌, IfOk, OnOk, codes, map};
ghost use Rattle.serde_json.specs.Data.{array, no_members, object, put as with_member};
ghost use Rattle.serde_json.specs.View.{items_of, members_view, view};
ghost use Rattle.map_rows.specs.Stretches.{gaps_of};
ghost use Rattle.launch_json.specs.Items.{count, rule_json, stretch_json};
ghost use Rattle.rim_map.specs.MapJson.{extensions_json, granules_json, launch_json, region_json, regions_json};

use launch_json::{Members, put_count, put_text, put_values, rule_value, stretch_values};
use map_rows::{Extensions, Granules, Stretch, gaps};
use rim_desc::{GRANULE_SIZE, RecRule};
use rim_launch::{Config, Region};
use rim_manifest::NamedLaunch;
use serde_json::{Map, Value, json, put};
use std::alloc::{AllocError, Global};

/// Regions of RAM, of which items take these stretches.
pub(crate) fn region_values(
    alloc: Global,
    ram: &[Region],
    taken: &[Stretch],
) -> Result<Vec<Value>, AllocError>
    ensures { IfOk result (λ values. map view values.items ≡ regions_json taken.now ram.now) }
{
    let mut values = Vec::with_capacity(alloc, ram.len())?;
    for region in ram {
        values.push(region_value(alloc, region, taken)?)?;
    }
    Ok(values)
}

/// A region of RAM, with the gaps between its items.
fn region_value(alloc: Global, region: &Region, taken: &[Stretch]) -> Result<Value, AllocError>
    ensures { IfOk result (λ v. view v ≡ region_json taken.now region.now) }
{
    let mut members = Map::new(alloc);
    put_region(alloc, &mut members, region, taken)?;
    Ok(Value::Object(members))
}

/// Adds the members of a region.
#[tactic(auto, unfolding(crate::specs::MapJson::region_json))]
fn put_region(
    alloc: Global,
    members: &mut Members,
    region: &Region,
    taken: &[Stretch],
) -> Result<(), AllocError>
    requires { members_view members.old.entries ≡ no_members }
    ensures { OnOk result
        (object (members_view members.new.entries) ≡ region_json taken.now region.now) }
{
    let pages = (region.end - region.base) / GRANULE_SIZE;
    put_count(alloc, members, "base", region.base)?;
    put_count(alloc, members, "end", region.end)?;
    put_gaps(alloc, members, region, taken)?;
    put_count(alloc, members, "pages", pages)
}

/// Adds the gaps between the items of a region.
fn put_gaps(
    alloc: Global,
    members: &mut Members,
    region: &Region,
    taken: &[Stretch],
) -> Result<(), AllocError>
    ensures { OnOk result (members_view members.new.entries ≡ with_member (codes "gaps") (array
        (items_of (map stretch_json (gaps_of region.now.base region.now.end taken.now))))
        (members_view members.old.entries)) }
{
    let gaps = gaps(alloc, region.base, region.end, taken)?;
    let values = stretch_values(alloc, &gaps)?;
    put_values(alloc, members, "gaps", values)
}

/// What a launch is.
pub(crate) fn launch_value(alloc: Global, launch: &NamedLaunch) -> Result<Value, AllocError>
    ensures { IfOk result (λ v. view v ≡ launch_json launch.now) }
{
    let mut members = Map::new(alloc);
    put_facts(alloc, &mut members, launch)?;
    Ok(Value::Object(members))
}

/// Adds what a launch is.
#[tactic(auto, unfolding(crate::specs::MapJson::launch_json))]
fn put_facts(alloc: Global, members: &mut Members, launch: &NamedLaunch) -> Result<(), AllocError>
    requires { members_view members.old.entries ≡ no_members }
    ensures { OnOk result (object (members_view members.new.entries) ≡ launch_json launch.now) }
{
    let name = launch.name();
    let launch = launch.launch();
    let config = launch.config();
    put_text(alloc, members, "algorithm", config.algo.word())?;
    put_count(alloc, members, "block_level", u64::from(config.block_level))?;
    put_text(alloc, members, "name", name)?;
    put_rule(alloc, members, config.rec_rule)?;
    put_count(alloc, members, "recs", launch.recs().len() as u64)?;
    put_count(alloc, members, "s2sz", u64::from(config.s2sz))
}

/// Adds the rule for RECs.
fn put_rule(alloc: Global, members: &mut Members, rule: Option<RecRule>) -> Result<(), AllocError>
    ensures { OnOk result (members_view members.new.entries
        ≡ with_member (codes "rec_rule") (rule_json rule) (members_view members.old.entries)) }
{
    let rule = rule_value(alloc, rule)?;
    put(members, alloc, "rec_rule", rule)
}

/// The granules that are taken from the pool of a configuration.
pub(crate) fn granules_value(
    alloc: Global,
    config: &Config,
    granules: &Granules,
) -> Result<Value, AllocError>
    ensures { IfOk result (λ v. view v ≡ granules_json config.now granules.now) }
{
    let mut members = Map::new(alloc);
    put_granules(alloc, &mut members, config, granules)?;
    Ok(Value::Object(members))
}

/// Adds the members of granules.
#[tactic(auto, unfolding(crate::specs::MapJson::granules_json))]
fn put_granules(
    alloc: Global,
    members: &mut Members,
    config: &Config,
    granules: &Granules,
) -> Result<(), AllocError>
    requires { members_view members.old.entries ≡ no_members }
    ensures { OnOk result
        (object (members_view members.new.entries) ≡ granules_json config.now granules.now) }
{
    put_count(alloc, members, "auxiliary", granules.auxiliary)?;
    put_count(alloc, members, "delegated", granules.delegated)?;
    put_count(alloc, members, "descriptors", granules.descriptors)?;
    put_count(alloc, members, "pages", granules.pages)?;
    put_count(alloc, members, "pool_base", config.pool_base)?;
    put_count(alloc, members, "pool_count", config.pool_count)?;
    put_count(alloc, members, "recs", granules.recs)?;
    put_count(alloc, members, "start_tables", granules.start_tables)?;
    put_tables(alloc, members, granules)
}

/// Adds the tables of each level.
fn put_tables(alloc: Global, members: &mut Members, granules: &Granules) -> Result<(), AllocError>
    ensures { OnOk result (members_view members.new.entries ≡ with_member (codes "tables") (array
        (items_of (count granules.now.tables_1 ∷ count granules.now.tables_2
        ∷ count granules.now.tables_3 ∷ []))) (members_view members.old.entries)) }
{
    let tables = json!(in alloc; [granules.tables_1, granules.tables_2, granules.tables_3])?;
    put(members, alloc, "tables", tables)
}

/// The extensions of a measurement.
pub(crate) fn extensions_value(alloc: Global, extensions: &Extensions) -> Result<Value, AllocError>
    ensures { IfOk result (λ v. view v ≡ extensions_json extensions.now) }
{
    let mut members = Map::new(alloc);
    put_extensions(alloc, &mut members, extensions)?;
    Ok(Value::Object(members))
}

/// Adds the members of extensions.
#[tactic(auto, unfolding(crate::specs::MapJson::extensions_json))]
fn put_extensions(
    alloc: Global,
    members: &mut Members,
    extensions: &Extensions,
) -> Result<(), AllocError>
    requires { members_view members.old.entries ≡ no_members }
    ensures { OnOk result
        (object (members_view members.new.entries) ≡ extensions_json extensions.now) }
{
    put_count(alloc, members, "pages", extensions.pages)?;
    put_count(alloc, members, "realms", extensions.realms)?;
    put_count(alloc, members, "recs", extensions.recs)?;
    put_count(alloc, members, "ripas", extensions.ripas)?;
    put_count(alloc, members, "total", extensions.total)?;
    put_count(alloc, members, "unmeasured", extensions.unmeasured)
}
