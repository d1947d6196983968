//! The map of a launch as JSON.
ghost use Rattle.std.specs.Prelude.{◌≡◌, IfOk, OnOk, codes, map};
ghost use Rattle.serde_json.specs.Data.{put as with_member};
ghost use Rattle.serde_json.specs.View.{members_view, view};
ghost use Rattle.ipa_layout.specs.Files.{bytes_of_files};
ghost use Rattle.launch_json.specs.Items.{count};
ghost use Rattle.rim_map.specs.MapJson.{IsMap, extensions_json, granules_json, launch_json, map_data};
ghost use Rattle.rim_map.specs.inside.Shared.{with_space};
ghost use Rattle.rim_map.specs.inside.Spaces.{IsSpace, seen_space};

use crate::json_parts::{extensions_value, granules_value, launch_value, region_values};
use launch_json::{Members, item_values, json_text, put_count, put_values, stretch_values};
use map_rows::{
    Extensions, Granules, Row, Shown, between, count_extensions, count_granules, item_rows, taken,
};
use map_text::warning_remarks;
use refusal::NoMemory;
use rim_accepted::{AcceptedLaunch, ListedLaunch};
use rim_launch::Config;
use rim_manifest::{NamedLaunch, Release};
use serde_json::{Map, Value, put};
use shown_text::remark_values;
use std::alloc::{AllocError, Global};

/// The map of a launch that is accepted: one JSON object without spaces, and a line feed. Its members are `extensions`,
/// `gaps` (the addresses between regions of RAM), `granules`, `items` in the manifest's order, `launch` (what it is), `regions` in the
/// manifest's order, each with the `gaps` between its items, `version`, which is 1, and `warnings`. Addresses and sizes are numbers, in
/// bytes.
pub fn map_json(
    alloc: Global,
    release: &Release,
    listed: &ListedLaunch<'_>,
) -> Result<Vec<u8>, NoMemory>
    ensures { IfOk result (λ text. IsMap release.now.paths listed.now.accepted.named.now
        (bytes_of_files listed.now.accepted.files.now) listed.now.accepted.placed text.items) }
{
    let accepted = &listed.accepted;
    let launch = accepted.named();
    let shown = Shown { release, launch };
    let granules = count_granules(listed)?;
    let extensions = count_extensions(alloc, accepted)?;
    let warnings = remark_values(alloc, &warning_remarks(alloc, accepted)?)?;
    let rows = item_rows(alloc, launch.launch(), accepted.files(), accepted.placed())?;
    let space = placed_space(alloc, shown, &rows)?;
    let value = map_value(alloc, launch, space, &granules, &extensions, warnings)?;
    json_text(alloc, &value)
}

/// The address space of a launch as JSON values.
#[derive(Drop)]
pub(crate) struct Space {
    pub gaps: Vec<Value>,
    pub items: Vec<Value>,
    pub regions: Vec<Value>,
}

/// The address space of a launch whose items have these places.
pub(crate) fn placed_space(alloc: Global, shown: Shown<'_>, rows: &[Row]) -> Result<Space, NoMemory>
    ensures { IfOk result (λ space. IsSpace shown.entry.release.now.paths shown.entry.launch.now
        rows.now (seen_space space)) }
{
    let launch = shown.launch.launch();
    let taken = taken(alloc, rows)?;
    let gaps = between(alloc, launch.ram())?;
    Ok(Space {
        gaps: stretch_values(alloc, &gaps)?,
        items: item_values(alloc, shown, None, rows)?,
        regions: region_values(alloc, launch.ram(), &taken)?,
    })
}

/// The map as a JSON value.
#[tactic(auto, unfolding(crate::specs::MapJson::map_data))]
fn map_value(
    alloc: Global,
    launch: &NamedLaunch,
    space: Space,
    granules: &Granules,
    extensions: &Extensions,
    warnings: Vec<Value>,
) -> Result<Value, AllocError>
    ensures { IfOk result (λ v. view v ≡ map_data launch.now (seen_space space) granules.now
        extensions.now (map view warnings.items)) }
{
    let mut members = Map::new(alloc);
    put_values(alloc, &mut members, "warnings", warnings)?;
    put_space(alloc, &mut members, space)?;
    put_counts(
        alloc,
        &mut members,
        &launch.launch().config(),
        granules,
        extensions,
    )?;
    put_head(alloc, &mut members, launch)?;
    Ok(Value::Object(members))
}

/// Adds an address space.
pub(crate) fn put_space(
    alloc: Global,
    members: &mut Members,
    space: Space,
) -> Result<(), AllocError>
    ensures { OnOk result (members_view members.new.entries
        ≡ with_space (seen_space space) (members_view members.old.entries)) }
{
    let Space {
        gaps,
        items,
        regions,
    } = space;
    put_values(alloc, members, "gaps", gaps)?;
    put_values(alloc, members, "items", items)?;
    put_values(alloc, members, "regions", regions)
}

/// Adds granules and extensions.
fn put_counts(
    alloc: Global,
    members: &mut Members,
    config: &Config,
    granules: &Granules,
    extensions: &Extensions,
) -> Result<(), AllocError>
    ensures { OnOk result (members_view members.new.entries
        ≡ with_member (codes "extensions") (extensions_json extensions.now)
        (with_member (codes "granules") (granules_json config.now granules.now)
        (members_view members.old.entries))) }
{
    let granules = granules_value(alloc, config, granules)?;
    put(members, alloc, "granules", granules)?;
    let extensions = extensions_value(alloc, extensions)?;
    put(members, alloc, "extensions", extensions)
}

/// Adds what a launch is, and the version of the map.
pub(crate) fn put_head(
    alloc: Global,
    members: &mut Members,
    launch: &NamedLaunch,
) -> Result<(), AllocError>
    ensures { OnOk result (members_view members.new.entries
        ≡ with_member (codes "version") (count 1)
        (with_member (codes "launch") (launch_json launch.now)
        (members_view members.old.entries))) }
{
    let value = launch_value(alloc, launch)?;
    put(members, alloc, "launch", value)?;
    put_count(alloc, members, "version", 1)
}
