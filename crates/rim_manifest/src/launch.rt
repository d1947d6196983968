//! Reading the launches of a release.
ghost use Rattle.std.specs.Prelude.{◌≡◌, map, string_bytes};
ghost use Rattle.refusal.specs.Answer.{Answers};
ghost use Rattle.toml.specs.View.{view};
ghost use Rattle.rim_manifest.specs.Launches.{NamedData, config_of, item_name, launch_of, numbers_of};
ghost use Rattle.rim_manifest.specs.Manifest.{made};

use crate::fault::ManifestFault;
use crate::item::read_items;
use crate::rec::read_recs;
use crate::region::read_regions;
use crate::step::read_steps;
use crate::texts::read_texts;
use rim_desc::{AUX_LIMIT, NUMBER_COUNT, RealmNumbers};
use rim_launch::{Config, Launch, POOL_LIMIT};
use rim_rules::value::{algorithm, array, byte, digits, number, pool_base, text, truth};
use rim_rules::version::{FormatVersion, rec_rule};
use rmm_model::{LEAST_WIDTH, MOST_WIDTH};
use std::alloc::Global;
use std::marker::Model;
use toml::Value;

/// A launch of a release, with the names that the manifest gives it and its items. A name decides nothing of what is measured: where two
/// launches are compared for that, [`NamedLaunch::launch`] of each is compared.
#[derive(Drop)]
pub struct NamedLaunch {
    name: String,
    launch: Launch,
    item_names: Vec<String>,
}

impl Model for NamedLaunch {
    ghost Value = { NamedData };

    ghost view = { λ l. record {
      name = string_bytes l.name;
      launch = l.launch;
      item_names = map string_bytes l.item_names.items;
    } };
}

impl NamedLaunch {
    /// The name of the launch.
    pub fn name(&self) -> &str
        ensures { result.now ≡ self.now.name }
    {
        self.name.as_str()
    }

    /// The launch itself.
    pub fn launch(&self) -> &Launch
        ensures { result.now ≡ self.now.launch }
    {
        &self.launch
    }

    /// The name of the item of this number; no text where there is none.
    pub fn item_name(&self, number: usize) -> &str
        ensures { result.now ≡ item_name self.now number }
    {
        match self.item_names.get(number) {
            Some(name) => name.as_str(),
            None => "",
        }
    }
}

/// Reads the launch of this number from a table without faults, in a manifest of this version, where the files are these. A launch that its
/// type does not have is `BadStep`.
pub fn read_launch(
    alloc: Global,
    version: FormatVersion,
    files: &[Value],
    number: usize,
    table: &Value,
) -> Result<NamedLaunch, ManifestFault>
    ensures { Answers ManifestFault.NoMemory (λ l. l) result
        (made (launch_of version (map view files.now) number (view table.now))) }
{
    let name = String::from_str(alloc, text(table, "name"))?;
    let config = read_config(version, table);
    let ram = read_regions(alloc, array(table, "ram"))?;
    let item_names = read_texts(alloc, array(table, "item"), "name")?;
    let items = read_items(alloc, files, array(table, "item"))?;
    let recs = read_recs(alloc, array(table, "rec"))?;
    let steps = read_steps(alloc, table, &ram, &items, &recs)?;
    match Launch::new(number, config, ram, items, recs, steps) {
        Some(launch) => Ok(NamedLaunch {
            name,
            launch,
            item_names,
        }),
        None => Err(ManifestFault::BadStep),
    }
}

#[tactic(auto, unfolding(crate::specs::Launches::config_of))]
fn read_config(version: FormatVersion, table: &Value) -> Config
    ensures { result ≡ config_of version (view table.now) }
{
    Config {
        algo: algorithm(table, "algo"),
        s2sz: byte(table, "s2sz", LEAST_WIDTH, MOST_WIDTH, LEAST_WIDTH),
        sve: truth(table, "sve", false),
        pmu: truth(table, "pmu", false),
        numbers: read_numbers(table),
        rpv: digits(table, "rpv"),
        block_level: byte(table, "block_level", 0, 3, 2),
        num_aux: byte(table, "num_aux", 0, AUX_LIMIT as u8, 0),
        rec_rule: rec_rule(version, table),
        pool_base: pool_base(table, "pool_base"),
        pool_count: number(table, "pool_count", 1, POOL_LIMIT, POOL_LIMIT),
    }
}

/// The numbers of the realm's parameters, each at the key that its row names.
fn read_numbers(table: &Value) -> RealmNumbers
    ensures { result ≡ numbers_of (view table.now) }
{
    let rows = RealmNumbers::rows();
    let mut numbers = [0; NUMBER_COUNT];
    for at in 0..NUMBER_COUNT {
        numbers[at] = byte(table, rows[at].name, 0, rows[at].most, 0);
    }
    RealmNumbers::from_order(numbers)
}
