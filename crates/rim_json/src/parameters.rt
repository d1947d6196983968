//! The parameters and the RECs of a launch.
ghost use Rattle.std.specs.Prelude.{◌≡◌, IfOk, OnOk};
ghost use Rattle.serde_json.specs.Data.{no_members};
ghost use Rattle.serde_json.specs.View.{members_view, view};
ghost use Rattle.rim_json.specs.ReportJson.{number_counts, parameters_json, recs_json, with_counts};

use launch_json::{Members, put_count, put_flag, rule_value};
use rim_desc::{NUMBER_COUNT, RealmNumbers};
use rim_launch::{Config, Launch};
use serde_json::{Map, Value, put};
use std::alloc::{AllocError, Global};

/// The realm's parameters that are measured beside the hash algorithm and the width of an IPA.
#[tactic(auto, unfolding(crate::specs::ReportJson::parameters_json))]
pub(crate) fn parameters_value(alloc: Global, config: &Config) -> Result<Value, AllocError>
    ensures { IfOk result (λ v. view v ≡ parameters_json config.now) }
{
    let mut members = Map::new(alloc);
    put_numbers(alloc, &mut members, &config.numbers)?;
    put_flag(alloc, &mut members, "pmu", config.pmu)?;
    put_flag(alloc, &mut members, "sve", config.sve)?;
    Ok(Value::Object(members))
}

/// Adds the numbers of a realm's parameters by their names.
fn put_numbers(
    alloc: Global,
    members: &mut Members,
    numbers: &RealmNumbers,
) -> Result<(), AllocError>
    ensures { OnOk result (members_view members.new.entries
        ≡ with_counts (members_view members.old.entries) (number_counts numbers.now)) }
{
    let rows = RealmNumbers::rows();
    let values = numbers.in_order();
    for at in 0..NUMBER_COUNT {
        put_count(alloc, members, rows[at].name, u64::from(values[at]))?;
    }
    Ok(())
}

/// How many RECs a launch has, how many of them may be run, and which extend the measurement.
#[tactic(auto, unfolding(crate::specs::ReportJson::recs_json))]
pub(crate) fn recs_value(alloc: Global, launch: &Launch) -> Result<Value, AllocError>
    ensures { IfOk result (λ v. view v ≡ recs_json launch.now) }
{
    let recs = launch.recs();
    let runnable = recs.iter().filter(|rec| rec.runnable).count();
    let mut members = Map::new(alloc);
    put_count(alloc, &mut members, "count", recs.len() as u64)?;
    let rule = rule_value(alloc, launch.config().rec_rule)?;
    put(&mut members, alloc, "rule", rule)?;
    put_count(alloc, &mut members, "runnable", runnable as u64)?;
    Ok(Value::Object(members))
}
