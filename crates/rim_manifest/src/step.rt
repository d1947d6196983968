//! Reading steps.
ghost use Rattle.std.specs.Prelude.{◌≡◌, ◌==◌, ◌||◌, codes, length, map, option_map, true, IfOk};
ghost use Rattle.toml.specs.Data.{get};
ghost use Rattle.toml.specs.View.{view};
ghost use Rattle.rim_manifest.specs.StepTexts.{decimal_number, part_count, is_decimal, is_miscounted, is_misnamed, item_number, step_in, step_of, steps_in};
ghost use Rattle.rim_rules.specs.Values.{array_at};
ghost use Rattle.rim_rules.specs.Words.{after};

use refusal::NoMemory;
use rim_launch::{
    Item, NAMED_REC_LIMIT, REGION_LIMIT, Rec, Region, Step, default_steps, steps_complete,
};
use rim_rules::kind::StepKind;
use rim_rules::names::position_of;
use rim_rules::value::{array, field, items};
use rim_rules::word::{after, are_digits, spelled};
use std::alloc::{AllocError, Global};
use toml::Value;

/// The most digits of a number in a step: no launch has 10,000 regions or RECs.
const MOST_DIGITS: usize = 4;

/// Reads the steps of a launch that has these regions, items and RECs. A text that spells no step reads as the
/// step of a region that no launch has.
pub fn read_steps(
    alloc: Global,
    launch: &Value,
    ram: &[Region],
    things: &[Item],
    recs: &[Rec],
) -> Result<Vec<Step>, NoMemory>
    ensures { IfOk result (λ v. v.items
        ≡ steps_in (length ram.now) (array_at (codes "item") (view launch.now)) things.now
        (length recs.now) (get (codes "steps") (view launch.now))) }
{
    match field(launch, "steps") {
        Some(texts) => Ok(spelled_steps(alloc, array(launch, "item"), items(texts))?),
        None => default_steps(alloc, ram.len(), things, recs.len()),
    }
}

fn spelled_steps(alloc: Global, tables: &[Value], texts: &[Value]) -> Result<Vec<Step>, AllocError>
    ensures { IfOk result
        (λ v. v.items ≡ map (λ t. step_in (map view tables.now) (view t)) texts.now) }
{
    texts.iter().map(|text| step(tables, text)).collect(alloc)
}

/// The step that a text spells; one that spells none, as the step of a region that no launch has.
pub fn step(tables: &[Value], text: &Value) -> Step
    ensures { result ≡ step_in (map view tables.now) (view text.now) }
{
    match text {
        Value::String(text) => spelled_step(tables, text.as_bytes()).unwrap_or(Step::Ram(
            REGION_LIMIT,
        )),
        _ => Step::Ram(REGION_LIMIT),
    }
}

/// The step that a text spells.
fn spelled_step(tables: &[Value], text: &[u8]) -> Option<Step>
    ensures { result ≡ step_of (map view tables.now) text.now }
{
    if let Some(number) = decimal(after(StepKind::Ram.front().as_bytes(), text)) {
        return Some(Step::Ram(number));
    }
    if let Some(number) = item_number(tables, after(StepKind::Item.front().as_bytes(), text)) {
        return Some(Step::Item(number));
    }
    match decimal(after(StepKind::Rec.front().as_bytes(), text)) {
        Some(number) => Some(Step::Rec(number)),
        None => None,
    }
}

/// The place of the item of a name.
fn item_number(tables: &[Value], name: Option<&[u8]>) -> Option<usize>
    ensures { result ≡ item_number (map view tables.now) (option_map (λ t. t.now) name.entry) }
{
    match name {
        Some(name) => position_of(tables, name),
        None => None,
    }
}

/// The number of decimal digits without a leading zero.
fn decimal(digits: Option<&[u8]>) -> Option<usize>
    ensures { result ≡ decimal_number (option_map (λ t. t.now) digits.entry) }
{
    match digits {
        Some(digits) if is_decimal(digits) => Some(spelled(10, digits) as usize),
        _ => None,
    }
}

fn is_decimal(digits: &[u8]) -> bool
    ensures { result ≡ is_decimal digits.now }
{
    are_digits(10, MOST_DIGITS, digits) && (digits.len() == 1 || digits[0] != b'0')
}

/// Whether a launch names other than as many steps as it has regions, items and RECs.
pub fn is_miscounted(launch: &Value) -> bool
    ensures { result ≡ is_miscounted (view launch.now) }
{
    match field(launch, "steps") {
        Some(texts) => items(texts).len() != part_count(launch),
        None => false,
    }
}

fn part_count(launch: &Value) -> usize
    ensures { result ≡ part_count (view launch.now) }
{
    array(launch, "ram").len() + array(launch, "item").len() + array(launch, "rec").len()
}

/// Returns whether the steps of a launch name what it lacks, or do not name each of its parts once. Returns false for a launch that
/// has more regions, items or RECs than any may have, which is a fault of its table.
pub fn is_misnamed(alloc: Global, launch: &Value) -> Result<bool, NoMemory>
    ensures { IfOk result (λ b. b ≡ true → is_misnamed (view launch.now) ≡ true) }
{
    let Some(texts) = field(launch, "steps") else {
        return Ok(false);
    };
    let tables = array(launch, "item");
    let num_regions = array(launch, "ram").len();
    let num_recs = array(launch, "rec").len();
    if num_regions > NAMED_REC_LIMIT
        || tables.len() > NAMED_REC_LIMIT
        || num_recs > NAMED_REC_LIMIT
    {
        return Ok(false);
    }
    let steps = spelled_steps(alloc, tables, items(texts))?;
    Ok(!steps_complete(num_regions, tables.len(), num_recs, &steps))
}
