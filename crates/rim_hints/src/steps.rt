//! Steps of a launch that are at fault.
use crate::alike::is_alike;
use crate::nearest::Nearest;
use crate::part::{Part, Parts};
use rim_manifest::{entries, name};
use rim_rules::kind::StepKind;
use shown_text::{Joint, Line, Quoted, Remark};
use std::alloc::{AllocError, Global};
use std::fmt;
use std::fmt::Write;
use toml::{Table, Value};

/// Adds steps that are not as many as the parts of their launch: how many, and the first part that has none. Where each has one,
/// the first step that is one too many.
pub fn write_steps(alloc: Global, remark: &mut Remark, launch: &Table) -> fmt::Result {
    let parts = Parts::new(launch);
    let steps = entries(launch, "steps");
    let count = steps.len();
    let Parts { regions, recs, .. } = parts;
    let items = parts.items.len();
    write!(remark.given, "{count} steps")?;
    write!(
        remark.expected,
        "one for each of {regions} regions, {items} items and {recs} RECs"
    )?;
    remark.joint = Joint::Semicolon;
    match compare(alloc, parts, steps)? {
        Miscount::Lacks(part) => write!(remark.help, "there is no step \"{part}\""),
        Miscount::Extra(step) => write_step(alloc, &mut remark.help, launch, step),
    }
}

/// How steps differ from the parts of their launch.
#[derive(Clone, Copy)]
enum Miscount<'a> {
    /// No step names this part.
    Lacks(Part<'a>),
    /// Each part is named, and the step of this number names none for the first time.
    Extra(usize),
}

fn compare<'a>(
    alloc: Global,
    parts: Parts<'a>,
    steps: &[Value],
) -> Result<Miscount<'a>, AllocError> {
    let mut is_named = vec![in alloc; false; parts.count()]?;
    let mut extra = None;
    for (number, step) in steps.iter().enumerate() {
        let is_first = name_part(&mut is_named, parts, step);
        if !is_first && extra.is_none() {
            extra = Some(number);
        }
    }
    match is_named.iter().position(|named| !*named) {
        Some(number) => Ok(Miscount::Lacks(parts.part(number))),
        None => Ok(Miscount::Extra(extra.unwrap_or(0))),
    }
}

/// Notes the part that a step names; and whether it is the first to name it.
fn name_part(is_named: &mut [bool], parts: Parts<'_>, step: &Value) -> bool {
    let Some(number) = parts.named(text(step)) else {
        return false;
    };
    match is_named.get_mut(number) {
        Some(named) => {
            let is_first = !*named;
            *named = true;
            is_first
        }
        None => false,
    }
}

/// The text that a step is.
fn text(step: &Value) -> &str {
    match step {
        Value::String(text) => text.as_str(),
        _ => "",
    }
}

/// Adds the step of a number, which names what is not there, or what an earlier step names.
pub fn write_step(alloc: Global, line: &mut Line, launch: &Table, step: usize) -> fmt::Result {
    let steps = entries(launch, "steps");
    let Some(value) = steps.get(step) else {
        return Ok(());
    };
    let spelled = text(value);
    let quoted = Quoted(spelled);
    let parts = Parts::new(launch);
    write!(line, "step {step}, {quoted}, names ")?;
    if parts.named(spelled).is_none() {
        return write_nothing(alloc, line, parts, spelled);
    }
    match steps.iter().position(|other| text(other) == spelled) {
        Some(earlier) => write!(line, "what step {earlier} names"),
        None => Ok(()),
    }
}

/// Adds that a step names nothing of its launch, and the nearest one that does.
fn write_nothing(alloc: Global, line: &mut Line, parts: Parts<'_>, step: &str) -> fmt::Result {
    let known = near_steps(alloc, parts, step)?;
    let mut nearest = Nearest::new(step);
    for other in &known {
        match other.as_str().strip_prefix(StepKind::Item.front()) {
            Some(name) if is_alike(name, step) => nearest.take(other.as_str()),
            _ => nearest.add(alloc, other.as_str())?,
        }
    }
    write!(line, "nothing of the launch{nearest}")
}

/// Steps that may be meant by another one: that of the region and of the REC whose number is nearest, and those of all items.
fn near_steps(alloc: Global, parts: Parts<'_>, step: &str) -> Result<Vec<String>, AllocError> {
    let number = number_in(step);
    let mut known = Vec::new(alloc);
    match parts.regions.checked_sub(1) {
        Some(last) if may_begin(step, StepKind::Ram) => {
            known.push(spelled(alloc, Part::Ram(number.min(last)))?)?;
        }
        _ => {}
    }
    match parts.recs.checked_sub(1) {
        Some(last) if may_begin(step, StepKind::Rec) => {
            known.push(spelled(alloc, Part::Rec(number.min(last)))?)?;
        }
        _ => {}
    }
    if may_begin(step, StepKind::Item) {
        for item in parts.items {
            known.push(spelled(alloc, Part::Item(name(item)))?)?;
        }
    }
    Ok(known)
}

/// Whether a step may be meant to be about this: it begins so, or as no step does.
fn may_begin(step: &str, kind: StepKind) -> bool {
    let mut kinds = [StepKind::Ram, StepKind::Item, StepKind::Rec].iter();
    step.starts_with(kind.front()) || !kinds.any(|kind| step.starts_with(kind.front()))
}

/// The step that names a part.
fn spelled(alloc: Global, part: Part<'_>) -> Result<String, AllocError> {
    format!(in alloc; "{part}")
}

/// The number that the digits of a text spell.
fn number_in(text: &str) -> usize {
    let mut number = 0usize;
    for byte in text.bytes() {
        if byte.is_ascii_digit() {
            let digit = usize::from(byte.saturating_sub(b'0'));
            number = number.saturating_mul(10).saturating_add(digit);
        }
    }
    number
}
