//! What is given and what is expected, where a manifest has a fault.
use rim_hints::{
    Expected, Nearest, Shown, bad_element, element_hint, text_at, value_hint, write_other_keys,
    write_step, write_steps,
};
use rim_launch::{ITEM_LIMIT, Role};
use rim_manifest::{Document, Finding, ManifestFault, Subject, asks_for, entries, name, role};
use rim_rules::form::Form;
use rim_rules::kind::may_repeat;
use rim_rules::value::cell;
use shown_text::{Line, Quoted, Remark};
use std::alloc::Global;
use std::fmt;
use std::fmt::Write;
use toml::{Table, Value};

/// Adds what is known of a fault beside its place and its word.
pub(crate) fn write_detail(
    alloc: Global,
    remark: &mut Remark,
    document: &Document,
    finding: &Finding,
) -> fmt::Result {
    let Some(table) = document.table(finding.place) else {
        return Ok(());
    };
    match (finding.subject, finding.fault) {
        (Subject::Key { key, .. }, ManifestFault::TwoNames) => {
            write_shared(&mut remark.given, table, key)
        }
        (Subject::Key { .. }, ManifestFault::NoSuchFile) => {
            write_no_file(alloc, remark, document, table)
        }
        (Subject::Key { key, form }, fault) => write_value(remark, table, key, form, fault),
        (Subject::OtherKeys, _) => write_other_keys(
            alloc,
            &mut remark.given,
            document,
            finding.place,
            table,
        ),
        (Subject::Asked, _) => write_asked(remark, table),
        (Subject::Step { step }, _) => write_step(alloc, &mut remark.given, table, step),
        (Subject::Steps, _) => write_steps(alloc, remark, table),
        (Subject::Whole, _) => Ok(()),
    }
}

/// A value that is not what its key may hold, or that is not there.
fn write_value(
    remark: &mut Remark,
    table: &Table,
    key: &'static str,
    form: Form,
    fault: ManifestFault,
) -> fmt::Result {
    let expected = Expected(form);
    write!(remark.expected, "{expected}")?;
    let Some(value) = cell(table, key) else {
        return write!(remark.given, "not given");
    };
    match bad_element(value, form, fault) {
        Some((index, element)) => {
            let shown = Shown(element);
            write!(remark.given, "value {index} of it is {shown}")?;
            element_hint(key, form, value, element).write_to(remark)
        }
        None => {
            let shown = Shown(value);
            write!(remark.given, "{shown}")?;
            value_hint(key, form, value).write_to(remark)
        }
    }
}

/// A name, or a kind that may be there once, which an earlier table has.
fn write_shared(given: &mut Line, table: &Table, key: &str) -> fmt::Result {
    let text = Quoted(text_at(table, key).unwrap_or(""));
    write!(given, "an earlier one has {text} too")
}

/// The name of a file that is not there. Where it is the path of one, that one is meant.
fn write_no_file(
    alloc: Global,
    remark: &mut Remark,
    document: &Document,
    table: &Table,
) -> fmt::Result {
    let text = text_at(table, "file").unwrap_or("");
    let mut nearest = Nearest::new(text);
    for file in entries(&document.table, "file") {
        if has_path(file, text) {
            nearest.take(name(file));
        } else {
            nearest.add(alloc, name(file))?;
        }
    }
    let quoted = Quoted(text);
    let expected = Expected(Form::AnyText);
    write!(remark.given, "{quoted}")?;
    write!(remark.expected, "{expected}")?;
    match nearest.found() {
        Some(found) => write!(remark.help, "nearest: {found}"),
        None => Ok(()),
    }
}

/// Whether the path of a file is this one, or ends in it.
fn has_path(file: &Value, path: &str) -> bool {
    let Value::Table(file) = file else {
        return false;
    };
    let front = text_at(file, "path").and_then(|whole| whole.strip_suffix(path));
    front.is_some_and(|front| front.is_empty() || front.ends_with('/'))
}

/// What a launch's devicetree asks for, where the launch does not have it.
fn write_asked(remark: &mut Remark, launch: &Table) -> fmt::Result {
    let parts = entries(launch, "item");
    let lacks_ram = asks_for(parts, "memory") && entries(launch, "ram").is_empty();
    let given = match (lacks_initrd(launch), lacks_ram) {
        (true, true) => {
            "its devicetree asks for initrd and for memory, \
             and it has no item of kind \"initrd\" and no ram"
        }
        (true, false) => { "its devicetree asks for initrd, and it has no item of kind \"initrd\"" }
        (false, true) => "its devicetree asks for memory, and it has no ram",
        (false, false) => "",
    };
    write!(remark.given, "{given}")?;
    if lacks_initrd(launch) {
        write_twice(&mut remark.help, parts)
    } else {
        Ok(())
    }
}

/// Whether a launch's devicetree asks for an initrd, and the launch has none.
pub(crate) fn lacks_initrd(launch: &Table) -> bool {
    let parts = entries(launch, "item");
    let has_initrd = parts.iter().any(|part| role(part) == Role::Initrd);
    asks_for(parts, "initrd") && !has_initrd
}

/// Adds the first item that has the kind of an earlier one, where a kind may be there once: it may be meant as the initrd.
fn write_twice(help: &mut Line, parts: &[Value]) -> fmt::Result {
    for (number, part) in parts.iter().enumerate().take(ITEM_LIMIT) {
        let kind = role(part);
        if !may_repeat(kind) && parts.iter().take(number).any(|other| role(other) == kind) {
            let quoted = Quoted(name(part));
            return write!(help, "item {quoted} is a second one of its kind");
        }
    }
    Ok(())
}
