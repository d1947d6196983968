//! The map of a launch as lines. That they show the launch is tested alone; the counts in them are proved where they are made.
use crate::columns::{COLUMNS, Lines, push_name, written};
use crate::picture::push_space;
use crate::warnings::warning_remarks;
use map_rows::{Extensions, Granules, Shown, count_extensions, count_granules, item_rows};
use refusal::NoMemory;
use rim_accepted::{AcceptedLaunch, ListedLaunch};
use rim_desc::RecRule;
use rim_launch::Config;
use rim_manifest::{NamedLaunch, Release};
use shown_text::{Line, lines_of};
use std::alloc::{AllocError, Global};
use std::fmt;
use std::fmt::Write;

/// The level of the largest blocks of RAM where a manifest states none.
const DEFAULT_LEVEL: u8 = 2;

/// The map of a launch that is accepted: a line with what it is; its address space, rising; the granules of the pool that its list
/// takes; the extensions of its measurement; and its warnings. No line but a warning has more than 100 columns.
pub fn map_text(
    alloc: Global,
    release: &Release,
    listed: &ListedLaunch<'_>,
) -> Result<Vec<u8>, NoMemory> {
    let accepted = &listed.accepted;
    let launch = accepted.named();
    let mut text = Lines::new(alloc);
    push_head(alloc, &mut text, launch)?;
    push_placed(alloc, &mut text, Shown { release, launch }, accepted)?;
    push_counts(alloc, &mut text, listed)?;
    let mut text = text.into_bytes();
    text.extend_from_slice(&lines_of(alloc, &warning_remarks(alloc, accepted)?)?)?;
    Ok(text)
}

/// Adds the address space of a launch.
fn push_placed(
    alloc: Global,
    text: &mut Lines,
    shown: Shown<'_>,
    accepted: &AcceptedLaunch<'_>,
) -> Result<(), NoMemory> {
    let rows = item_rows(
        alloc,
        accepted.launch(),
        accepted.files(),
        accepted.placed(),
    )?;
    push_space(alloc, text, shown, &rows)
}

/// Adds the lines of granules and of extensions.
fn push_counts(alloc: Global, text: &mut Lines, listed: &ListedLaunch<'_>) -> Result<(), NoMemory> {
    let accepted = &listed.accepted;
    push_granules(
        alloc,
        text,
        &accepted.launch().config(),
        &count_granules(listed)?,
    )?;
    push_extensions(alloc, text, &count_extensions(alloc, accepted)?)
}

/// Adds the line that says what a launch is.
pub fn push_head(alloc: Global, text: &mut Lines, launch: &NamedLaunch) -> Result<(), NoMemory> {
    let recs = launch.launch().recs().len();
    let mut rest = Line::new(alloc);
    written(write_config(&mut rest, &launch.launch().config(), recs))?;
    push_front(alloc, text, launch.name(), &rest)
}

/// Adds that line, which ends so after the launch's name.
fn push_front(alloc: Global, text: &mut Lines, name: &str, rest: &Line) -> Result<(), NoMemory> {
    let mut line = Line::new(alloc);
    write_front(alloc, &mut line, name, rest)?;
    text.push(&line)
}

fn write_front(alloc: Global, line: &mut Line, name: &str, rest: &Line) -> Result<(), AllocError> {
    line.push_text("launch ")?;
    let others = line.as_slice().len() + rest.as_slice().len();
    push_name(alloc, line, name, COLUMNS.saturating_sub(others))?;
    line.append(rest)
}

/// What a launch is, after its name.
fn write_config(line: &mut Line, config: &Config, recs: usize) -> fmt::Result {
    let algo = config.algo.word();
    let s2sz = config.s2sz;
    let level = config.block_level;
    let ending = if recs == 1 { "" } else { "s" };
    write!(line, ": {algo}, s2sz {s2sz}, {recs} REC{ending}")?;
    if level != DEFAULT_LEVEL {
        write!(line, ", block_level {level}")?;
    }
    write_rule(line, config.rec_rule)
}

/// The rule for RECs, if there is one.
fn write_rule(line: &mut Line, rule: Option<RecRule>) -> fmt::Result {
    match rule {
        Some(rule) => {
            let word = rule.word();
            write!(line, ", rec_rule {word}")
        }
        None => Ok(()),
    }
}

/// Adds the lines of granules.
fn push_granules(
    alloc: Global,
    text: &mut Lines,
    config: &Config,
    granules: &Granules,
) -> Result<(), NoMemory> {
    push_pool(alloc, text, config, granules)?;
    push_tables(alloc, text, granules)?;
    push_others(alloc, text, granules)
}

/// Adds the line of the pool.
fn push_pool(
    alloc: Global,
    text: &mut Lines,
    config: &Config,
    granules: &Granules,
) -> Result<(), NoMemory> {
    let mut line = Line::new(alloc);
    written(write_pool(&mut line, config, granules))?;
    text.push(&line)
}

/// Adds the line of tables.
fn push_tables(alloc: Global, text: &mut Lines, granules: &Granules) -> Result<(), NoMemory> {
    let mut line = Line::new(alloc);
    written(write_tables(&mut line, granules))?;
    text.push(&line)
}

/// Adds the line of the others.
fn push_others(alloc: Global, text: &mut Lines, granules: &Granules) -> Result<(), NoMemory> {
    let mut line = Line::new(alloc);
    written(write_others(&mut line, granules))?;
    text.push(&line)
}

/// How many granules of the pool are taken.
fn write_pool(line: &mut Line, config: &Config, granules: &Granules) -> fmt::Result {
    let count = granules.delegated;
    let all = config.pool_count;
    let base = config.pool_base;
    write!(line, "granules: {count} of {all} in the pool at {base:#x}")
}

/// Those that become tables.
fn write_tables(line: &mut Line, granules: &Granules) -> fmt::Result {
    let start = granules.start_tables;
    let first = granules.tables_1;
    let second = granules.tables_2;
    let third = granules.tables_3;
    write!(
        line,
        "  tables: {start} to start with, {first} of level 1, {second} of level 2, \
         {third} of level 3"
    )
}

/// The others.
fn write_others(line: &mut Line, granules: &Granules) -> fmt::Result {
    let descriptors = granules.descriptors;
    let pages = granules.pages;
    let recs = granules.recs;
    let auxiliary = granules.auxiliary;
    write!(
        line,
        "  realm descriptor: {descriptors}, pages: {pages}, RECs: {recs}, auxiliary: {auxiliary}"
    )
}

/// Adds the lines of extensions.
fn push_extensions(
    alloc: Global,
    text: &mut Lines,
    extensions: &Extensions,
) -> Result<(), NoMemory> {
    push_total(alloc, text, extensions)?;
    push_kinds(alloc, text, extensions)
}

/// Adds the line of all extensions.
fn push_total(alloc: Global, text: &mut Lines, extensions: &Extensions) -> Result<(), NoMemory> {
    let mut line = Line::new(alloc);
    written(write_total(&mut line, extensions))?;
    text.push(&line)
}

/// Adds the line of each kind.
fn push_kinds(alloc: Global, text: &mut Lines, extensions: &Extensions) -> Result<(), NoMemory> {
    let mut line = Line::new(alloc);
    written(write_kinds(&mut line, extensions))?;
    text.push(&line)
}

/// How many extensions there are.
fn write_total(line: &mut Line, extensions: &Extensions) -> fmt::Result {
    let total = extensions.total;
    write!(line, "extensions of the measurement: {total}")
}

/// How many of each kind.
fn write_kinds(line: &mut Line, extensions: &Extensions) -> fmt::Result {
    let realms = extensions.realms;
    let ripas = extensions.ripas;
    let pages = extensions.pages;
    let unmeasured = extensions.unmeasured;
    let recs = extensions.recs;
    write!(
        line,
        "  realm: {realms}, RAM: {ripas}, pages with contents: {pages}, without: {unmeasured}, \
         RECs: {recs}"
    )
}
