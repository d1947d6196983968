//! The library for C: the program's answers about files in memory, on the calling thread. No call takes a lock, waits, or keeps memory.
//!
//! Nothing checks that a caller meets what the types ask for: that each pointer is to as many bytes or files as its length says, that no two
//! that are written to overlap, and that nothing else writes to what is lent during a call.
#![tactic(auto)]

mod answers;
mod codes;
mod held;
mod room;

ghost use Rattle.std.specs.Prelude.{◌≡◌};
ghost use Rattle.rim_c.specs.Ends.{Ends, EndsOfLaunch, EndsWithPaths, EndsWithRim, EndsWithVersion};
ghost use Rattle.rim_words.specs.declared.words.Ask.{Ask};
ghost use Rattle.rim_words.specs.declared.words.FileAsk.{FileAsk};
ghost use Rattle.rim_words.specs.declared.words.LaunchAsk.{LaunchAsk};
ghost use Rattle.rim_words.specs.declared.words.ManifestAsk.{ManifestAsk};
ghost use Rattle.rim_c.specs.Formats.{format_of};

use crate::answers::{answer, answer_of_launch, launch_rim_of, paths, version};
use crate::held::File;
use rim_cli::{Ask, FileAsk, Format, Lanes, LaunchAsk, ManifestAsk};
use std::alloc::Global;

/// Puts the report of a manifest's launches into the room for it.
#[unsafe(no_mangle)]
pub extern "C" fn rim_proved_measure<'a>(
    alloc: Global,
    lanes: u32,
    manifest: &File<'a>,
    files: &'a [File<'a>],
    json: bool,
    out: &mut [u8],
    length: &mut usize,
) -> u32
    ensures { Ends manifest.now files.now (Ask.Manifest (ManifestAsk.Measure 1 (format_of json)))
        (record { old = out.old; new = out.new; before = length.old; after = length.new }) result }
{
    let format = format_of(json);
    let ask = Ask::Manifest(ManifestAsk::Measure { workers: 1, format });
    answer(alloc, width(lanes), ask, manifest, files, out, length)
}

/// Puts the audit of a manifest's launches into the room for it.
#[unsafe(no_mangle)]
pub extern "C" fn rim_proved_audit<'a>(
    alloc: Global,
    lanes: u32,
    manifest: &File<'a>,
    files: &'a [File<'a>],
    out: &mut [u8],
    length: &mut usize,
) -> u32
    ensures { Ends manifest.now files.now (Ask.Manifest ManifestAsk.Audit)
        (record { old = out.old; new = out.new; before = length.old; after = length.new }) result }
{
    let ask = Ask::Manifest(ManifestAsk::Audit);
    answer(alloc, width(lanes), ask, manifest, files, out, length)
}

/// Puts what is wrong with a manifest, its files and its launches into the room for it.
#[unsafe(no_mangle)]
pub extern "C" fn rim_proved_check<'a>(
    alloc: Global,
    lanes: u32,
    manifest: &File<'a>,
    files: &'a [File<'a>],
    quiet: bool,
    json: bool,
    out: &mut [u8],
    length: &mut usize,
) -> u32
    ensures { Ends manifest.now files.now (Ask.Manifest (ManifestAsk.Check quiet (format_of json)))
        (record { old = out.old; new = out.new; before = length.old; after = length.new }) result }
{
    let format = format_of(json);
    let ask = Ask::Manifest(ManifestAsk::Check { quiet, format });
    answer(alloc, width(lanes), ask, manifest, files, out, length)
}

/// Puts the paths of the files that a manifest names into the room for them.
#[unsafe(no_mangle)]
pub extern "C" fn rim_proved_paths(
    alloc: Global,
    manifest: &File<'_>,
    out: &mut [u8],
    length: &mut usize,
) -> u32
    ensures { EndsWithPaths manifest.now.bytes.now
        (record { old = out.old; new = out.new; before = length.old; after = length.new }) result }
{
    paths(alloc, manifest, out, length)
}

/// Puts the Realm Initial Measurement of a launch into the room for it, and says the monitor's number of its algorithm.
#[unsafe(no_mangle)]
pub extern "C" fn rim_proved_rim<'a>(
    alloc: Global,
    lanes: u32,
    manifest: &File<'a>,
    files: &'a [File<'a>],
    launch: &[u8],
    algorithm: &mut u32,
    out: &mut [u8],
    length: &mut usize,
) -> u32
    ensures { EndsWithRim manifest.now files.now launch.now algorithm.old algorithm.new
        (record { old = out.old; new = out.new; before = length.old; after = length.new }) result }
{
    launch_rim_of(
        alloc,
        width(lanes),
        launch,
        manifest,
        files,
        algorithm,
        out,
        length,
    )
}

/// Puts the listing of a launch into the room for it.
#[unsafe(no_mangle)]
pub extern "C" fn rim_proved_list<'a>(
    alloc: Global,
    lanes: u32,
    manifest: &File<'a>,
    files: &'a [File<'a>],
    launch: &[u8],
    out: &mut [u8],
    length: &mut usize,
) -> u32
    ensures { EndsOfLaunch manifest.now files.now launch.now LaunchAsk.List
        (record { old = out.old; new = out.new; before = length.old; after = length.new }) result }
{
    answer_of_launch(
        alloc,
        width(lanes),
        launch,
        LaunchAsk::List,
        manifest,
        files,
        out,
        length,
    )
}

/// Puts the trace of a launch into the room for it.
#[unsafe(no_mangle)]
pub extern "C" fn rim_proved_trace<'a>(
    alloc: Global,
    lanes: u32,
    manifest: &File<'a>,
    files: &'a [File<'a>],
    launch: &[u8],
    out: &mut [u8],
    length: &mut usize,
) -> u32
    ensures { EndsOfLaunch manifest.now files.now launch.now LaunchAsk.Trace
        (record { old = out.old; new = out.new; before = length.old; after = length.new }) result }
{
    answer_of_launch(
        alloc,
        width(lanes),
        launch,
        LaunchAsk::Trace,
        manifest,
        files,
        out,
        length,
    )
}

/// Puts the map of a launch into the room for it.
#[unsafe(no_mangle)]
pub extern "C" fn rim_proved_map<'a>(
    alloc: Global,
    lanes: u32,
    manifest: &File<'a>,
    files: &'a [File<'a>],
    launch: &[u8],
    json: bool,
    out: &mut [u8],
    length: &mut usize,
) -> u32
    ensures { EndsOfLaunch manifest.now files.now launch.now (LaunchAsk.Map (format_of json))
        (record { old = out.old; new = out.new; before = length.old; after = length.new }) result }
{
    let ask = LaunchAsk::Map {
        format: format_of(json),
    };
    answer_of_launch(
        alloc,
        width(lanes),
        launch,
        ask,
        manifest,
        files,
        out,
        length,
    )
}

/// Puts the devicetree of a launch, as it is placed, into the room for it.
#[unsafe(no_mangle)]
pub extern "C" fn rim_proved_dtb<'a>(
    alloc: Global,
    lanes: u32,
    manifest: &File<'a>,
    files: &'a [File<'a>],
    launch: &[u8],
    out: &mut [u8],
    length: &mut usize,
) -> u32
    ensures { EndsOfLaunch manifest.now files.now launch.now LaunchAsk.Dtb
        (record { old = out.old; new = out.new; before = length.old; after = length.new }) result }
{
    answer_of_launch(
        alloc,
        width(lanes),
        launch,
        LaunchAsk::Dtb,
        manifest,
        files,
        out,
        length,
    )
}

/// Puts whether a listing is what it says into the room for it. It names no file.
#[unsafe(no_mangle)]
pub extern "C" fn rim_proved_replay<'a>(
    alloc: Global,
    listing: &File<'a>,
    files: &'a [File<'a>],
    out: &mut [u8],
    length: &mut usize,
) -> u32
    ensures { Ends listing.now files.now (Ask.File FileAsk.Replay)
        (record { old = out.old; new = out.new; before = length.old; after = length.new }) result }
{
    answer(
        alloc,
        Lanes::Four,
        Ask::File(FileAsk::Replay),
        listing,
        files,
        out,
        length,
    )
}

/// Puts the header of an arm64 Image into the room for it. It names no file.
#[unsafe(no_mangle)]
pub extern "C" fn rim_proved_image<'a>(
    alloc: Global,
    image: &File<'a>,
    files: &'a [File<'a>],
    out: &mut [u8],
    length: &mut usize,
) -> u32
    ensures { Ends image.now files.now (Ask.File FileAsk.Image)
        (record { old = out.old; new = out.new; before = length.old; after = length.new }) result }
{
    answer(
        alloc,
        Lanes::Four,
        Ask::File(FileAsk::Image),
        image,
        files,
        out,
        length,
    )
}

/// Puts a devicetree as lines into the room for it. It names no file.
#[unsafe(no_mangle)]
pub extern "C" fn rim_proved_fdt<'a>(
    alloc: Global,
    tree: &File<'a>,
    files: &'a [File<'a>],
    out: &mut [u8],
    length: &mut usize,
) -> u32
    ensures { Ends tree.now files.now (Ask.File FileAsk.Fdt)
        (record { old = out.old; new = out.new; before = length.old; after = length.new }) result }
{
    answer(
        alloc,
        Lanes::Four,
        Ask::File(FileAsk::Fdt),
        tree,
        files,
        out,
        length,
    )
}

/// Puts the library's version into the room for it.
#[unsafe(no_mangle)]
pub extern "C" fn rim_proved_version(out: &mut [u8], length: &mut usize) -> u32
    ensures { EndsWithVersion
        (record { old = out.old; new = out.new; before = length.old; after = length.new }) result }
{
    version(out, length)
}

/// How many messages are hashed side by side. No answer depends on it.
fn width(lanes: u32) -> Lanes {
    if lanes == 8 {
        Lanes::Eight
    } else {
        Lanes::Four
    }
}

/// The format that is asked for.
fn format_of(json: bool) -> Format
    ensures { result ≡ format_of json }
{
    if json { Format::Json } else { Format::Text }
}
