//! Faults of readers, writers and memory: one line on standard error, nothing on standard output, and their exit status.
use super::fakes::{
    BOTH_REPORT, Failing, FailingFiles, FailingFlush, FailingWriter, InterruptedFiles,
    NO_TERMINALS, Ran, SMALLEST_REPORT, check, run_on,
};
use rim_cli::{FreeGate, Opener, report_unreadable, run};
use std::io;
use std::io::{ErrorKind, Write};
use std::process::Abort;
use std::sync::Wait;
use std::thread::Threads;

const MEASURE: [&str; 3] = ["rim", "measure", "manifest.toml"];

const CHECK: [&str; 3] = ["rim", "check", "manifest.toml"];

const UNREADABLE: &[u8] = b"rim: file-unreadable\n";

const OUTPUT_FAILED: &[u8] = b"rim: output-failed\n";

const NO_MEMORY: &[u8] = b"rim: no-memory\n";

/// A run over these files has this fault.
fn check_fault<O: Opener>(
    rt: &(impl Abort + AllocGlobal + Threads + Wait + Sync),
    words: &[&str],
    files: &mut O,
    status: u8,
    line: &[u8],
) {
    check(rt, &run_on(rt, words, files), status, b"", line);
}

#[test]
fn file_that_is_not_opened(rt: HostRuntime) {
    for number in 0..2u8 {
        let files = &mut FailingFiles::new(number, Failing::Open);
        check_fault(&rt, &MEASURE, files, 3, UNREADABLE);
    }
}

/// One file fails at its first read, at its second, and so on until its reader is not asked so often.
fn check_reads(rt: &(impl Abort + AllocGlobal + Threads + Wait + Sync), number: u8) {
    for read in 0..u8::MAX {
        let files = &mut FailingFiles::new(number, Failing::Read(read, ErrorKind::InvalidData));
        let ran = run_on(rt, &MEASURE, files);
        if ran.status == 0 {
            return check(rt, &ran, 0, BOTH_REPORT, b"");
        }
        check(rt, &ran, 3, b"", UNREADABLE);
    }
    panic!(rt; "a file of at most 8,192 bytes has an end");
}

#[test]
fn reader_that_fails_at_each_read(rt: HostRuntime) {
    for number in 0..2u8 {
        check_reads(&rt, number);
    }
}

#[test]
fn failing_reader_of_a_check(rt: HostRuntime) {
    let files = &mut FailingFiles::new(0, Failing::Read(0, ErrorKind::InvalidData));
    check_fault(&rt, &CHECK, files, 3, UNREADABLE);
}

#[test]
fn interruptions_that_are_too_many(rt: HostRuntime) {
    for in_a_row in [1024, u32::MAX] {
        let files = &mut InterruptedFiles(in_a_row);
        check_fault(&rt, &MEASURE, files, 3, UNREADABLE);
    }
}

#[test]
fn interrupted_reader(rt: HostRuntime) {
    let ran = run_on(&rt, &MEASURE, &mut InterruptedFiles(1023));
    check(&rt, &ran, 0, SMALLEST_REPORT, b"");
}

#[test]
fn no_memory_for_a_file(rt: HostRuntime) {
    for words in [&MEASURE, &CHECK] {
        let files = &mut FailingFiles::new(0, Failing::Read(0, ErrorKind::OutOfMemory));
        check_fault(&rt, words, files, 4, NO_MEMORY);
    }
}

/// A run that writes to these has this status. What it wrote is not looked at.
fn check_status<W: Write, E: Write>(
    rt: &(impl Abort + AllocGlobal + Threads + Wait + Sync),
    words: &[&str],
    out: &mut W,
    err: &mut E,
) {
    let (gate, files) = (&mut FreeGate, &mut FailingFiles::none());
    let status = run(rt, rt.alloc(), gate, words, NO_TERMINALS, files, out, err);
    assert_eq!(rt; status, 3);
}

/// A run whose output cannot be written says so.
fn check_output<W: Write>(
    rt: &(impl Abort + AllocGlobal + Threads + Wait + Sync),
    words: &[&str],
    out: &mut W,
) {
    let mut err = Vec::new(rt.alloc());
    check_status(rt, words, out, &mut err);
    assert_eq!(rt; err.as_slice(), OUTPUT_FAILED);
}

#[test]
fn failing_output(rt: HostRuntime) {
    let needed = (BOTH_REPORT.len() / 10 + 1) as u8;
    for writes_left in 0..needed {
        check_output(&rt, &MEASURE, &mut FailingWriter { writes_left });
    }
}

#[test]
fn failing_flush(rt: HostRuntime) {
    check_output(&rt, &MEASURE, &mut FailingFlush(ErrorKind::WriteZero));
}

/// A reader that closed its end, as `head` does, has what it asked for: nothing is said.
#[test]
fn output_that_nobody_reads(rt: HostRuntime) {
    let mut err = Vec::new(rt.alloc());
    let out = &mut FailingFlush(ErrorKind::BrokenPipe);
    check_status(&rt, &MEASURE, out, &mut err);
    assert_eq!(rt; err.len(), 0);
}

#[test]
fn failing_help(rt: HostRuntime) {
    let out = &mut FailingWriter { writes_left: 2 };
    check_output(&rt, &["rim", "--help"], out);
}

/// Words of a launch that the manifest has not.
const NO_LAUNCH: [&str; 4] = ["rim", "list", "manifest.toml", "other"];

#[test]
fn failing_standard_error(rt: HostRuntime) {
    for writes_left in 0..2u8 {
        let err = &mut FailingWriter { writes_left };
        check_status(&rt, &NO_LAUNCH, &mut Vec::new(rt.alloc()), err);
    }
}

/// Memory is refused for the words of a command line.
#[test]
fn no_memory_for_words(rt: HostRuntime) {
    let alloc = rt.alloc();
    let mut err = Vec::new(alloc);
    let status = report_unreadable(&io::Error::from(ErrorKind::OutOfMemory), &mut err);
    let out = Vec::new(alloc);
    check(&rt, &Ran { status, out, err }, 4, b"", NO_MEMORY);
}
