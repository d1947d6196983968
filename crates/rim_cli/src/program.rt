//! A run of the program, over any files and streams.
ghost use Rattle.std.specs.Prelude.{◌≡◌, ◌≢◌, ◌≤◌, ◌⊎◌, ◌&&◌, OnOk, codes, is_some, map, not, false, true};
ghost use Rattle.std.specs.Io.KnownBytes.{Appends};
ghost use Rattle.std.specs.Str.{bytes_eq};
ghost use Rattle.clap.specs.Words.{kind_of, takes};
ghost use Rattle.rim_words.specs.Command.{AsksForBytes, AsksForHelp, HasCrew, IsMistaken, is_asked, rim, verb_of};
ghost use Rattle.rim_cli.specs.Done.{AsksFor, EndsWithFault, IsDone, IsWritten, KeepsOthers, output_of};
ghost use Rattle.std.specs.IoError.{error_kind};
ghost use Rattle.rim_files.specs.Status.{status_of, unreadable_status};

use crate::advice::{advise, explain_refusals, is_explained, show_mark, show_unsaved};
use crate::answer::{Answer, answer_to};
use clap::error::ErrorKind as UsageKind;
use job_workers::Gate;
use rim_files::{Fault, Opener};
use rim_words::{Ask, CommandFault, LaunchAsk, Request, command};
use shown_text::Line;
use std::alloc::{AllocError, Global};
use std::convert::AsStr;
use std::io;
use std::io::{ErrorKind, Write};
use std::sync::Wait;
use std::thread::Threads;

/// Which streams of a run are terminals.
#[derive(Clone, Copy, Debug)]
pub struct Terminals {
    pub out: bool,
    pub err: bool,
}

/// Runs the program on the words of a command line, of which the first is the program's name.
///
/// `gate` is called around the jobs of `rim measure` and the launches of `rim audit`. Files are opened by `opener`. Output goes
/// to `out`, or is saved by `opener` in the file that the words name. Usage texts and the one line of a fault go to `err`; where that is a
/// terminal, or the words ask for it, a line follows that says why. The
/// answer is the exit status: 0 done, 1 some launch is refused or a listing is not what it says, 2 usage, 3 a fault of the manifest, a
/// file or the output, 4 want of memory. Output is made whole before any of it is written.
///
/// Where the words are taken, 0 and 1 say that the text that they ask for was written, which is that it was added to `out`, or that `out` is as
/// it was and the file that the words name has just this text: 1 exactly where that
/// text says that a launch is refused, or `no` of a listing that was replayed. 3 says that the request is refused with a
/// fault that holds, and `out` is as it was; or that the text was made and could not be written; or that it was
/// written, and is that of a check which found the manifest or a file of it at fault, or too many pages; or that `out` is a terminal, and is
/// to be bytes that are no text. Such bytes are never written to a terminal. 2 is not answered. After 2 and 4 `out`
/// is as it was. No clause says what is on `err`, since writing there may fail and changes no status.
///
/// No file changes except the one that the words name for the output, and that one only if the text was written.
pub fn run<R: Threads + Wait + Sync, G: Gate + Sync, S: AsStr, O: Opener, W: Write, E: Write>(
    rt: &R,
    alloc: Global,
    gate: &mut G,
    words: &[S],
    terminals: Terminals,
    opener: &mut O,
    out: &mut W,
    err: &mut E,
) -> u8
    ensures known { result ≤ 4 }
    ensures done { takes rim (map S.text words.now) ≡ true → result ≤ 1
        → AsksFor (map S.text words.now) (λ request. IsDone request (O.held opener.old)
        (O.held opener.new) (W.contents out.old) (W.contents out.new) result) }
    ensures usage { takes rim (map S.text words.now) ≡ true → result ≢ 2 }
    ensures mistaken { IsMistaken (map S.text words.now) → (result ≡ 2) ⊎ (result ≡ 4) }
    ensures helps { AsksForHelp (map S.text words.now)
        → (result ≢ 2) × (O.held opener.new ≡ O.held opener.old) }
    ensures refused { takes rim (map S.text words.now) ≡ true → result ≡ 3
        → AsksFor (map S.text words.now) (λ request. EndsWithFault request (O.held opener.old)
        (O.held opener.new) (out.new ≡ out.old) (W.contents out.old) (W.contents out.new) result)
        ⊎ ((terminals.out ≡ true) × (AsksForBytes (map S.text words.now)
        × ((out.new ≡ out.old) × (O.held opener.new ≡ O.held opener.old)))) }
    ensures terminal { takes rim (map S.text words.now) ≡ true → terminals.out ≡ true
        → AsksForBytes (map S.text words.now) → (3 ≤ result) × (out.new ≡ out.old) }
    ensures kept { (result ≡ 2) ⊎ (result ≡ 4)
        → (out.new ≡ out.old) × (O.held opener.new ≡ O.held opener.old) }
{
    let request = match command(alloc, words) {
        Ok(request) => request,
        Err(CommandFault::NoMemory) => return report_fault(Fault::NoMemory, err),
        Err(CommandFault::Usage(answer)) => {
            let status = show_usage(alloc, words, &answer, out, err);
            if answer.kind() == UsageKind::UnknownArgument {
                show_new_words(alloc, words, err);
            }
            return status;
        }
    };
    if would_show_bytes(&request, terminals) {
        return report_fault(Fault::OutputIsTerminal, err);
    }
    run_request(rt, alloc, gate, request, terminals, opener, out, err)
}

/// Answers a request, and writes the text or the line of a fault.
fn run_request<R: Threads + Wait + Sync, G: Gate + Sync, O: Opener, W: Write, E: Write>(
    rt: &R,
    alloc: Global,
    gate: &mut G,
    request: Request,
    terminals: Terminals,
    opener: &mut O,
    out: &mut W,
    err: &mut E,
) -> u8
    requires { HasCrew request.ask }
    ensures known { (result ≤ 1) ⊎ ((3 ≤ result) × (result ≤ 4)) }
    ensures done { result ≤ 1 → IsDone request.entry (O.held opener.old) (O.held opener.new)
        (W.contents out.old) (W.contents out.new) result }
    ensures refused { result ≡ 3 → EndsWithFault request.entry (O.held opener.old)
        (O.held opener.new) (out.new ≡ out.old) (W.contents out.old) (W.contents out.new) result }
    ensures kept { result ≡ 4 → (out.new ≡ out.old) × (O.held opener.new ≡ O.held opener.old) }
{
    match answer_to(rt, alloc, gate, request, opener) {
        Ok(answer) => {
            explain_refusals(alloc, &request, &answer, err);
            let status = deliver(alloc, &request, &answer, terminals, opener, out, err);
            show_mark(&request, terminals, answer.mark.as_ref(), err);
            status
        }
        Err(fault) => {
            let status = report_fault(fault, err);
            advise(alloc, &request, terminals, fault, opener, err);
            status
        }
    }
}

/// Writes the text that a request asked for to where it is to go, and answers the exit status: the text's own, or that of the fault.
fn deliver<O: Opener, W: Write, E: Write>(
    alloc: Global,
    request: &Request,
    answer: &Answer,
    terminals: Terminals,
    opener: &mut O,
    out: &mut W,
    err: &mut E,
) -> u8
    requires { (answer.now.status ≤ 1) ⊎ (answer.now.status ≡ 3) }
    ensures known { (result ≡ answer.now.status) ⊎ (result ≡ 3) }
    ensures own { result ≤ 1 → result ≡ answer.now.status }
    ensures done { result ≤ 1 → IsWritten (output_of request.now) (O.held opener.new)
        (W.contents out.old) (W.contents out.new) answer.now.text.items }
    ensures ends { ((result ≡ answer.now.status) × IsWritten (output_of request.now)
        (O.held opener.new) (W.contents out.old) (W.contents out.new) answer.now.text.items)
        ⊎ ((result ≡ 3) × (O.held opener.new ≡ O.held opener.old)) }
    ensures others { KeepsOthers (output_of request.now) (O.held opener.old) (O.held opener.new) }
{
    let text = answer.text.as_slice();
    let Some(path) = request.output else {
        return finish(text, answer.status, out, err);
    };
    match opener.save(path, text) {
        Ok(()) => answer.status,
        Err(error) => {
            let status = report_unwritten(&error, err);
            if is_explained(request, terminals) {
                show_unsaved(alloc, path, error.kind(), err);
            }
            status
        }
    }
}

/// Shows what is wrong with the words on standard error, status 2, or the help or version that was asked for on
/// standard output, status 0.
fn show_usage<S: AsStr, W: Write, E: Write>(
    alloc: Global,
    words: &[S],
    answer: &clap::Error,
    out: &mut W,
    err: &mut E,
) -> u8
    ensures known { (result ≤ 4) × (result ≢ 1) }
    ensures mistaken { is_asked (kind_of answer.now) ≡ false → (result ≡ 2) ⊎ (result ≡ 4) }
    ensures helps { is_asked (kind_of answer.now) ≡ true → result ≢ 2 }
    ensures kept { (result ≡ 2) ⊎ (result ≡ 4) → out.new ≡ out.old }
{
    if answer.use_stderr() {
        let Ok(text) = mistake_text(alloc, words, answer) else {
            return report_fault(Fault::NoMemory, err);
        };
        let _ = write_text(text.as_bytes(), err);
        return 2;
    }
    let Ok(text) = format!(in alloc; "{answer}") else {
        return report_fault(Fault::NoMemory, err);
    };
    finish(text.as_bytes(), 0, out, err)
}

/// What is wrong with the words, in which a character that a person cannot see is shown by its number: words that are shown so have the
/// same mistake, since none of them is a word of the program's.
fn mistake_text<S: AsStr>(
    alloc: Global,
    words: &[S],
    answer: &clap::Error,
) -> Result<String, AllocError> {
    let mut shown = Vec::with_capacity(alloc, words.len())?;
    for word in words {
        shown.push(shown_word(alloc, word.as_str())?)?;
    }
    match command(alloc, shown.as_slice()) {
        Err(CommandFault::Usage(own)) => format!(in alloc; "{own}"),
        _ => {
            let text = format!(in alloc; "{answer}")?;
            shown_word(alloc, text.as_str())
        }
    }
}

/// A word of the command line as it is shown.
fn shown_word(alloc: Global, word: &str) -> Result<String, AllocError> {
    let mut line = Line::new(alloc);
    line.push_text(word)?;
    String::from_utf8_lossy(alloc, line.as_slice())
}

/// Names the flag that asks for the report as JSON, where the words have the option that did so before it.
fn show_new_words<S: AsStr, E: Write>(alloc: Global, words: &[S], err: &mut E) {
    let mut is_next = false;
    for word in words {
        let word = word.as_str();
        if is_next {
            return show_json_flag(alloc, word, err);
        }
        if let Some(value) = word.strip_prefix("--format=") {
            return show_json_flag(alloc, value, err);
        }
        is_next = word == "--format";
    }
}

/// Names that flag, and the format that was asked for in the old way.
fn show_json_flag<E: Write>(alloc: Global, format: &str, err: &mut E) {
    let Ok(format) = shown_word(alloc, format) else {
        return;
    };
    let _ = writeln!(
        err,
        "\n  tip: '--json' prints the report as JSON, and without it the report is lines; \
         '--format {format}' is not known"
    );
}

/// Writes the text that a request asked for, and answers the exit status: this one, or that of the fault.
fn finish<W: Write, E: Write>(text: &[u8], status: u8, out: &mut W, err: &mut E) -> u8
    requires { (status ≤ 1) ⊎ (status ≡ 3) }
    ensures known { (result ≡ status) ⊎ (result ≡ 3) }
    ensures own { result ≤ 1 → result ≡ status }
    ensures done { result ≤ 1 → Appends (W.contents out.old) (W.contents out.new) text.now }
    ensures ends { ((result ≡ status) × Appends (W.contents out.old) (W.contents out.new) text.now)
        ⊎ (result ≡ 3) }
{
    match write_text(text, out) {
        Ok(()) => status,
        Err(error) => report_unwritten(&error, err),
    }
}

/// Reports that the output cannot be written, and answers the exit status, 3. A reader that closed its end, as `head` does after
/// some lines, has all that it asked for: nothing is said then.
fn report_unwritten<E: Write>(error: &io::Error, err: &mut E) -> u8
    ensures { result ≡ 3 }
{
    if error.kind() == ErrorKind::BrokenPipe {
        return 3;
    }
    report_fault(Fault::OutputFailed, err)
}

/// Writes a whole text.
fn write_text<W: Write>(text: &[u8], out: &mut W) -> io::Result<()>
    ensures { OnOk result (Appends (W.contents out.old) (W.contents out.new) text.now) }
{
    out.write_all(text)?;
    out.flush()
}

/// Writes a fault's line, and answers the exit status.
fn report_fault<E: Write>(fault: Fault, err: &mut E) -> u8
    ensures value { result ≡ status_of fault }
    ensures known { (3 ≤ result) × (result ≤ 4) }
{
    let kind = fault.kind();
    let _ = writeln!(err, "rim: {kind}");
    fault.status()
}

/// Whether bytes that are no text would go to a terminal.
fn would_show_bytes(request: &Request, terminals: Terminals) -> bool
    ensures { result ≡ (terminals.out && (bytes_eq (verb_of request.now.ask) (codes "dtb")
        && not (is_some request.now.output))) }
{
    terminals.out && is_for_bytes(request)
}

/// Whether bytes are asked for on standard output that are no text, which are not for a terminal: those of a devicetree.
fn is_for_bytes(request: &Request) -> bool
    ensures { result ≡ (bytes_eq (verb_of request.now.ask) (codes "dtb")
        && not (is_some request.now.output)) }
{
    let is_devicetree = matches!(
        request.ask,
        Ask::Launch {
            ask: LaunchAsk::Dtb,
            ..
        }
    );
    is_devicetree && request.output.is_none()
}

/// Reports a command line whose words cannot be read, in one line, and answers the exit status: 4 where
/// memory for them was refused, 2 where a word is not UTF-8.
pub fn report_unreadable<E: Write>(error: &io::Error, err: &mut E) -> u8
    ensures { result ≡ unreadable_status (error_kind error.now) }
{
    if error.kind() == ErrorKind::OutOfMemory {
        return report_fault(Fault::NoMemory, err);
    }
    let _ = writeln!(err, "rim: a word of the command line is not UTF-8");
    2
}
