//! Command lines of which no run of the program on files shows what comes of them.
use super::fakes::{OneFile, SMALLEST, run_at, run_on};
use rim_cli::Terminals;

/// A command line without the program's name.
#[test]
fn no_words(rt: HostRuntime) {
    let ran = run_on(&rt, &[], &mut OneFile(SMALLEST));
    assert_eq!(rt; (ran.status, ran.out.len()), (2, 0));
}

/// Words, and whether they ask for bytes that are no text.
const BYTES: [(&[&str], bool); 5] = [
    (&["rim", "dtb", "manifest.toml", "small"], true),
    (&["rim", "dtb", "--help"], false),
    (
        &["rim", "dtb", "manifest.toml", "small", "-o", "dtb"],
        false,
    ),
    (&["rim", "list", "manifest.toml", "small"], false),
    (&["rim", "fdt", "dtb"], false),
];

/// Where the output is a terminal, such bytes alone are refused for that.
#[test]
fn words_that_ask_for_bytes(rt: HostRuntime) {
    let terminals = Terminals {
        out: true,
        err: false,
    };
    let line = b"rim: output-is-terminal\n".as_slice();
    for (words, is_asked) in &BYTES {
        let ran = run_at(&rt, words, terminals, &mut OneFile(SMALLEST));
        let is_refused = (ran.status, ran.out.len(), ran.err.as_slice()) == (3, 0, line);
        assert_eq!(rt; is_refused, *is_asked, "{words:?}");
    }
}
