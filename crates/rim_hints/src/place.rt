//! The place of a fault: where it is in the text of the manifest; its table by name, and its key.
ghost use Rattle.std.specs.Prelude.{◌≡◌, ◌++◌, IfOk, IfSome, Some, codes, option_map, string_bytes};
ghost use Rattle.std.specs.List.{list_all};
ghost use Rattle.toml.specs.Data.{get_member};
ghost use Rattle.toml.specs.View.{table_view};
ghost use Rattle.shown_text.specs.Lines.{IsKnown};
ghost use Rattle.rim_hints.specs.Fronts.{is_bare, is_bare_name, name_at, named_text, place_text, spot_text, table_text, text_of};

use rim_manifest::{Document, Finding, Place, Subject};
use rim_rules::value::cell;
use rim_spot::Spot;
use shown_text::{Line, Quoted};
use std::alloc::{AllocError, Global};
use toml::{Table, Value};

/// The most bytes of a name that is shown as it is. A longer one is cut.
const MOST_SHOWN: usize = 64;

/// The text at a key of a table, if there is one.
pub fn text_at<'a>(table: &'a Table, key: &str) -> Option<&'a str>
    ensures { option_map (λ s. s.now) result
        ≡ text_of (get_member key.now (table_view table.now)) }
{
    match cell(table, key)? {
        Value::String(text) => Some(text.as_str()),
        _ => None,
    }
}

/// The name of the table at a place, if it has one.
pub fn name_at(document: &Document, place: Place) -> Option<&str>
    ensures { option_map (λ s. s.now) result ≡ name_at (table_view document.now.table) place }
{
    text_at(document.table(place)?, "name")
}

/// The place of a fault: the path of a manifest; the line and the column where they are known, each after a colon, in the form that
/// compilers have and editors follow; and the place in the document.
pub fn fault_place(
    alloc: Global,
    path: &str,
    spot: Option<Spot>,
    place: &str,
) -> Result<Line, AllocError>
    ensures { IfOk result
        (λ line. IsKnown (Some (path.now ++ (spot_text spot ++ place.now))) line.text.items) }
{
    let spot = spot_text(alloc, spot)?;
    let mut line = Line::new(alloc);
    line.push_path(path)?;
    line.push_text(spot.as_str())?;
    line.push_text(place)?;
    Ok(line)
}

/// A line and a column, where they are known.
fn spot_text(alloc: Global, spot: Option<Spot>) -> Result<String, AllocError>
    ensures { IfOk result (λ s. string_bytes s ≡ spot_text spot) }
{
    match spot {
        Some(Spot { line, column }) => format!(in alloc; ":{line}:{column}"),
        None => format!(in alloc; ""),
    }
}

/// The table of a fault and its key, each after a colon.
pub fn place_text(
    alloc: Global,
    document: &Document,
    place: Place,
    subject: Subject,
) -> Result<String, AllocError>
    ensures { IfOk result (λ s. IfSome (place_text (table_view document.now.table) place subject)
        (λ known. string_bytes s ≡ known)) }
{
    let table = table_text(alloc, document, place)?;
    match subject {
        Subject::Key { key, .. } => format!(in alloc; ": {table}: {key}"),
        Subject::Steps | Subject::Step { .. } => format!(in alloc; ": {table}: steps"),
        Subject::OtherKeys | Subject::Asked | Subject::Whole => format!(in alloc; ": {table}"),
    }
}

/// Which table it is: by its name, or else by its number from 0.
fn table_text(alloc: Global, document: &Document, place: Place) -> Result<String, AllocError>
    ensures { IfOk result (λ s. IfSome (table_text (table_view document.now.table) place)
        (λ known. string_bytes s ≡ known)) }
{
    let name = name_at(document, place);
    match place {
        Place::Top => format!(in alloc; "manifest"),
        Place::File { file } => named_text(alloc, "file", file, name),
        Place::Launch { launch } => named_text(alloc, "launch", launch, name),
        Place::Item { launch, item } => {
            let outer = name_at(document, Place::Launch { launch });
            let launch = named_text(alloc, "launch", launch, outer)?;
            let item = named_text(alloc, ", item", item, name)?;
            format!(in alloc; "{launch}{item}")
        }
        Place::Rec { launch, rec } => {
            let outer = name_at(document, Place::Launch { launch });
            let launch = named_text(alloc, "launch", launch, outer)?;
            let rec = named_text(alloc, ", rec", rec, None)?;
            format!(in alloc; "{launch}{rec}")
        }
    }
}

/// A table of an array by its name, or by its number where it has none.
fn named_text(
    alloc: Global,
    word: &str,
    number: usize,
    name: Option<&str>,
) -> Result<String, AllocError>
    ensures { IfOk result
        (λ s. IfSome (named_text word.now number (option_map (λ n. n.now) name.entry))
        (λ known. string_bytes s ≡ known)) }
{
    match name {
        Some(name) if is_bare_name(name) => format!(in alloc; "{word} \"{name}\""),
        Some(name) => {
            let name = Quoted(name);
            format!(in alloc; "{word} {name}")
        }
        None => format!(in alloc; "{word} {number}"),
    }
}

/// Whether a name is shown as it is between double quotes.
fn is_bare_name(name: &str) -> bool
    ensures { result ≡ is_bare_name name.now }
{
    name.len() <= MOST_SHOWN && are_bare(name.as_bytes())
}

/// Whether all bytes are shown as they are between double quotes.
fn are_bare(bytes: &[u8]) -> bool
    ensures { result ≡ list_all is_bare bytes.now }
{
    bytes.iter().all(|byte| is_bare(*byte))
}

/// Whether a byte is shown as it is between double quotes.
fn is_bare(byte: u8) -> bool
    ensures { result ≡ is_bare byte }
{
    byte != b'"' && byte != b'\\'
}
