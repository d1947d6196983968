//! What a check says: remarks, each of which is a line.
ghost use Rattle.std.specs.Prelude.{◌≡◌, ◌++◌, IfOk, OnOk, Some, string_bytes};
ghost use Rattle.shown_text.specs.Lines.{AddsLine, IsKnown, Saying, Says, between, file_said, launch_text, lines_of};

use crate::line::Line;
use refusal::NoMemory;
use std::alloc::{AllocError, Global};

/// What a place has.
#[derive(Clone, Copy)]
pub enum Word {
    /// The fault of this word.
    Fault(&'static str),
    /// What is rarely meant.
    Warning,
}

/// How what helps is joined to the rest of a line.
#[derive(Clone, Copy)]
pub enum Joint {
    Brackets,
    Semicolon,
    Colon,
}

/// What is said of a place: a fault or a warning. Its texts are without what joins them in a line. None that is there is empty, so
/// an empty one is one that is not there.
#[derive(Drop)]
pub struct Remark {
    /// A file and where in it, or a launch; or how many more remarks there would be, with no fault's word.
    pub place: Line,
    pub word: Word,
    pub given: Line,
    pub expected: Line,
    /// What helps to mend it.
    pub help: Line,
    pub joint: Joint,
}

impl Remark {
    ghost use Rattle.std.specs.Prelude.{◌≡◌, ◌++◌, [], IfOk, OnOk};
    ghost use Rattle.shown_text.specs.Lines.{front_of, help_of, line_of};

    /// One that has no text yet.
    pub fn new(alloc: Global, word: Word) -> Remark
        ensures word { result.word ≡ word }
        ensures place { result.place.text.items ≡ [] }
        ensures given { result.given.text.items ≡ [] }
        ensures expected { result.expected.text.items ≡ [] }
        ensures help { result.help.text.items ≡ [] }
    {
        Remark {
            place: Line::new(alloc),
            word,
            given: Line::new(alloc),
            expected: Line::new(alloc),
            help: Line::new(alloc),
            joint: Joint::Brackets,
        }
    }

    /// Adds its line to a text, without a line feed.
    pub fn push_to(&self, text: &mut Vec<u8>) -> Result<(), AllocError>
        ensures { OnOk result (text.new.items ≡ text.old.items ++ line_of self.now) }
    {
        self.push_front(text)?;
        push_between(text, ": ", self.given.as_slice(), "")?;
        push_between(text, ", expected ", self.expected.as_slice(), "")?;
        self.push_help(text)
    }

    /// Adds how its line begins.
    fn push_front(&self, text: &mut Vec<u8>) -> Result<(), AllocError>
        ensures { OnOk result (text.new.items
            ≡ text.old.items ++ front_of self.now.word self.now.place.text.items) }
    {
        match self.word {
            Word::Fault(word) => {
                text.extend_from_slice(self.place.as_slice())?;
                push_between(text, ": ", word.as_bytes(), "")
            }
            Word::Warning => {
                text.extend_from_slice("warning".as_bytes())?;
                push_between(text, ": ", self.place.as_slice(), "")
            }
        }
    }

    /// Adds what helps.
    fn push_help(&self, text: &mut Vec<u8>) -> Result<(), AllocError>
        ensures { OnOk result (text.new.items
            ≡ text.old.items ++ help_of self.now.joint self.now.help.text.items) }
    {
        match self.joint {
            Joint::Brackets => push_between(text, " (", self.help.as_slice(), ")"),
            Joint::Semicolon => push_between(text, "; ", self.help.as_slice(), ""),
            Joint::Colon => push_between(text, ": ", self.help.as_slice(), ""),
        }
    }
}

/// Adds bytes between two texts, or nothing where there are none.
#[tactic(auto, unfolding(crate::specs::Lines::between))]
fn push_between(
    text: &mut Vec<u8>,
    before: &str,
    bytes: &[u8],
    after: &str,
) -> Result<(), AllocError>
    ensures { OnOk result
        (text.new.items ≡ text.old.items ++ between before.now bytes.now after.now) }
{
    if bytes.is_empty() {
        return Ok(());
    }
    text.extend_from_slice(before.as_bytes())?;
    text.extend_from_slice(bytes)?;
    text.extend_from_slice(after.as_bytes())?;
    Ok(())
}

/// A line for each remark.
pub fn lines_of(alloc: Global, remarks: &[Remark]) -> Result<Vec<u8>, NoMemory>
    ensures { IfOk result (λ text. text.items ≡ lines_of remarks.now) }
{
    let mut text = Vec::new(alloc);
    for remark in remarks {
        remark.push_to(&mut text)?;
        text.push(b'\n')?;
    }
    Ok(text)
}

/// Adds a remark.
pub fn push_remark(remarks: &mut Vec<Remark>, remark: Remark) -> Result<(), NoMemory>
    ensures { OnOk result ((s : Saying) → Says s remark
        → AddsLine s remarks.old.items remarks.new.items) }
{
    remarks.push(remark)?;
    Ok(())
}

/// Adds the remark of a file that cannot be read: its path, the word of why, and what else is known of that.
pub fn push_file(
    remarks: &mut Vec<Remark>,
    path: &str,
    kind: &'static str,
    why: &str,
) -> Result<(), NoMemory>
    ensures { OnOk result (AddsLine (file_said path.now kind.now why.now)
        remarks.old.items remarks.new.items) }
{
    let alloc = *remarks.allocator();
    let mut remark = Remark::new(alloc, Word::Fault(kind));
    remark.place.push_path(path)?;
    remark.given = Line::of(alloc, why)?;
    push_remark(remarks, remark)
}

/// The place that a launch of this name is, with how many others.
pub fn launch_place(alloc: Global, name: &str, others: usize) -> Result<Line, AllocError>
    ensures { IfOk result
        (λ line. IsKnown (Some (launch_text name.now others)) line.text.items) }
{
    let text = launch_text(alloc, name, others)?;
    Line::of(alloc, text.as_str())
}

fn launch_text(alloc: Global, name: &str, others: usize) -> Result<String, AllocError>
    ensures { IfOk result (λ s. string_bytes s ≡ launch_text name.now others) }
{
    if others == 0 {
        format!(in alloc; "launch \"{name}\"")
    } else if others == 1 {
        format!(in alloc; "launch \"{name}\" and 1 other")
    } else {
        format!(in alloc; "launch \"{name}\" and {others} others")
    }
}
