//! How far two lists of commands are the same.
ghost use Rattle.std.specs.Prelude.{◌≡◌, ◌≤◌, ◌↔◌, IsTrue, Some, length, slice_get, take, true};
ghost use Rattle.rmi_list.specs.inside.Common.{AreCommon, IsCommon};

use super::Plan;
use crate::span::Span;
use ipa_layout::PlacedRec;
use rim_desc::RealmParams;

impl Plan {
    ghost use Rattle.std.specs.Prelude.{◌≡◌, ◌≤◌, length, take};
    ghost use Rattle.list_model.specs.Entries.{Contents, commands_of};
    ghost use Rattle.rmi_list.specs.Common.{AgreeOn};

    /// How many of its first commands are those of another plan too, where the pages of the items that are marked have the same
    /// measurements in both launches. It looks at no page and at `looks` spans at most, and takes those that it looked at from
    /// that number. It may answer fewer commands than there are.
    pub fn common_commands(&self, other: &Plan, marks: &[bool], looks: &mut usize) -> usize
        ensures own { result ≤ length self.now }
        ensures others { result ≤ length other.now }
        ensures same { (f g : Contents) → AgreeOn marks.now f g
            → take result (commands_of f self.now) ≡ take result (commands_of g other.now) }
    {
        if !is_same_realm(&self.params, &other.params) || self.num_aux != other.num_aux {
            return 0;
        }
        let spans = common_spans(
            &self.recs,
            &self.spans,
            &other.recs,
            &other.spans,
            marks,
            *looks,
        );
        *looks = looks.saturating_sub(spans.saturating_add(1));
        self.starts[spans]
    }
}

/// How many of their first spans two lists have in common, of this many at most.
fn common_spans(
    recs: &[PlacedRec],
    spans: &[Span],
    other_recs: &[PlacedRec],
    others: &[Span],
    marks: &[bool],
    most: usize,
) -> usize
    ensures own { result ≤ length spans.now }
    ensures others { result ≤ length others.now }
    ensures common { AreCommon marks.now recs.now (take result spans.now) other_recs.now
        (take result others.now) }
{
    let end = spans.len().min(others.len()).min(most);
    for at in 0..end {
        if !is_common(recs, &spans[at], other_recs, &others[at], marks) {
            return at;
        }
    }
    end
}

/// Whether a span of each of two lists has the same commands: the spans are the same, and so is what they name.
fn is_common(recs: &[PlacedRec], a: &Span, others: &[PlacedRec], b: &Span, marks: &[bool]) -> bool
    ensures { result ≡ true → IsCommon marks.now recs.now a.now others.now b.now }
{
    if !is_same_span(a, b) {
        return false;
    }
    match a {
        Span::Pages { item, known, .. } => !known.is_measured() || is_marked(marks, *item),
        Span::RecCreate { number, .. } => is_same_rec(recs, others, *number),
        _ => true,
    }
}

fn is_same_realm(a: &RealmParams, b: &RealmParams) -> bool
    ensures { IsTrue result ↔ (a.now ≡ b.now) }
{
    *a == *b
}

fn is_same_span(a: &Span, b: &Span) -> bool
    ensures { IsTrue result ↔ (a.now ≡ b.now) }
{
    *a == *b
}

/// Whether an item is marked.
fn is_marked(marks: &[bool], item: u8) -> bool
    ensures { result ≡ true → slice_get marks.now item ≡ Some true }
{
    matches!(marks.get(item as usize), Some(true))
}

/// Whether two lists have the same REC of a number.
fn is_same_rec(recs: &[PlacedRec], others: &[PlacedRec], number: u16) -> bool
    ensures { result ≡ true → slice_get recs.now number ≡ slice_get others.now number }
{
    match (rec_at(recs, number), rec_at(others, number)) {
        (Some(a), Some(b)) => is_same(&a, &b),
        _ => false,
    }
}

/// The REC of a number, if there is one.
fn rec_at(recs: &[PlacedRec], number: u16) -> Option<PlacedRec>
    ensures { result ≡ slice_get recs.now number }
{
    recs.get(number as usize).copied()
}

fn is_same(a: &PlacedRec, b: &PlacedRec) -> bool
    ensures { IsTrue result ↔ (a.now ≡ b.now) }
{
    *a == *b
}
