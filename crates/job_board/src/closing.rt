//! What is written at the end of a run, and that the shares of all workers add up to the book.
ghost use Rattle.std.specs.Prelude.{◌≡◌, ◌≢◌, ◌<◌, ◌+◌, ℕ, length, map, sum, vec_len, None, Some, slice_get};

use crate::share::Share;
use rim_desc::Measurement;
use std::sync::ledger::{Book, Ledger, Share as Part};

/// Writes each share's number.
pub(crate) fn write_counts<L: Ledger>(shares: &[Share<L>], counts: &mut [u64])
    requires { length counts.old ≡ length shares.now }
    ensures { counts.new ≡ shares.now }
{
    for k in 0..counts.len() {
        counts[k] = shares[k].count();
    }
}

/// Puts all parts of a ledger together. Their shares add up to its book.
pub(crate) fn add_up<L: Ledger>(book: &mut Book<L>, shares: Vec<Share<L>>)
    requires whole { vec_len shares ≡ L.parts }
    requires some { 0 < vec_len shares }
    ensures sum { sum shares.items ≡ book.old.total }
    ensures same { book.new.total ≡ book.old.total }
{
    let mut rest = shares;
    let Some(first) = rest.pop() else {
        unreachable!()
    };
    let mut all = first.into_part();
    while let Some(share) = rest.pop() {
        all.merge(share.into_part());
    }
    book.audit(&mut all);
}

/// Finds that all parts of a ledger, which stay with their shares, add up to its book.
pub(crate) fn audit_all<L: Ledger>(book: &mut Book<L>, shares: &mut [Share<L>])
    requires whole { length shares.old ≡ L.parts }
    requires some { 0 < length shares.old }
    ensures sum { sum shares.old ≡ book.old.total }
    ensures same { book.new.total ≡ book.old.total }
    ensures shares { shares.new ≡ shares.old }
{
    let Some((first, rest)) = shares.split_first_mut() else {
        unreachable!()
    };
    let Share { part, .. } = first;
    audit_with(book, part, rest);
}

/// The same, where these parts are put together already. Each share lends its part until those after it have lent theirs.
fn audit_with<L: Ledger>(book: &mut Book<L>, all: &mut Part<L>, rest: &mut [Share<L>])
    requires whole { all.old.parts + length rest.old ≡ L.parts }
    requires some { 0 < all.old.parts }
    ensures sum { all.old.amount + sum rest.old ≡ book.old.total }
    ensures same { book.new.total ≡ book.old.total }
    ensures parts { all.new.parts ≡ all.old.parts }
    ensures amount { all.new.amount ≡ all.old.amount }
    ensures rest { rest.new ≡ rest.old }
{
    let Some((first, others)) = rest.split_first_mut() else {
        book.audit(all);
        return;
    };
    let Share { count, part, .. } = first;
    all.merge(part.split_off(1, *count));
    audit_with(book, all, others);
    part.merge(all.split_off(1, *count));
}

/// Copies values, all of which were given.
pub(crate) fn copy_values(given: &[Option<Measurement>], values: &mut [Measurement])
    requires size { length values.old ≡ length given.now }
    requires all { (l : ℕ) → slice_get given.now l ≢ Some None }
    ensures { map Some values.new ≡ given.now }
{
    for number in 0..values.len() {
        let Some(value) = given[number] else {
            unreachable!()
        };
        values[number] = value;
    }
}
