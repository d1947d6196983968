//! Laws for readers of the definitions, proved.
ghost use Rattle.std.specs.Prelude.{◌≡◌, ℕ, ◌<◌, ◌++◌, true, false, slice_index, List};
ghost use Rattle.rim_desc.specs.Page.{Field, all_fit, is_listed, with_fields, zeros};
ghost use Rattle.rim_desc.specs.PageBytes.{page_byte, page_bytes};
ghost use Rattle.rim_desc.specs.Part.{Part, extended_by};
ghost use Rattle.rim_desc.specs.Source.{source_cmp};
ghost use Rattle.rim_desc.specs.declared.measurement.Algo.{Algo};
ghost use Rattle.rim_desc.specs.declared.source.Source.{Source};

/// A byte of a page at an offset that no field has is zero, for any fields that end within the page.
pub fn zero_elsewhere()
    ensures { (n k : ℕ) (fs : List Field) → all_fit n fs ≡ true → is_listed k fs ≡ false
        → slice_index (with_fields (zeros n) fs) k ≡ 0 }
{}

/// Byte j of page k of an item is the one that its definition says.
pub fn page_bytes_at()
    ensures { (lead k j : ℕ) (item : List ℕ) → j < 4096
        → slice_index (page_bytes lead item k) j ≡ page_byte lead item k j }
{}

/// Parts in two pieces extend a measurement as they do in one: the second piece goes on from what the
/// first one left.
pub fn extended_piece_by_piece()
    ensures { (algo : Algo) (rim : List ℕ) (front back : List Part)
        → extended_by algo rim (front ++ back)
        ≡ extended_by algo (extended_by algo rim front) back }
{}

/// Sources are compared as their definition says: files first, each kind in the order of its numbers.
pub fn sources_are_ordered()
    ensures { (a b : Source) → ⟦<crate::source::Source as Ord>⟧.cmp a b ≡ source_cmp a b }
{}
