//! Laws for readers of the definitions, proved.
ghost use Rattle.std.specs.Prelude.{IsOkAnd};
ghost use Rattle.rim_cli.specs.Examples.{IsSmallest, PrintsExamples, smallest};
ghost use Rattle.rim_manifest.specs.Manifest.{manifest_of};

/// What a listing comes to is printed as `yes`, `no line 14`, `no refused 8 walk-level` or `no wrong-rim`.
pub fn answers_are_printed()
    ensures { PrintsExamples }
{}

/// The smallest manifest is read as a release without files, of one launch without steps.
pub fn the_smallest_manifest_is_read()
    ensures { IsOkAnd (manifest_of smallest) IsSmallest }
{}
