//! Laws for readers of the definitions, proved.
ghost use Rattle.std.specs.Prelude.{◌≡◌, Err, Ok};
ghost use Rattle.toml.specs.Data.{Members};
ghost use Rattle.rim_manifest.specs.declared.fault.ManifestFault.{ManifestFault};
ghost use Rattle.rim_manifest.specs.Faults.{IsLowest};
ghost use Rattle.rim_manifest.specs.Given.{EachGives, GivesPath, IsGiven};
ghost use Rattle.rim_manifest.specs.Launches.{ReleaseData};
ghost use Rattle.rim_manifest.specs.Manifest.{all_faults, files_at, launches_at, read_of};
ghost use Rattle.rim_rules.specs.Versions.{version_at};

/// The fault that a document is refused with holds somewhere in it, and none that holds anywhere in it
/// comes before it in the order of faults.
pub fn the_lowest_fault_is_answered()
    ensures { (ms : Members) (f : ManifestFault) → read_of ms ≡ Err f → IsLowest f (all_faults ms) }
{}

/// In a manifest that is accepted each file has the path and each launch has the values that its table gives: in
/// version 2 the rule for its RECs too, which a launch with a REC that is not runnable has. In version 1 no table gives
/// such a rule, and no launch has one. A default is read only where the key is not given, never in the place of a value
/// of another kind or out of its range.
pub fn what_is_given_is_read()
    ensures { (ms : Members) (r : ReleaseData) → read_of ms ≡ Ok r
        → EachGives GivesPath (files_at ms) r.paths
        × EachGives (IsGiven (version_at ms) (files_at ms)) (launches_at ms) r.launches }
{}
