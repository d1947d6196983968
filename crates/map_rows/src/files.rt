//! The paths of the files of items.
ghost use Rattle.std.specs.Prelude.{◌≡◌, option_and_then, option_map};
ghost use Rattle.std.specs.List.{slice_get};
ghost use Rattle.rim_launch.specs.Kinds.{file_of};

use rim_launch::Item;
use rim_manifest::Release;

/// The path of the file that an item's bytes come from, if it has one.
pub fn path_of<'a>(release: &'a Release, item: &Item) -> Option<&'a str>
    ensures { option_map (λ path. path.now) result
        ≡ option_and_then (slice_get release.entry.now.paths) (file_of item.now.kind) }
{
    path_at(release, item.kind.file()?)
}

/// The path of a file, if there is one of this number.
fn path_at<'a>(release: &'a Release, file: usize) -> Option<&'a str>
    ensures { option_map (λ path. path.now) result ≡ slice_get release.entry.now.paths file }
{
    if file < release.file_count() {
        Some(release.path(file))
    } else {
        None
    }
}
