//! A release with the bytes of its files, and a launch of it.
ghost use Rattle.std.specs.Prelude.{◌≡◌, length, true};
ghost use Rattle.rim_launch.specs.LaunchData.{has_files};

use rim_manifest::{NamedLaunch, Release};

/// The bytes of a release's files, in the manifest's order.
pub type Files = Vec<Vec<u8>>;

/// A release with the bytes of its files, in the manifest's order. By its type they are as many as its files.
#[derive(Clone, Copy)]
pub struct LoadedRelease<'a> {
    pub release: &'a Release,
    pub files: &'a [Vec<u8>],
    pub ghost each: { length files.now ≡ length release.now.paths },
}

impl<'a> LoadedRelease<'a> {
    ghost use Rattle.std.specs.Prelude.{◌≡◌, ◌<◌, Some, length, vec_len};
    ghost use Rattle.std.specs.List.{slice_get};

    /// These two.
    pub fn new(release: &'a Release, files: &'a Files) -> LoadedRelease<'a>
        requires { vec_len files.now ≡ length release.now.paths }
        ensures release { result.release.now ≡ release.entry.now }
        ensures files { result.files.now ≡ files.entry.now.items }
    {
        LoadedRelease { release, files }
    }

    /// The launch of this number.
    pub fn launch(&self, i: usize) -> LoadedLaunch<'a>
        requires { i < length self.now.release.now.launches }
        ensures launch { slice_get self.entry.now.release.now.launches i
            ≡ Some result.launch.now }
        ensures files { result.files.now ≡ self.entry.now.files.now }
    {
        LoadedLaunch {
            launch: &self.release.all_launches()[i],
            files: self.files,
        }
    }
}

/// A launch with the bytes of its release's files. By its type they have those of its items.
#[derive(Clone, Copy)]
pub struct LoadedLaunch<'a> {
    pub launch: &'a NamedLaunch,
    pub files: &'a [Vec<u8>],
    pub ghost there: { has_files launch.now.launch (length files.now) ≡ true },
}
