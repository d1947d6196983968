//! The release that a manifest describes, and a launch of it, with the bytes of the files.
ghost use Rattle.std.specs.Prelude.{◌≡◌, ◌<◌, IfErr, IfOk, Ok, Some, length, map, position, vec_len};
ghost use Rattle.rim_manifest.specs.Manifest.{manifest_of, name_in};
ghost use Rattle.rim_cli.specs.Done.{IsManifestFault, RefusesListing, RefusesManifest};
ghost use Rattle.rim_files.specs.Files.{AreRead, IfFile, IsRead, Known};

use rim_accepted::{Files, LoadedLaunch, LoadedRelease};
use rim_files::{Fault, Opener, read_file, read_files};
use rim_manifest::{Release, read_manifest};
use std::alloc::Global;
use std::convert::AsSlice;

/// The release that the manifest at a path describes.
pub(crate) fn read_release<O: Opener>(
    alloc: Global,
    opener: &mut O,
    path: &str,
) -> Result<Release, Fault>
    ensures read { IfOk result
        (λ r. IfFile (O.held opener.old path.now) (λ bytes. manifest_of bytes ≡ Ok r)) }
    ensures fault { IfErr result (IsManifestFault (O.held opener.old path.now)) }
    ensures stays { O.held opener.new ≡ O.held opener.old }
{
    let text = read_file(alloc, opener, path)?;
    release_in(alloc, text.as_slice())
}

/// The release that the bytes of a manifest describe.
pub(crate) fn release_in(alloc: Global, bytes: &[u8]) -> Result<Release, Fault>
    ensures read { IfOk result (λ r. manifest_of bytes.now ≡ Ok r) }
    ensures fault { IfErr result (λ e. (known : Known) → IsRead known bytes.now
        → IsManifestFault known e) }
{
    match read_manifest(alloc, bytes) {
        Ok(release) => Ok(release),
        Err(fault) => Err(Fault::Manifest(fault)),
    }
}

/// A launch of a manifest: its release, its number there, and the files of the release.
#[derive(Drop)]
pub(crate) struct FoundLaunch {
    pub release: Release,
    pub number: usize,
    pub files: Files,
    pub ghost there: { number < length release.launches },
    pub ghost each: { vec_len files ≡ length release.paths },
}

impl FoundLaunch {
    ghost use Rattle.std.specs.Prelude.{◌≡◌, Some};
    ghost use Rattle.std.specs.List.{slice_get};

    /// The launch, with the bytes of the files.
    pub fn loaded(&self) -> LoadedLaunch<'_>
        ensures launch { slice_get self.entry.now.release.launches self.entry.now.number
            ≡ Some result.launch.now }
        ensures files { result.files.now ≡ self.entry.now.files.items }
    {
        LoadedRelease::new(&self.release, &self.files).launch(self.number)
    }
}

/// The launch of this name of the manifest at a path.
pub(crate) fn read_launch<O: Opener>(
    alloc: Global,
    opener: &mut O,
    path: &str,
    launch: &str,
) -> Result<FoundLaunch, Fault>
    ensures release { IfOk result
        (λ f. IfFile (O.held opener.old path.now) (λ bytes. manifest_of bytes ≡ Ok f.release)) }
    ensures number { IfOk result
        (λ f. position (name_in launch.now) f.release.launches ≡ Some f.number) }
    ensures files { IfOk result (λ f. AreRead (O.held opener.old) f.release.paths
        (map (λ file. file.items) f.files.items)) }
    ensures refused { IfErr result (RefusesManifest (RefusesListing (O.held opener.old) launch.now)
        (O.held opener.old path.now)) }
    ensures stays { O.held opener.new ≡ O.held opener.old }
{
    let release = read_release(alloc, opener, path)?;
    let Some(number) = release.launch_named(launch) else {
        return Err(Fault::NoSuchLaunch);
    };
    let files = read_files(alloc, opener, &release)?;
    Ok(FoundLaunch {
        release,
        number,
        files,
    })
}
