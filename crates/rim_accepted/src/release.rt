//! The launches of a release, laid out before any page is hashed.
ghost use Rattle.std.specs.Prelude.{◌≡◌, IfOk, length, option_and_then, option_map};
ghost use Rattle.std.specs.List.{slice_get};
ghost use Rattle.ipa_layout.specs.Files.{bytes_of_files};
ghost use Rattle.rim_accepted.specs.Outcomes.{place_in, placed_before};

use crate::accepted::{AcceptedLaunch, accept};
use crate::loaded::{LoadedLaunch, LoadedRelease};
use crate::reason::LaunchReason;
use crate::refused::RefusedLaunch;
use ipa_layout::Placed;
use refusal::NoMemory;
use rim_manifest::{NamedLaunch, Release};
use std::alloc::Global;
use std::marker::Model;

/// A release with its files, each of whose launches is accepted or refused for a reason. By its type each is what its own launch
/// comes to.
#[derive(Drop)]
pub struct AcceptedRelease<'a> {
    release: &'a Release,
    files: &'a [Vec<u8>],
    launches: Vec<Result<AcceptedLaunch<'a>, RefusedLaunch<'a>>>,
}

impl<'a> Model for AcceptedRelease<'a> {
    ghost use Rattle.ipa_layout.specs.Files.{bytes_of_files};
    ghost use Rattle.rim_accepted.specs.Outcomes.{IsLaidOut, OutcomesView};

    ghost Value = { OutcomesView };

    ghost view = { λ a. record {
      release = a.release.now;
      files = bytes_of_files a.files.now;
      launches = a.launches.items;
    } };

    ghost invariant = { λ a. IsLaidOut (record {
      release = a.release.now;
      files = bytes_of_files a.files.now;
      launches = a.launches.items;
    }) };
}

impl<'a> AcceptedRelease<'a> {
    ghost use Rattle.std.specs.Prelude.{◌≡◌, Some, option_map};
    ghost use Rattle.std.specs.List.{slice_get};
    ghost use Rattle.std.specs.Result.{result_ok};
    ghost use Rattle.ipa_layout.specs.Files.{bytes_of_files};
    ghost use Rattle.ipa_layout.specs.Layout.{places};
    ghost use Rattle.rim_manifest.specs.Launches.{NamedData};
    ghost use Rattle.rim_accepted.specs.Outcomes.{IsLaidOut};

    /// What each launch comes to, in the manifest's order.
    pub fn outcomes(&self) -> &[Result<AcceptedLaunch<'a>, RefusedLaunch<'a>>]
        ensures value { result.now ≡ self.now.launches }
        ensures own { IsLaidOut self.now }
    {
        &self.launches
    }

    /// The release itself.
    pub fn release(&self) -> &'a Release
        ensures { result.now ≡ self.now.release }
    {
        self.release
    }

    /// The release with the bytes of its files.
    pub fn loaded(&self) -> LoadedRelease<'a>
        ensures release { result.release.now ≡ self.now.release }
        ensures files { bytes_of_files result.files.now ≡ self.now.files }
    {
        LoadedRelease {
            release: self.release,
            files: self.files,
        }
    }

    /// The place of the launch of this number, where it could be laid out, also where its list is refused.
    pub fn place(&self, number: usize) -> Option<&Placed>
        ensures { (l : NamedData) → slice_get self.entry.now.release.launches number ≡ Some l
            → option_map (λ p. p.now) result ≡ result_ok (places l.launch self.entry.now.files) }
    {
        place_at(&self.launches, number)
    }

    /// The launches with their names, in the manifest's order.
    pub fn launches(&self) -> &'a [NamedLaunch]
        ensures { result.now ≡ self.now.release.launches }
    {
        self.release.all_launches()
    }

    /// The bytes of the files, in the manifest's order.
    pub fn files(&self) -> &'a [Vec<u8>]
        ensures { bytes_of_files result.now ≡ self.now.files }
    {
        self.files
    }
}

/// Lays out all launches of a release. No page is hashed.
pub fn accept_all<'a>(
    alloc: Global,
    loaded: LoadedRelease<'a>,
) -> Result<AcceptedRelease<'a>, NoMemory>
    ensures release { IfOk result (λ a. a.release ≡ loaded.entry.release.now) }
    ensures files { IfOk result (λ a. a.files ≡ bytes_of_files loaded.entry.files.now) }
{
    let LoadedRelease { release, files } = loaded;
    let mut launches = Vec::with_capacity(alloc, release.launches())?;
    for launch in release.all_launches() {
        launches.push(accept(alloc, LoadedLaunch { launch, files })?)?;
    }
    Ok(AcceptedRelease {
        release,
        files,
        launches,
    })
}

/// The place of the launch of a number, if there is one that could be laid out, also where its list is refused.
fn place_at<'a>(
    outcomes: &'a [Result<AcceptedLaunch<'_>, RefusedLaunch<'_>>],
    number: usize,
) -> Option<&'a Placed>
    ensures { option_map (λ p. p.now) result
        ≡ option_and_then place_in (slice_get outcomes.entry.now number) }
{
    match outcomes.get(number)? {
        Ok(accepted) => Some(accepted.placed()),
        Err(refused) => placed_before(&refused.reason),
    }
}

/// The place of a launch that is refused for a reason, if it could be laid out.
fn placed_before(reason: &LaunchReason) -> Option<&Placed>
    ensures { option_map (λ p. p.now) result ≡ placed_before reason.entry.now }
{
    match reason {
        LaunchReason::List { placed, .. } => Some(placed),
        LaunchReason::Layout(_) => None,
    }
}
