//! The Realm Initial Measurement of one launch.
ghost use Rattle.std.specs.Prelude.{◌≡◌, IfErr, IfOk, IsOkAnd};
ghost use Rattle.rim_manifest.specs.Manifest.{manifest_of};
ghost use Rattle.rim_cli.specs.Done.{IsRim, RefusesManifest, RefusesRim};
ghost use Rattle.rim_files.specs.Files.{IfFile};

use crate::found::read_launch;
use rim_desc::{Algo, Lanes, Measurement};
use rim_files::{Fault, Opener};
use rim_report::outcome_alone;
use std::alloc::Global;

/// A launch's Realm Initial Measurement, and the algorithm that it is by.
#[derive(Clone, Copy, Debug)]
pub struct LaunchRim {
    pub algo: Algo,
    pub rim: Measurement,
}

/// That of the launch of this name, of the manifest at a path. All launches of the manifest are measured for it, on the calling thread.
pub fn launch_rim<O: Opener>(
    alloc: Global,
    lanes: Lanes,
    opener: &mut O,
    path: &str,
    launch: &str,
) -> Result<LaunchRim, Fault>
    ensures rim { IfOk result (λ m. IfFile (O.held opener.old path.now) (λ bytes. IsOkAnd
        (manifest_of bytes) (λ r. IsRim (O.held opener.old) r launch.now m))) }
    ensures refused { IfErr result
        (RefusesManifest (RefusesRim (O.held opener.old) launch.now) (O.held opener.old path.now)) }
    ensures stays { O.held opener.new ≡ O.held opener.old }
{
    let found = read_launch(alloc, opener, path, launch)?;
    let outcome = match outcome_alone(alloc, lanes, &found.release, &found.files) {
        Ok(outcome) => outcome,
        Err(fault) => return Err(Fault::Start(fault)),
    };
    let algo = found.loaded().launch.launch().config().algo;
    match outcome.launches[found.number] {
        Ok(rim) => Ok(LaunchRim { algo, rim }),
        Err(fault) => Err(Fault::Refused(fault)),
    }
}
