//! Files with the digests of their bytes.
ghost use Rattle.std.specs.Prelude.{◌≡◌, IfOk, map};
ghost use Rattle.serde_json.specs.View.{view};
ghost use Rattle.sha2.specs.Sha256.{sha256};
ghost use Rattle.ipa_layout.specs.Files.{bytes_of_files};
ghost use Rattle.rim_json.specs.ReportJson.{file_json, files_json};

use launch_json::{FileDigest, put_count, put_text};
use rim_accepted::LoadedRelease;
use serde_json::{Map, Value};
use std::alloc::{AllocError, Global};

/// Each file of a release, with its digest.
pub(crate) fn file_values(
    alloc: Global,
    loaded: LoadedRelease<'_>,
    digests: &[FileDigest],
) -> Result<Vec<Value>, AllocError>
    requires { digests.now ≡ map sha256 (bytes_of_files loaded.files.now) }
    ensures { IfOk result (λ values. map view values.items
        ≡ files_json loaded.entry.release.now.paths (bytes_of_files loaded.entry.files.now)) }
{
    let LoadedRelease { release, files } = loaded;
    let mut values = Vec::with_capacity(alloc, files.len())?;
    for i in 0..files.len() {
        let digest = &digests[i];
        values.push(file_value(alloc, release.path(i), files[i].as_slice(), digest)?)?;
    }
    Ok(values)
}

/// A file with its path and its digest.
#[tactic(auto, unfolding(crate::specs::ReportJson::file_json))]
pub(crate) fn file_value(
    alloc: Global,
    path: &str,
    bytes: &[u8],
    digest: &FileDigest,
) -> Result<Value, AllocError>
    requires { digest.now ≡ sha256 bytes.now }
    ensures { IfOk result (λ v. view v ≡ file_json path.now bytes.now) }
{
    let digits = hex::encode(alloc, digest)?;
    let mut members = Map::new(alloc);
    put_count(alloc, &mut members, "bytes", bytes.len() as u64)?;
    put_text(alloc, &mut members, "path", path)?;
    put_text(alloc, &mut members, "sha256", &digits)?;
    Ok(Value::Object(members))
}
