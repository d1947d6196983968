//! Calls of the library whose answers no run of the program shows, each where it succeeds. `workers` has those of reports.
use super::fakes::{Ran, SMALLEST, SMALLEST_REPORT, check};
use rim_cli::measure_in_memory;
use rim_release::{Files, audit, audit_report, listing, read_manifest};
use std::test::Fail;

#[test]
fn report_of_a_manifest_in_memory(rt: HostRuntime) {
    let alloc = rt.alloc();
    let mut out = Vec::new(alloc);
    let mut err = Vec::new(alloc);
    let status = measure_in_memory(&rt, alloc, SMALLEST, &mut out, &mut err);
    check(&rt, &Ran { status, out, err }, 0, SMALLEST_REPORT, b"");
}

/// Two launches.
const TWO: &[u8] =
    b"rim_manifest = 1\n[[launch]]\nname = \"z\"\nalgo = \"sha512\"\ns2sz = 40\nsve = true\n[[launch]]\nname = \"a\"\nalgo = \"sha256\"\ns2sz = 40\nnum_aux = 2\n";

#[test]
fn launches_by_their_names(rt: HostRuntime) -> Result<(), Fail> {
    let release = read_manifest(rt.alloc(), TWO)?;
    let found = (release.launch_named("a"), release.launch_named("b"));
    assert_eq!(rt; found, (Some(1), None));
    Ok(())
}

/// What the measurement of the second launch begins with; `tests/rows/audits.toml` has all of it.
const SECOND: [u8; 4] = [0x69, 0xc7, 0xb3, 0x74];

#[test]
fn audit_of_a_launch(rt: HostRuntime) -> Result<(), Fail> {
    let release = read_manifest(rt.alloc(), TWO)?;
    let files: Files = vec![in rt.alloc(); Vec::new(rt.alloc()); release.file_count()]?;
    assert!(rt; release.launches() == 2);
    let rim = audit(rt.alloc(), &release, &files, 1)?;
    assert!(rt; rim.bytes.starts_with(&SECOND));
    Ok(())
}

/// The measurement of the smallest manifest's launch: the SHA-256 digest of its realm's page, by Python's hashlib, and zeros.
const SMALLEST_RIM: [u8; 64] = [
    0xbf, 0x97, 0xde, 0x38, 0x8b, 0x1a, 0xbb, 0x45, 0x57, 0x70, 0x17, 0xaa, 0x8a, 0x9a, 0x8d, 0x1f,
    0x16, 0x08, 0x89, 0xb1, 0x1d, 0xf8, 0xe5, 0x80, 0x3e, 0x2b, 0xf9, 0xd8, 0xa3, 0x3e, 0x78, 0x8c,
    0, 0, 0, 0, 0, 0, 0, 0, 0, 0, 0, 0, 0, 0, 0, 0, 0, 0, 0, 0, 0, 0, 0, 0, 0, 0, 0, 0, 0, 0, 0, 0,
];

const SMALLEST_AUDIT: &[u8] = b"rim-audit 1
small sha256 bf97de388b1abb45577017aa8a9a8d1f160889b11df8e5803e2bf9d8a33e788c
";

#[test]
fn audits_of_the_smallest_manifest(rt: HostRuntime) -> Result<(), Fail> {
    let release = read_manifest(rt.alloc(), SMALLEST)?;
    let files: Files = vec![in rt.alloc(); Vec::new(rt.alloc()); release.file_count()]?;
    let text = audit_report(rt.alloc(), &release, &files)?;
    assert_eq!(rt; text.as_slice(), SMALLEST_AUDIT);
    assert!(rt; release.launches() == 1);
    let rim = audit(rt.alloc(), &release, &files, 0)?;
    assert!(rt; rim.bytes.starts_with(&SMALLEST_RIM));
    Ok(())
}

/// The listing of the second launch, as in `tests/rows/audits.toml`.
const LISTING: &[u8] = b"rim-list 1 aux 2
delegate 0000000800000000
delegate 0000000800001000
delegate 0000000800002000
realm_create 0000000800002000 0000000800000000 1 2 40 sha256 0000000000000000 0 0 0 0 00000000000000000000000000000000000000000000000000000000000000000000000000000000000000000000000000000000000000000000000000000000
activate
rim sha256 69c7b37493bb272a73b5540b00de2ddd1d891a6e74f927f9969ce59868b67fd3
";

#[test]
fn listing_of_a_launch(rt: HostRuntime) -> Result<(), Fail> {
    let release = read_manifest(rt.alloc(), TWO)?;
    let files: Files = vec![in rt.alloc(); Vec::new(rt.alloc()); release.file_count()]?;
    assert!(rt; release.launches() == 2);
    let text = listing(rt.alloc(), &release, &files, 1)?;
    assert_eq!(rt; text.as_slice(), LISTING);
    Ok(())
}
