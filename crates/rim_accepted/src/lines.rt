//! The lines that say what came of launches. All that adds to a text here fails only where the text has no room for it.
ghost use Rattle.std.specs.Prelude.{◌≡◌, ◌≤◌, ◌++◌, OnErr, OnOk, vec_capacity};
ghost use Rattle.hex.specs.Hex.{encode_lower};
ghost use Rattle.rmi_line.specs.Ends.{digest_bytes, rim_text};
ghost use Rattle.rmi_line.specs.Typed.{Are64Bytes};
ghost use Rattle.rim_accepted.specs.Lines.{outcome_text, seen};
ghost use Rattle.rim_accepted.specs.Lines.{HasNoRoom, line_with_outcome, lines_with};

use crate::audit_fault::AuditFault;
use refusal::NoMemory;
use rim_desc::{Algo, Measurement};
use rim_manifest::NamedLaunch;
use rmi_line::digest;
use std::alloc::Global;

/// Adds the line of each launch.
pub fn push_lines(
    text: &mut Vec<u8>,
    launches: &[NamedLaunch],
    outcomes: &[Result<Measurement, AuditFault>],
) -> Result<(), NoMemory>
    ensures text { OnOk result
        (text.new.items ≡ text.old.items ++ lines_with launches.now outcomes.now) }
    ensures keeps { vec_capacity text.old ≤ vec_capacity text.new }
    ensures full { OnErr result (HasNoRoom text.old (lines_with launches.now outcomes.now)) }
{
    for (launch, outcome) in launches.iter().zip(outcomes.iter()) {
        push_line(text, launch, outcome)?;
    }
    Ok(())
}

/// Adds the line of a launch with what came of it.
#[tactic(auto, unfolding(crate::specs::Lines::line_with))]
pub fn push_line(
    text: &mut Vec<u8>,
    launch: &NamedLaunch,
    outcome: &Result<Measurement, AuditFault>,
) -> Result<(), NoMemory>
    ensures text { OnOk result
        (text.new.items ≡ text.old.items ++ line_with_outcome launch.now outcome.now) }
    ensures keeps { vec_capacity text.old ≤ vec_capacity text.new }
    ensures full { OnErr result (HasNoRoom text.old (line_with_outcome launch.now outcome.now)) }
{
    text.extend_from_slice(launch.name().as_bytes())?;
    push_outcome(text, launch.launch().config().algo, outcome)?;
    text.extend_from_slice(b"\n")?;
    Ok(())
}

/// Adds what came of a launch.
fn push_outcome(
    text: &mut Vec<u8>,
    algo: Algo,
    outcome: &Result<Measurement, AuditFault>,
) -> Result<(), NoMemory>
    ensures text { OnOk result
        (text.new.items ≡ text.old.items ++ outcome_text algo (seen outcome.now)) }
    ensures keeps { vec_capacity text.old ≤ vec_capacity text.new }
    ensures full { OnErr result (HasNoRoom text.old (outcome_text algo (seen outcome.now))) }
{
    match outcome {
        Ok(rim) => push_rim(text, algo, rim),
        Err(fault) => {
            text.extend_from_slice(b" refused ")?;
            text.extend_from_slice(fault.kind().as_bytes())?;
            Ok(())
        }
    }
}

/// Adds the word of an algorithm, and a measurement as its hexadecimal digits.
pub fn push_rim(text: &mut Vec<u8>, algo: Algo, rim: &Measurement) -> Result<(), NoMemory>
    ensures text { OnOk result (text.new.items ≡ text.old.items ++ rim_text algo rim.now.bytes) }
    ensures bytes { OnOk result (Are64Bytes rim.now.bytes) }
    ensures keeps { vec_capacity text.old ≤ vec_capacity text.new }
    ensures full { OnErr result (HasNoRoom text.old (rim_text algo rim.now.bytes)) }
{
    text.push(b' ')?;
    text.extend_from_slice(algo.word().as_bytes())?;
    text.push(b' ')?;
    push_digest(text, algo, rim)
}

/// Adds a measurement as its hexadecimal digits.
pub fn push_digest(text: &mut Vec<u8>, algo: Algo, rim: &Measurement) -> Result<(), NoMemory>
    ensures text { OnOk result
        (text.new.items ≡ text.old.items ++ encode_lower (digest_bytes algo rim.now.bytes)) }
    ensures bytes { OnOk result (Are64Bytes rim.now.bytes) }
    ensures keeps { vec_capacity text.old ≤ vec_capacity text.new }
    ensures full { OnErr result
        (HasNoRoom text.old (encode_lower (digest_bytes algo rim.now.bytes))) }
{
    let digest = digest(algo, rim);
    let size = 2 * digest.len();
    let mut digits = [0; 128];
    let Ok(()) = hex::encode_to_slice(digest, &mut digits[..size]) else {
        unreachable!()
    };
    text.extend_from_slice(&digits[..size])?;
    Ok(())
}
