//! Texts about the launches of a release.
ghost use Rattle.std.specs.Prelude.{◌≡◌, Err, IfOk, is_err};
ghost use Rattle.std.specs.List.{list_any};
ghost use Rattle.rim_accepted.specs.Lines.{line_with};
ghost use Rattle.rim_accepted.specs.Reasons.{audit_fault_of};

use crate::lines::push_line;
use crate::refused::RefusedLaunch;
use refusal::NoMemory;
use std::alloc::Global;

/// A text about the launches of a release, and whether it says of some launch that it is refused.
#[derive(Drop)]
pub struct Report {
    pub text: Vec<u8>,
    pub has_refused: bool,
}

/// Whether some launch is refused, by what came of each.
pub fn has_refused<T, E>(outcomes: &[Result<T, E>]) -> bool
    ensures { result ≡ list_any is_err outcomes.now }
{
    outcomes.iter().any(|outcome| outcome.is_err())
}

/// Returns the line of a launch that is refused.
pub fn refused_line(alloc: Global, refused: &RefusedLaunch<'_>) -> Result<Vec<u8>, NoMemory>
    ensures { IfOk result (λ text. text.items ≡ line_with refused.now.named.now
        (Err (audit_fault_of refused.now.reason))) }
{
    let mut text = Vec::new(alloc);
    push_line(&mut text, refused.named, &Err(refused.fault()))?;
    Ok(text)
}
