//! The lines of a text, taken from its front.
ghost use Rattle.std.specs.Prelude.{◌≡◌, ◌≢◌, ◌++◌, ◌∷◌, MatchOption};
ghost use Rattle.std.specs.List.{All};

/// The first line of a text, without its newline, and the text after it; `None` where the text has no newline.
pub fn next_line(text: &[u8]) -> Option<(&[u8], &[u8])>
    ensures { MatchOption result (All (λ b. b ≢ 10) text.now)
        (λ cut. (text.now ≡ cut.0.now ++ (10 ∷ cut.1.now)) × All (λ b. b ≢ 10) cut.0.now) }
{
    let end = text.iter().position(|b| *b == b'\n')?;
    let (line, rest) = text.split_at(end);
    Some((line, &rest[1..]))
}
