//! Words that are one word but for how it is spelled.

/// Whether two words differ by case, spaces, `-` and `_` alone.
pub fn is_alike(one: &str, other: &str) -> bool {
    let letters = one.chars().filter(|c| !is_joint(*c));
    let others = other.chars().filter(|c| !is_joint(*c));
    letters
        .map(|c| c.to_ascii_lowercase())
        .eq(others.map(|c| c.to_ascii_lowercase()))
}

/// Whether a character joins the parts of a word.
fn is_joint(c: char) -> bool {
    matches!(c, ' ' | '-' | '_')
}
