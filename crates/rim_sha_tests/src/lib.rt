//! Tests of `rim_sha`, against the kit's `sha2` and Python's hashlib.
#![tactic(auto)]

#[cfg(test)]
mod tests;
