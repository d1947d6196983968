//! Tests of `job_workers`, with values from outside.
#![tactic(auto)]

#[cfg(test)]
mod tests;
