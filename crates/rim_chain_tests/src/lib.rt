//! Tests of plans, rows and chains, with values from another program.
#![tactic(auto)]

#[cfg(test)]
mod tests;
