//! Tests of lines, with texts that were written by hand.
#![tactic(auto)]

#[cfg(test)]
mod lines;
