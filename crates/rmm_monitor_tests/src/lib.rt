//! Tests of the monitor, with measurements from outside.
#![tactic(auto)]

#[cfg(test)]
mod checks;
#[cfg(test)]
mod rows;
#[cfg(test)]
mod worked;
