//! Tests of lists: the commands of worked launches, the monitor that follows them, the refusals at their edges; and the
//! chains of such launches.
#![tactic(auto)]

#[cfg(test)]
mod chains;
#[cfg(test)]
mod launches;
#[cfg(test)]
mod lists;
#[cfg(test)]
mod monitor;
#[cfg(test)]
mod refusals;
