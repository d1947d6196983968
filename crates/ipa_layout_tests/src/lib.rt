//! Tests of layouts, with addresses worked out by hand.
#![tactic(auto)]

#[cfg(test)]
mod cases;
#[cfg(test)]
mod devicetrees;
#[cfg(test)]
mod launches;
#[cfg(test)]
mod placements;
