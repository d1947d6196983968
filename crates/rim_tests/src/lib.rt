//! Tests over the layers that a run of the program on files cannot show, and those of `arm64_image`. What such a run shows is
//! in `tests/`.
#![tactic(auto)]

#[cfg(test)]
mod fakes;
#[cfg(test)]
mod faults;
#[cfg(test)]
mod headers;
#[cfg(test)]
mod library;
#[cfg(test)]
mod openings;
#[cfg(test)]
mod words;
#[cfg(test)]
mod workers;
