//! One message.
pub(crate) mod headed;
mod known_blocks;
mod rounds;
mod schedule;
