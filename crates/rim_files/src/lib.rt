//! The files of a run of the program, opened by their paths and read whole, and why a run fails.
#![tactic(auto)]

mod at_once;
mod fault;
mod file;
mod patient;

pub use at_once::read_files_at_once;
pub use fault::Fault;
pub use file::{FILE_LIMIT, Opened, Opener, Unread, copy_file, read_file, read_files, read_or_why};
pub use patient::Patient;
