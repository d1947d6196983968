//! The header of a flattened devicetree (Devicetree Specification 0.4, section 5.2), where its blocks are, and why a devicetree is refused.
#![tactic(auto)]

mod fault;
mod header;

pub use fault::FdtFault;
pub use header::{HEADER_SIZE, Header, LAST_COMP_VERSION, MAGIC, SIZE_LIMIT, VERSION, header_in};
