//! Pages of measured items, their digests, and the table that keeps them.
#![tactic(auto)]

mod group;
mod hashed;
mod hashed_ahead;
mod laws;
mod page;
mod range;
mod row;
mod side_by_side;
mod table;
mod zeros;

pub use group::GroupDigests;
pub use hashed::{Hashed, PageJob};
pub use hashed_ahead::HashedAhead;
pub use laws::{
    contents_are_page_bytes, keys_are_ordered, pages_go_by_keys, rising_keys_are_the_keys_once,
    slots_go_by_keys,
};
pub use page::{Blob, Page, PageKey};
pub use range::{KeyRange, distinct_ranges};
pub use row::DigestRow;
pub use side_by_side::hash_group;
pub use table::Table;
