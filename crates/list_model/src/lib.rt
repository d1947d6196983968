//! Lists of commands over a plan: which commands build the regions, items and RECs of a realm, and that a monitor
//! takes them.
#![tactic(auto)]

mod content;
mod laws;

pub use content::PageContent;
pub use laws::{
    a_rec_is_created, a_region_becomes_ram, acts_are_listed, an_item_gets_its_pages,
    same_tables_are_listed_alike, the_realm_is_created,
};
