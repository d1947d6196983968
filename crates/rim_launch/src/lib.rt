//! The launch of a realm as a type: its configuration, its regions of RAM, its items, its RECs, and the
//! order in which they are made.
#![tactic(auto)]

mod conditions;
mod config;
mod item;
mod launch;
mod realm;
mod rec;
mod step;

pub use conditions::steps_complete;
pub use config::{Config, POOL_LIMIT};
pub use item::{Bootargs, Edits, Item, ItemKind, Region, Role, has_no_zero};
pub use launch::{ITEM_LIMIT, Launch, NAMED_REC_LIMIT, REGION_LIMIT};
pub use realm::realm_params;
pub use rec::Rec;
pub use step::{Step, default_steps};
