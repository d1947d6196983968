//! Parts of JSON that the map of a launch and the report of a release have in common: stretches of addresses, and the items of a launch.
#![tactic(auto)]

mod items;
mod members;
mod optional;
mod stretches;
mod text;

pub use items::{FileDigest, item_values, stated_values};
pub use members::{Members, put_count, put_flag, put_text, put_values};
pub use optional::{rule_value, text_value};
pub use stretches::stretch_values;
pub use text::json_text;
