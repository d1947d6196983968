//! What helps to mend a manifest: where a fault is, which words are near one that is wrong, and what its table may have.
#![tactic(auto)]

mod alike;
mod belongs;
mod expected;
mod hint;
mod nearest;
mod number;
mod other_keys;
mod part;
mod place;
mod shown;
mod steps;
mod syntax;

pub use expected::Expected;
pub use hint::{element_hint, value_hint};
pub use nearest::Nearest;
pub use other_keys::{is_meant, rules_of, write_other_keys};
pub use part::Part;
pub use place::{fault_place, place_text, text_at};
pub use shown::{Shown, bad_element};
pub use steps::{write_step, write_steps};
pub use syntax::{error_spot, write_message};
