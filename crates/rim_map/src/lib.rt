//! The map of a launch as JSON, and that of one that is refused: where its RAM and its items are, what the pool gives for it, and what its
//! measurement is made of.
#![tactic(auto)]

mod json;
mod json_parts;
mod refused;

pub use json::map_json;
pub use map_rows::{
    Extensions, Granules, Row, Stretch, count_extensions, count_granules, gaps, gaps_are_the_rest,
    item_rows,
};
pub use map_text::map_text;
pub use refused::{refused_json, refused_text};
