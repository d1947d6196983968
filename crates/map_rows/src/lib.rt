//! What a map shows of a launch: where its items and its gaps are, what the pool gives for it, and what extends its measurement.
#![tactic(auto)]

mod extensions;
mod files;
mod granules;
mod laws;
mod numbers;
mod rows;
mod shown;
mod stretches;

pub use extensions::{Extensions, count_extensions};
pub use files::path_of;
pub use granules::{Granules, count_granules};
pub use laws::gaps_are_the_rest;
pub use rows::{Row, item_rows};
pub use shown::Shown;
pub use stretches::{Stretch, between, gaps, taken};
