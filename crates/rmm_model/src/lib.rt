//! The model of the Realm Management Monitor (Arm DEN0137 1.0) while a realm is built: its state, the checks
//! and effects of each command, and what a list of commands measures. The definitions are in
//! `specs/`; the code here has the words that they share with programs, what several programs compute, and laws
//! for their readers.
#![tactic(auto)]

mod laws;
mod measuring;
mod outcome;
mod size;
mod start;
mod table;

pub use laws::{
    addresses_decide_ranges, being_the_same_is_an_equivalence, granules_are_side_by_side,
    kinds_after_a_gift, no_granule_is_delegated_twice, no_granule_is_taken_twice,
    no_table_takes_data, overlap_is_some_ram, pages_after_one_more, ram_after_a_run,
    rim_is_of_its_parts, same_spaces_answer_alike, start_tables_by_width,
    steps_keep_spaces_the_same, tables_after_one_more, tables_come_in_order,
    unknown_data_is_not_measured, walk_is_deepest, walk_is_of_a_table, worked_listing_is_accepted,
};
pub use measuring::extended_by_stretches;
pub use outcome::{Kind, Phase, Refused};
pub use size::{size_of_level, span_of_level, table_base};
pub use start::{LEAST_WIDTH, MOST_WIDTH, is_width, protected_end, start_count, start_level};
pub use table::{Table, walk_level};
