//! Translation tables and largest blocks: which tables a realm's RAM and data need, and in which runs
//! RAM is set.
#![tactic(auto)]

mod act;
mod block;
mod counting;
mod fault;
mod laws;
mod longest;
mod missing;
mod planning;
mod questions;
mod run;
mod start;
mod tables;

pub use act::Act;
pub use counting::ENTRY_LIMIT;
pub use fault::PlanFault;
pub use laws::{
    acts_make_the_tables, acts_set_the_runs_and_the_pages, agreeing_is_an_equivalence,
    blocks_are_the_largest, blocks_of_runs_are_the_entries, missing_tables_are_made_in_turn,
    missing_tables_stay_formed, no_table_lies_inside_a_fresh_block, pages_are_filled_in_turn,
    plans_stay_formed, plans_that_agree_go_on_alike, runs_are_set_in_turn, runs_follow_one_another,
    runs_make_the_region_ram, walk_ends_at_a_fresh_block, walk_ends_at_a_page,
    what_is_planned_passed_its_checks,
};
pub use longest::run_from;
pub use run::Run;
pub use start::start_of;
pub use tables::Tables;
