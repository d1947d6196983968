//! Pages, descriptors and measurements of an Arm CCA realm, byte for byte as the Realm Management
//! Monitor specification (Arm DEN0137 1.0) lists them, and the monitor's commands as values.
#![tactic(auto)]

mod command;
mod descriptor;
mod hashed_rec;
mod laws;
mod measurement;
mod number;
mod numbers;
mod page;
mod realm;
mod rec;
mod rule;
mod side_by_side;
mod source;

pub use command::Command;
pub use descriptor::{DESCRIPTOR_SIZE, data_descriptor, rec_descriptor, ripas_descriptor};
pub use hashed_rec::{HashedRec, rec_content};
pub use laws::{extended_piece_by_piece, page_bytes_at, sources_are_ordered, zero_elsewhere};
pub use measurement::{Algo, Measurement, extend, hash};
pub use number::push_digits;
pub use numbers::{NO_NUMBERS, NUMBER_COUNT, NumberRow, RMM_1_0, RealmNumbers};
pub use page::{GRANULE_SIZE, PAGE_SIZE, put, zero_page};
pub use realm::{RealmParams, realm_page};
pub use rec::{AUX_LIMIT, REC_LIMIT, RecParams, rec_mpidr, rec_page};
pub use refusal::NoMemory;
pub use rule::{RecRule, extends};
pub use side_by_side::{Lanes, MOST_LANES, extend_each, hash_each};
pub use source::Source;
