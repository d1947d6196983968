//! The monitor's commands that build a realm.
use crate::measurement::Measurement;
use crate::realm::RealmParams;
use crate::rec::RecParams;

/// A command to the monitor that builds a realm (DEN0137, the RMI commands of these names). Addresses
/// of granules are physical, in bytes; an IPA is an address of the realm.
#[derive(Clone, Copy, Debug, PartialEq, Eq)]
pub enum Command {
    /// RMI_GRANULE_DELEGATE: hands a granule to the realm world.
    Delegate {
        granule: u64,
    },
    /// RMI_REALM_CREATE: makes the realm, its descriptor in granule `rd`.
    RealmCreate {
        rd: u64,
        params: RealmParams,
    },
    /// RMI_RTT_CREATE: makes the table of a level that covers an IPA, in granule `rtt`.
    RttCreate {
        rtt: u64,
        ipa: u64,
        level: u8,
    },
    /// RMI_RTT_INIT_RIPAS: makes the pages from `base` to `top` RAM.
    InitRipas {
        base: u64,
        top: u64,
    },
    /// RMI_DATA_CREATE: puts a page at an IPA, measured if it comes with the measurement of its bytes.
    DataCreate {
        granule: u64,
        ipa: u64,
        content: Option<Measurement>,
    },
    /// RMI_DATA_CREATE_UNKNOWN: puts a page of which the monitor does not know the content at an IPA. It is not measured.
    DataCreateUnknown {
        granule: u64,
        ipa: u64,
    },
    /// RMI_REC_CREATE: makes a REC in granule `rec`.
    RecCreate {
        rec: u64,
        params: RecParams,
    },
    /// RMI_REALM_ACTIVATE: ends the building of the realm.
    Activate,
}
