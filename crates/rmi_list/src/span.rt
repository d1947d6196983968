//! The commands of a list, as it keeps them. A launch has a command for each of its pages, and most of these pages lie side
//! by side. So the commands of neighbouring pages in one table are kept as one span, and each other command is one.
//! A span takes at most 32 bytes. How many commands come before each span is kept beside it, and a command is found by binary search.
//! No contract speaks of spans: a plan is seen as a list of commands.
use list_model::PageContent;

/// One command of a list, or the commands of neighbouring pages, in at most 32 bytes. A granule is kept by its number in the pool. What is one for the whole list is
/// kept beside it: the realm's parameters, which say where the pool begins, and those of the RECs.
#[derive(Clone, Copy, PartialEq, Eq)]
pub enum Span {
    Delegate {
        granule: u32,
    },
    RealmCreate {
        rd: u32,
    },
    RttCreate {
        rtt: u32,
        ipa: u64,
        level: u8,
    },
    InitRipas {
        base: u64,
        top: u64,
    },
    /// `count` pages of an item, from its page `page` and the IPA `ipa` on, each in the next granule, which is delegated
    /// just before it.
    Pages {
        granule: u32,
        ipa: u64,
        item: u8,
        known: PageContent,
        page: u32,
        count: u64,
    },
    /// The REC of this number; its auxiliary granules come after its own.
    RecCreate {
        rec: u32,
        number: u16,
    },
    Activate,
}
