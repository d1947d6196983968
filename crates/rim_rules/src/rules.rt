//! The keys of a manifest's tables. The same rows are in `specs/Rules.antt`, where they are reviewed,
//! and the two are proved equal where these are used.
use crate::form::Presence::{Optional, Required};
use crate::form::{Form, Rule};
use rim_desc::AUX_LIMIT;
use rim_launch::{ITEM_LIMIT, NAMED_REC_LIMIT, POOL_LIMIT, REGION_LIMIT};
use rmm_model::{LEAST_WIDTH, MOST_WIDTH};

/// The most launches of a manifest: 1,024. This project's choice, as is the next.
pub const LAUNCH_LIMIT: usize = 1024;

/// The most files of a manifest: 64.
pub const FILE_COUNT_LIMIT: usize = 64;

/// The keys at the top.
pub const TOP_RULES: [Rule; 3] = [
    ("rim_manifest", Form::Version, Required),
    ("launch", Form::Tables { most: LAUNCH_LIMIT }, Optional),
    (
        "file",
        Form::Tables {
            most: FILE_COUNT_LIMIT,
        },
        Optional,
    ),
];

/// The keys of a file.
pub const FILE_RULES: [Rule; 2] = [
    ("name", Form::Name, Required),
    ("path", Form::Text, Required),
];

/// The keys of a launch in version 2. Version 1 has all but the last.
pub const LAUNCH_RULES: [Rule; 19] = [
    ("name", Form::Name, Required),
    ("algo", Form::Algorithm, Required),
    (
        "s2sz",
        Form::Number {
            low: LEAST_WIDTH as i64,
            high: MOST_WIDTH as i64,
        },
        Required,
    ),
    ("sve", Form::Truth, Optional),
    ("pmu", Form::Truth, Optional),
    // The numbers of the realm's parameters, which are proved to be those of `rim_desc`'s rows.
    ("sve_vl", Form::Number { low: 0, high: 255 }, Optional),
    ("num_bps", Form::Number { low: 0, high: 255 }, Optional),
    ("num_wps", Form::Number { low: 0, high: 255 }, Optional),
    ("pmu_num_ctrs", Form::Number { low: 0, high: 255 }, Optional),
    ("rpv", Form::Digits { count: 128 }, Optional),
    ("block_level", Form::Number { low: 0, high: 3 }, Optional),
    (
        "num_aux",
        Form::Number {
            low: 0,
            high: AUX_LIMIT as i64,
        },
        Optional,
    ),
    ("pool_base", Form::PoolBase, Optional),
    (
        "pool_count",
        Form::Number {
            low: 1,
            high: POOL_LIMIT as i64,
        },
        Optional,
    ),
    ("ram", Form::Regions { most: REGION_LIMIT }, Optional),
    ("item", Form::Tables { most: ITEM_LIMIT }, Optional),
    (
        "rec",
        Form::Tables {
            most: NAMED_REC_LIMIT,
        },
        Optional,
    ),
    ("steps", Form::Texts, Optional),
    ("rec_rule", Form::RecRule, Optional),
];

/// A number: 0 to 2^63-1.
const NUMBER: Form = Form::Number {
    low: 0,
    high: i64::MAX,
};

/// The keys of an item that is no devicetree, and whose content is known.
pub const ITEM_RULES: [Rule; 6] = [
    ("name", Form::Name, Required),
    ("kind", Form::ItemKind, Required),
    ("file", Form::AnyText, Required),
    ("at", NUMBER, Required),
    ("size", NUMBER, Optional),
    ("measured", Form::Truth, Optional),
];

/// The keys of a devicetree.
pub const DTB_RULES: [Rule; 9] = [
    ("name", Form::Name, Required),
    ("kind", Form::ItemKind, Required),
    ("file", Form::AnyText, Required),
    ("at", NUMBER, Required),
    ("size", NUMBER, Optional),
    ("measured", Form::Truth, Optional),
    ("bootargs", Form::Bootargs, Optional),
    ("initrd", Form::Truth, Optional),
    ("memory", Form::Truth, Optional),
];

/// The keys of an item of unknown content.
pub const UNKNOWN_RULES: [Rule; 4] = [
    ("name", Form::Name, Required),
    ("kind", Form::ItemKind, Required),
    ("at", NUMBER, Required),
    ("size", NUMBER, Required),
];

/// The keys of a REC.
pub const REC_RULES: [Rule; 3] = [
    ("pc", Form::Word, Optional),
    ("x", Form::Words { most: 8 }, Optional),
    ("runnable", Form::Truth, Optional),
];
