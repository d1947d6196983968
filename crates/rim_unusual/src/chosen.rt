//! What a devicetree says in `/chosen`: the place of the initrd, and seeds.
use crate::cells::Cells;
use fdt_tree::Tree;
use std::fmt;

/// What a property says that is to be an address.
#[derive(Clone, Copy, PartialEq, Eq)]
pub enum Address {
    /// There is no such property.
    None,
    At(u64),
    /// It has another number of bytes than 4 or 8.
    Bytes(usize),
}

impl fmt::Display for Address {
    fn fmt<W: fmt::Write>(&self, f: &mut fmt::Formatter<W>) -> fmt::Result {
        match *self {
            Address::None => f.write_str("none"),
            Address::At(address) => write!(f, "{address:#x}"),
            Address::Bytes(count) => write!(f, "of {count} bytes"),
        }
    }
}

/// Where an initrd begins and ends, as `/chosen` says it.
#[derive(Clone, Copy, PartialEq, Eq)]
pub struct InitrdPlace {
    pub start: Address,
    pub end: Address,
}

impl InitrdPlace {
    /// That of no initrd.
    pub const NONE: InitrdPlace = InitrdPlace {
        start: Address::None,
        end: Address::None,
    };

    /// That of an initrd of this many bytes at an address.
    pub(crate) fn of(start: u64, count: u64) -> InitrdPlace {
        InitrdPlace {
            start: Address::At(start),
            end: Address::At(start.saturating_add(count)),
        }
    }

    /// The one that a devicetree has.
    pub(crate) fn found(tree: &Tree) -> InitrdPlace {
        InitrdPlace {
            start: address_at(tree, b"linux,initrd-start"),
            end: address_at(tree, b"linux,initrd-end"),
        }
    }
}

/// What a property of `/chosen` says.
fn address_at(tree: &Tree, name: &[u8]) -> Address {
    let Some(value) = tree.get(b"/chosen", name) else {
        return Address::None;
    };
    match Cells::One.read(value).or(Cells::Two.read(value)) {
        Some(address) => Address::At(address),
        None => Address::Bytes(value.len()),
    }
}

/// A property whose value is another one at each start.
#[derive(Clone, Copy)]
pub struct Seed {
    path: &'static str,
    name: &'static str,
}

impl fmt::Display for Seed {
    fn fmt<W: fmt::Write>(&self, f: &mut fmt::Formatter<W>) -> fmt::Result {
        let Seed { path, name } = *self;
        write!(f, "{path} has {name}")
    }
}

/// Where Linux takes seeds from, and where they are by mistake.
pub const SEEDS: [Seed; 4] = [
    Seed {
        path: "/chosen",
        name: "rng-seed",
    },
    Seed {
        path: "/chosen",
        name: "kaslr-seed",
    },
    Seed {
        path: "/",
        name: "rng-seed",
    },
    Seed {
        path: "/",
        name: "kaslr-seed",
    },
];

impl Seed {
    /// Whether a devicetree has it.
    pub(crate) fn is_in(&self, tree: &Tree) -> bool {
        tree.get(self.path.as_bytes(), self.name.as_bytes())
            .is_some()
    }
}
