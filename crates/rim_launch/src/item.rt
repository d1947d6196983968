//! Regions of RAM, and the items that are placed in them.
ghost use Rattle.std.specs.Prelude.{◌≡◌, ◌<◌, ◌^◌, true, unwrap_or};
ghost use Rattle.rim_launch.specs.Whole.{is_whole};
ghost use Rattle.rim_launch.specs.Texts.{has_no_zero};

use std::marker::Model;

/// The first number that a manifest cannot spell.
const NUMBER_END: u64 = 0x8000_0000_0000_0000;

/// A region of RAM: the addresses from `base` on and below `end`, in bytes. It has an address, and its end
/// is a number that a manifest can spell.
#[derive(Clone, Copy, Debug, PartialEq, Eq)]
pub struct Region {
    pub base: u64,
    pub end: u64,
    pub ghost ordered: { base < end },
    pub ghost low: { end < 2 ^ 63 },
}

impl Region {
    ghost use Rattle.std.specs.Prelude.{◌≡◌, ◌<◌, ◌^◌, ◌↔◌, IsSome, IfSome};

    /// The region of these addresses, or `None` where it has none or its end is 2^63 or more.
    pub fn new(base: u64, end: u64) -> Option<Region>
        ensures valid { IsSome result ↔ ((base < end) × (end < 2 ^ 63)) }
        ensures value { IfSome result (λ r. (r.base ≡ base) × (r.end ≡ end)) }
    {
        if base < end && end < NUMBER_END {
            Some(Region { base, end })
        } else {
            None
        }
    }
}

/// The kernel's command line: a text without a zero character. A clause sees its bytes.
#[derive(Drop)]
pub struct Bootargs {
    text: String,
}

impl Model for Bootargs {
    ghost use Rattle.std.specs.Prelude.{◌≡◌, ℕ, List, string_bytes, true};
    ghost use Rattle.rim_launch.specs.Texts.{has_no_zero};

    ghost Value = { List ℕ };

    ghost view = { λ b. string_bytes b.text };

    ghost invariant = { λ b. has_no_zero (string_bytes b.text) ≡ true };
}

impl Bootargs {
    ghost use Rattle.std.specs.Prelude.{◌≡◌, Some, None, string_bytes, if◌then◌else◌};
    ghost use Rattle.rim_launch.specs.Texts.{has_no_zero};

    /// This command line, or `None` where it has a zero character.
    pub fn new(text: String) -> Option<Bootargs>
        ensures { result
            ≡ (if has_no_zero (string_bytes text) then Some (string_bytes text) else None) }
    {
        if has_no_zero(text.as_bytes()) {
            Some(Bootargs { text })
        } else {
            None
        }
    }

    /// Its text.
    pub fn as_str(&self) -> &str
        ensures { result.now ≡ self.now }
    {
        self.text.as_str()
    }
}

/// Whether no byte is zero, as a command line may be.
pub fn has_no_zero(bytes: &[u8]) -> bool
    ensures { result ≡ has_no_zero bytes.now }
{
    bytes.iter().all(|byte| *byte != 0)
}

/// What is edited in a devicetree before it is placed.
#[derive(Drop)]
pub struct Edits {
    /// The command line that `/chosen` is to have, if any.
    pub bootargs: Option<Bootargs>,
    /// Whether `/chosen` is to have the initrd's addresses.
    pub initrd: bool,
    /// Whether the memory node is to have the first region of RAM.
    pub memory: bool,
}

/// What an item is for.
#[derive(Clone, Copy, Debug, PartialEq, Eq)]
pub enum Role {
    Kernel,
    Initrd,
    Dtb,
    Raw,
    Unknown,
}

/// What an item is, and the number of the file that its bytes come from, if it has any.
#[derive(Drop)]
pub enum ItemKind {
    /// An arm64 Image. It begins at its base plus the offset in its header.
    Kernel { file: usize },
    /// An initial ramdisk.
    Initrd { file: usize },
    /// A devicetree.
    Dtb { file: usize, edits: Edits },
    /// Any other content.
    Raw { file: usize },
    /// Memory of which the monitor does not know the content (DEN0137, RMI_DATA_CREATE_UNKNOWN). It has no file.
    Unknown,
}

impl ItemKind {
    ghost use Rattle.std.specs.Prelude.{◌≡◌};
    ghost use Rattle.rim_launch.specs.Kinds.{file_of, has_edits, needs_initrd, needs_memory, role_of};
    ghost use Rattle.rim_launch.specs.Whole.{is_whole};

    /// What the item is for.
    pub fn role(&self) -> Role
        ensures { result ≡ role_of self.now }
    {
        match self {
            ItemKind::Kernel { .. } => Role::Kernel,
            ItemKind::Initrd { .. } => Role::Initrd,
            ItemKind::Dtb { .. } => Role::Dtb,
            ItemKind::Raw { .. } => Role::Raw,
            ItemKind::Unknown => Role::Unknown,
        }
    }

    /// The number of the file that its bytes come from; none where the monitor does not know its content.
    pub fn file(&self) -> Option<usize>
        ensures { result ≡ file_of self.now }
    {
        match self {
            ItemKind::Kernel { file } => Some(*file),
            ItemKind::Initrd { file } => Some(*file),
            ItemKind::Dtb { file, .. } => Some(*file),
            ItemKind::Raw { file } => Some(*file),
            ItemKind::Unknown => None,
        }
    }

    /// Whether an item of this kind may have this size, or none, and may be measured or not, as stated.
    fn is_whole_with(&self, size: Option<u64>, measured: bool) -> bool
        ensures { result ≡ is_whole self.now size measured }
    {
        match self {
            ItemKind::Unknown => size.is_some() && !measured,
            ItemKind::Kernel { .. }
            | ItemKind::Initrd { .. }
            | ItemKind::Dtb { .. }
            | ItemKind::Raw { .. } => true,
        }
    }

    /// Whether it is a devicetree that is edited before it is placed.
    pub fn has_edits(&self) -> bool
        ensures { result ≡ has_edits self.now }
    {
        match self {
            ItemKind::Dtb { edits, .. } => edits.bootargs.is_some() || edits.initrd || edits.memory,
            ItemKind::Kernel { .. }
            | ItemKind::Initrd { .. }
            | ItemKind::Raw { .. }
            | ItemKind::Unknown => false,
        }
    }

    /// Whether it is a devicetree that is to have the initrd's place.
    pub fn needs_initrd(&self) -> bool
        ensures { result ≡ needs_initrd self.now }
    {
        match self {
            ItemKind::Dtb { edits, .. } => edits.initrd,
            ItemKind::Kernel { .. }
            | ItemKind::Initrd { .. }
            | ItemKind::Raw { .. }
            | ItemKind::Unknown => false,
        }
    }

    /// Whether it is a devicetree that is to have the place of RAM.
    pub fn needs_memory(&self) -> bool
        ensures { result ≡ needs_memory self.now }
    {
        match self {
            ItemKind::Dtb { edits, .. } => edits.memory,
            ItemKind::Kernel { .. }
            | ItemKind::Initrd { .. }
            | ItemKind::Raw { .. }
            | ItemKind::Unknown => false,
        }
    }
}

/// An item, as a launch asks for it. Its address and its size are numbers that a manifest can spell. One of which the
/// monitor does not know the content has its size stated, and is not measured.
#[derive(Drop)]
pub struct Item {
    pub kind: ItemKind,
    /// Its load address; for a kernel, its base. In bytes, below 2^63.
    pub at: u64,
    /// Its size in bytes, where it is stated; below 2^63.
    pub size: Option<u64>,
    /// Whether its pages are measured.
    pub measured: bool,
    pub ghost low: { at < 2 ^ 63 },
    pub ghost size_low: { unwrap_or size 0 < 2 ^ 63 },
    pub ghost whole: { is_whole kind size measured ≡ true },
}

impl Item {
    ghost use Rattle.std.specs.Prelude.{◌≡◌, ◌<◌, ◌^◌, ◌↔◌, IsSome, IfSome, true, unwrap_or};
    ghost use Rattle.rim_launch.specs.Kinds.{has_role};
    ghost use Rattle.rim_launch.specs.Whole.{is_whole};

    /// The item with these parts, or `None` where its address or its size is 2^63 or more, or where its content is not
    /// known and it has no size or is to be measured.
    pub fn new(kind: ItemKind, at: u64, size: Option<u64>, measured: bool) -> Option<Item>
        ensures valid { IsSome result
            ↔ ((at < 2 ^ 63) × (unwrap_or size 0 < 2 ^ 63) × (is_whole kind size measured ≡ true)) }
        ensures value { IfSome result
            (λ i. (i.kind ≡ kind) × (i.at ≡ at) × (i.size ≡ size) × (i.measured ≡ measured)) }
    {
        if at < NUMBER_END && size.unwrap_or(0) < NUMBER_END && kind.is_whole_with(size, measured) {
            Some(Item {
                kind,
                at,
                size,
                measured,
            })
        } else {
            None
        }
    }

    /// Whether it has this role.
    pub fn has_role(&self, role: Role) -> bool
        ensures { result ≡ has_role role self.now }
    {
        self.kind.role() == role
    }
}
