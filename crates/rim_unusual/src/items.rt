//! Items that are rarely meant: those that are missing, those whose bytes are of another kind, and a file that two have.
use crate::firmware::firmware;
use crate::initrd::{Front, is_initrd};
use crate::unusual::Unusual;
use refusal::NoMemory;
use rim_accepted::AcceptedLaunch;
use rim_launch::{Item, Launch, Role};
use rim_manifest::NamedLaunch;
use shown_text::{Quoted, Remark};
use std::fmt;
use std::fmt::Write;

/// How a flattened devicetree begins.
const DEVICETREE_MAGIC: [u8; 4] = [0xd0, 0x0d, 0xfe, 0xed];

/// What is rarely meant of a launch's items.
#[derive(Clone, Copy)]
pub enum UnusualItem<'a> {
    /// None is a kernel, and REC 0 enters no firmware.
    NoKernel,
    /// None is a devicetree.
    NoDevicetree,
    /// A raw one begins as an arm64 Image.
    RawImage { item: &'a str },
    /// A raw one begins as a devicetree.
    RawDevicetree { item: &'a str },
    /// The initrd has no bytes.
    EmptyInitrd { item: &'a str },
    /// The initrd begins as none that Linux can unpack.
    OtherInitrd { item: &'a str, front: Front<'a> },
    /// Two have the same file.
    SameFile { first: &'a str, second: &'a str },
}

impl UnusualItem<'_> {
    /// Adds it to its warning.
    pub(crate) fn write_to(&self, remark: &mut Remark) -> fmt::Result {
        match *self {
            UnusualItem::NoKernel => {
                write!(remark.given, "no item of kind \"kernel\"")?;
                write!(remark.expected, "one for REC 0 to enter")
            }
            UnusualItem::NoDevicetree => {
                write!(remark.given, "no item of kind \"dtb\"")?;
                write!(remark.expected, "one for Linux to read")
            }
            UnusualItem::RawImage { item } => write_raw(remark, item, "an arm64 Image", "kernel"),
            UnusualItem::RawDevicetree { item } => write_raw(remark, item, "a devicetree", "dtb"),
            UnusualItem::EmptyInitrd { item } => {
                let item = Quoted(item);
                write!(remark.given, "item {item} has no bytes")?;
                write!(remark.expected, "an initrd")
            }
            UnusualItem::OtherInitrd { item, front } => {
                let item = Quoted(item);
                write!(
                    remark.given,
                    "item {item} of kind \"initrd\" begins with {front}"
                )?;
                write!(
                    remark.expected,
                    "gzip, xz, zstd, lz4, lzma, lzo, bzip2 or cpio"
                )
            }
            UnusualItem::SameFile { first, second } => {
                let first = Quoted(first);
                let second = Quoted(second);
                write!(
                    remark.given,
                    "items {first} and {second} have the same file"
                )?;
                write!(remark.expected, "one for each")
            }
        }
    }
}

/// That a raw item begins as what has a kind of its own.
fn write_raw(remark: &mut Remark, item: &str, form: &str, kind: &str) -> fmt::Result {
    let item = Quoted(item);
    write!(remark.given, "item {item} of kind \"raw\" begins as {form}")?;
    write!(remark.expected, "kind \"{kind}\"")
}

/// Adds what is rarely meant of the items of a launch.
pub(crate) fn find_in_items<'a>(
    found: &mut Vec<Unusual<'a>>,
    accepted: &'a AcceptedLaunch<'_>,
) -> Result<(), NoMemory> {
    let items = accepted.launch().items();
    if !has_role(items, Role::Kernel) && firmware(accepted).is_none() {
        found.push(Unusual::Item(UnusualItem::NoKernel))?;
    }
    if !has_role(items, Role::Dtb) {
        found.push(Unusual::Item(UnusualItem::NoDevicetree))?;
    }
    for (number, item) in items.iter().enumerate() {
        let bytes = placed_bytes(accepted, number);
        if let Some(unusual) = unusual_bytes(
            item.kind.role(),
            accepted.named().item_name(number),
            bytes,
        ) {
            found.push(Unusual::Item(unusual))?;
        }
        if let Some(unusual) = same_file(accepted.named(), number) {
            found.push(Unusual::Item(unusual))?;
        }
    }
    Ok(())
}

/// Whether some item has a role.
pub(crate) fn has_role(items: &[Item], role: Role) -> bool {
    items.iter().any(|item| item.has_role(role))
}

/// The number of the item with a role, if a launch has one.
pub(crate) fn number_of(launch: &Launch, role: Role) -> Option<usize> {
    launch.items().iter().position(|item| item.has_role(role))
}

/// The bytes of an item as it is placed, by its number; none where it has no file.
pub(crate) fn placed_bytes<'a>(accepted: &'a AcceptedLaunch<'_>, number: usize) -> &'a [u8] {
    let item = accepted.placed().items().get(number);
    item.and_then(|item| accepted.bytes_of(item)).unwrap_or(&[])
}

/// What is rarely meant of the bytes of an item with a role.
fn unusual_bytes<'a>(role: Role, item: &'a str, bytes: &'a [u8]) -> Option<UnusualItem<'a>> {
    match role {
        Role::Raw if arm64_image::read(bytes).is_ok() => Some(UnusualItem::RawImage { item }),
        Role::Raw if bytes.starts_with(&DEVICETREE_MAGIC) => {
            Some(UnusualItem::RawDevicetree { item })
        }
        Role::Initrd if bytes.is_empty() => Some(UnusualItem::EmptyInitrd { item }),
        Role::Initrd if !is_initrd(bytes) => Some(UnusualItem::OtherInitrd {
            item,
            front: Front(bytes),
        }),
        Role::Kernel | Role::Initrd | Role::Dtb | Role::Raw | Role::Unknown => None,
    }
}

/// Whether an earlier item has the file of this one.
fn same_file<'a>(launch: &'a NamedLaunch, number: usize) -> Option<UnusualItem<'a>> {
    let items = launch.launch().items();
    let file = items.get(number)?.kind.file()?;
    let first = items
        .iter()
        .take(number)
        .position(|earlier| earlier.kind.file() == Some(file))?;
    Some(UnusualItem::SameFile {
        first: launch.item_name(first),
        second: launch.item_name(number),
    })
}
