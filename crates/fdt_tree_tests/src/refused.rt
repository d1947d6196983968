//! Where memory is refused. To be run with each allocation refused in turn, and without.

use crate::checks::{check, check_head, check_root};
use crate::vectors::{EMPTY, NOPS};
use fdt_tree::{FdtFault, Reservation, Tree, read};
use std::alloc::Global;
use std::process::Abort;
use std::test::Fail;

// The `reg` of the memory.
const REG: &[u8] = b"\0\0\0\0\x80\0\0\0\0\0\0\0\x40\0\0\0";

// Reads the file, and again where memory is refused.
fn tree_of(alloc: Global, bytes: &[u8]) -> Result<Tree, FdtFault> {
    match read(alloc, bytes) {
        Err(FdtFault::NoMemory) => read(alloc, bytes),
        read => read,
    }
}

const RESERVATIONS: [Reservation; 1] = [Reservation {
    address: 0x88000000,
    size: 0x1000,
}];

fn check_value(rt: &impl Abort, tree: &Tree, path: &[u8], name: &[u8], value: &[u8]) {
    assert!(rt;
        tree.get(path, name) == Some(value),
        "at {path:?}, {name:?}"
    );
}

// The tree as it was read, but for the `reg` of the memory.
fn check_as_read(rt: &impl Abort, tree: &Tree, reg: &[u8]) {
    check_head(rt, tree, 3, &RESERVATIONS);
    check_root(rt, tree, 2, 2);
    check_value(rt, tree, b"/", b"#address-cells", b"\0\0\0\x02");
    check_value(rt, tree, b"/", b"#size-cells", b"\0\0\0\x02");
    check_value(rt, tree, b"/memory@80000000", b"device_type", b"memory\0");
    check_value(rt, tree, b"/memory@80000000", b"reg", reg);
    check_value(rt, tree, b"/chosen", b"bootargs", b"console=hvc0\0");
}

const NEW: &[u8] = b"/chosen/a/b";

// Sets a property of a new node, and again where memory is refused.
fn set_new(rt: &impl Abort, alloc: Global, tree: &mut Tree) -> Result<(), FdtFault> {
    if tree.set(alloc, NEW, b"new", b"value") == Err(FdtFault::NoMemory) {
        check_as_read(rt, tree, REG);
        check(rt, tree.get(NEW, b"new").is_none(), "nothing is set");
        tree.set(alloc, NEW, b"new", b"value")?;
    }
    check_value(rt, tree, NEW, b"new", b"value");
    check_as_read(rt, tree, REG);
    Ok(())
}

// The `reg` of the memory that is set.
const OTHER: &[u8] = b"\0\0\0\0\0\0\0\x01\0\0\0\x01\0\0\0\0";

// Sets the memory, and again where memory is refused.
fn set_other(rt: &impl Abort, alloc: Global, tree: &mut Tree) -> Result<(), FdtFault> {
    if tree.set_memory(alloc, 1, 1 << 32) == Err(FdtFault::NoMemory) {
        check_as_read(rt, tree, REG);
        tree.set_memory(alloc, 1, 1 << 32)?;
    }
    check_as_read(rt, tree, OTHER);
    Ok(())
}

// Writes the tree, and again where memory is refused.
fn written(alloc: Global, tree: &Tree) -> Result<Vec<u8>, FdtFault> {
    match tree.write(alloc) {
        Err(FdtFault::NoMemory) => tree.write(alloc),
        written => written,
    }
}

// The tree that is written is the tree that is read from that.
fn check_written(rt: &impl Abort, alloc: Global, tree: &Tree) -> Result<(), FdtFault> {
    let bytes = written(alloc, tree)?;
    check_as_read(rt, tree, OTHER);
    let again = tree_of(alloc, &bytes)?;
    check_as_read(rt, &again, OTHER);
    check_value(rt, &again, NEW, b"new", b"value");
    Ok(())
}

#[test]
fn refused_growth_changes_nothing(rt: HostRuntime) -> Result<(), Fail> {
    let mut tree = tree_of(rt.alloc(), &NOPS)?;
    check_as_read(&rt, &tree, REG);
    set_new(&rt, rt.alloc(), &mut tree)?;
    set_other(&rt, rt.alloc(), &mut tree)?;
    check_written(&rt, rt.alloc(), &tree)?;
    Ok(())
}

// The node of the memory is added.
#[test]
fn refused_node_is_not_added(rt: HostRuntime) -> Result<(), Fail> {
    let mut tree = tree_of(rt.alloc(), &EMPTY)?;
    if tree.set_memory(rt.alloc(), 0x40000000, 0x1000) == Err(FdtFault::NoMemory) {
        check_root(&rt, &tree, 0, 0);
        tree.set_memory(rt.alloc(), 0x40000000, 0x1000)?;
    }
    check_root(&rt, &tree, 0, 1);
    let reg = b"\0\0\0\0\x40\0\0\0\0\0\x10\0";
    check_value(&rt, &tree, b"/memory@40000000", b"reg", reg);
    Ok(())
}
