use crate::checks::{
    Value, check, check_root, check_row, check_values, has_children, only_child_has,
};
use crate::files::{BEGIN_NODE, END, END_NODE, N, PROP, file_of_words, tree_of};
use crate::vectors::{CHOSEN, EMPTY};
use fdt_tree::{FdtFault, Tree};
use std::alloc::Global;
use std::process::Abort;

fn set(rt: &impl Abort, alloc: Global, tree: &mut Tree, path: &[u8], name: &[u8], value: &[u8]) {
    tree.set(alloc, path, name, value).expect(rt, "it is set");
}

// A path, a name, a value, and the children of the root after the value was set there.
type NewNode = (
    &'static [u8],
    &'static [u8],
    &'static [u8],
    &'static [&'static [u8]],
);

const NEW_NODES: [NewNode; 3] = [
    (b"/chosen", b"bootargs", b"quiet\0", &[b"chosen"]),
    (b"/chosen/a/b", b"x", b"1", &[b"chosen"]),
    (b"/other", b"y", b"2", &[b"chosen", b"other"]),
];

fn check_new_node(rt: &impl Abort, alloc: Global, tree: &mut Tree, row: &NewNode) {
    let (path, name, value, children) = row;
    set(rt, alloc, tree, path, name, value);
    check(rt, tree.get(path, name) == Some(value), "the value");
    check(rt, has_children(tree.root(), children), "the children");
}

#[test]
fn a_node_that_was_not_there(rt: HostRuntime) {
    let mut tree = tree_of(&rt, rt.alloc(), &EMPTY);
    for row in &NEW_NODES {
        check_new_node(&rt, rt.alloc(), &mut tree, row);
    }
    check_values(&rt, &tree, &NEW_VALUES);
}

// The second of them is as it was set.
const NEW_VALUES: [Value; 1] = [(b"/chosen/a/b", b"x", Some(b"1"))];

const CHANGED_VALUES: [Value; 1] = [(b"/chosen", b"bootargs", Some(b"ro"))];

#[test]
fn a_property_that_was_there(rt: HostRuntime) {
    let mut tree = tree_of(&rt, rt.alloc(), &CHOSEN);
    set(&rt, rt.alloc(), &mut tree, b"/chosen", b"bootargs", b"ro");
    set(&rt, rt.alloc(), &mut tree, b"/chosen", b"second", b"");
    check_values(&rt, &tree, &CHANGED_VALUES);
    let has_both = only_child_has(&tree, &[b"bootargs", b"second"]);
    check(&rt, has_both, "names");
}

// A root with `reg` as 1 and as 2, and the nodes `n` and `n`.
const TWICE: [u32; 18] = [
    BEGIN_NODE, 0, PROP, 1, 0, 0x31000000, PROP, 1, 0, 0x32000000, BEGIN_NODE, N, END_NODE,
    BEGIN_NODE, N, END_NODE, END_NODE, END,
];

// Whether the values of the root's properties are `new` and `2`.
fn has_new_and_2(tree: &Tree) -> bool {
    match tree.root().properties.as_slice() {
        [first, second] => {
            first.value.as_slice() == b"new".as_slice()
                && second.value.as_slice() == b"2".as_slice()
        }
        _ => false,
    }
}

// Whether the root has two children, of which the first has one property and the second none.
fn has_one_and_none(tree: &Tree) -> bool {
    match tree.root().children.as_slice() {
        [first, second] => first.properties.len() == 1 && second.properties.is_empty(),
        _ => false,
    }
}

#[test]
fn the_first_of_equal_names(rt: HostRuntime) {
    let bytes = file_of_words(&rt, rt.alloc(), &TWICE, b"reg\0");
    let mut tree = tree_of(&rt, rt.alloc(), &bytes);
    set(&rt, rt.alloc(), &mut tree, b"/", b"reg", b"new");
    set(&rt, rt.alloc(), &mut tree, b"/n", b"x", b"");
    check(&rt, has_new_and_2(&tree), "values");
    check(&rt, has_one_and_none(&tree), "children");
}

// The fault of setting this property in an empty root, which after a fault has no new child or property.
fn refusal(rt: &impl Abort, alloc: Global, path: &[u8], name: &[u8]) -> Option<FdtFault> {
    let mut tree = tree_of(rt, alloc, &EMPTY);
    let fault = tree.set(alloc, path, name, b"").err();
    if fault.is_some() {
        check_root(rt, &tree, 0, 0);
    }
    fault
}

// Paths and names, of which one is not legal.
const BAD_NAMES: [(&[u8], &[u8]); 11] = [
    (b"", b"reg"),
    (b"n", b"reg"),
    (b"//", b"reg"),
    (b"/n/", b"reg"),
    (b"//n", b"reg"),
    (b"/n//n", b"reg"),
    (b"/n n", b"reg"),
    (b"/n", b""),
    (b"/n", b"a/b"),
    (b"/n", b"a b"),
    (b"/n", b"\x7f"),
];

fn check_bad_name(rt: &impl Abort, alloc: Global, path: &[u8], name: &[u8]) {
    let is_bad = refusal(rt, alloc, path, name) == Some(FdtFault::BadName);
    assert!(rt; is_bad, "at {path:?}, {name:?}");
}

#[test]
fn bad_names(rt: HostRuntime) {
    for (path, name) in &BAD_NAMES {
        check_bad_name(&rt, rt.alloc(), path, name);
    }
}

// A path of `count` nodes.
fn deep(rt: &impl Abort, alloc: Global, count: u32) -> Vec<u8> {
    let mut path = Vec::new(alloc);
    for _ in 0..count {
        path.extend_from_slice(b"/n").expect(rt, "memory");
    }
    path
}

// A number of nodes within one another, a name in the lowest one, and the fault.
type Deep = (u32, &'static [u8], Option<FdtFault>);

const DEPTHS: [Deep; 3] = [
    (63, b"reg", None),
    (64, b"reg", Some(FdtFault::TooDeep)),
    (64, b"a/b", Some(FdtFault::BadName)),
];

fn check_deep(rt: &impl Abort, alloc: Global, deepest: &Deep, row: usize) {
    let (depth, name, want) = deepest;
    let path = deep(rt, alloc, *depth);
    check_row(rt, refusal(rt, alloc, &path, name) == *want, row);
}

#[test]
fn depths_of_set(rt: HostRuntime) {
    for row in 0..DEPTHS.len() {
        check_deep(&rt, rt.alloc(), &DEPTHS[row], row);
    }
}

const MEMORY: &[u8] = b"/memory@40000000";

// Ranges of memory, a base and a size, that are set in turn where no node exists; the name of the one child after
// that, and values.
type NewMemory = (&'static [(u64, u64)], &'static [u8], &'static [Value]);

const NEW_MEMORIES: [NewMemory; 3] = [
    (
        &[(0x40000000, 0x10000000)],
        b"memory@40000000",
        &[
            (MEMORY, b"device_type", Some(b"memory\0")),
            (
                MEMORY,
                b"reg",
                Some(&[0, 0, 0, 0, 0x40, 0, 0, 0, 0x10, 0, 0, 0]),
            ),
        ],
    ),
    (
        &[(0x40000000, 0x10000000), (0, 1)],
        b"memory@40000000",
        &[(MEMORY, b"reg", Some(&[0, 0, 0, 0, 0, 0, 0, 0, 0, 0, 0, 1]))],
    ),
    (&[(0, 0xffffffff)], b"memory@0", &[]),
];

// Sets the memory to each of these ranges.
fn set_all(rt: &impl Abort, alloc: Global, tree: &mut Tree, ranges: &[(u64, u64)]) {
    for (base, size) in ranges {
        tree.set_memory(alloc, *base, *size).expect(rt, "it is set");
    }
}

fn check_new_memory(rt: &impl Abort, alloc: Global, row: &NewMemory) {
    let (ranges, name, values) = row;
    let mut tree = tree_of(rt, alloc, &EMPTY);
    set_all(rt, alloc, &mut tree, ranges);
    check(rt, has_children(tree.root(), &[name]), "the child");
    check(rt, has_memory_names(&tree), "its properties");
    check_values(rt, &tree, values);
}

fn has_memory_names(tree: &Tree) -> bool {
    only_child_has(tree, &[b"device_type", b"reg"])
}

#[test]
fn a_memory_node_that_was_not_there(rt: HostRuntime) {
    for row in &NEW_MEMORIES {
        check_new_memory(&rt, rt.alloc(), row);
    }
}

// Nodes, and their `reg`.
const MEMORIES: [(&[u8], &[u8]); 3] = [
    (b"/memory-controller", b"c"),
    (b"/memory@8", b"8"),
    (b"/memory", b"m"),
];

// A root with the cells of addresses and of sizes in these values, and those nodes.
fn cells(rt: &impl Abort, alloc: Global, addresses: &[u8; 4], sizes: &[u8]) -> Tree {
    let mut tree = tree_of(rt, alloc, &EMPTY);
    set(rt, alloc, &mut tree, b"/", b"#address-cells", addresses);
    set(rt, alloc, &mut tree, b"/", b"#size-cells", sizes);
    for (path, value) in &MEMORIES {
        set(rt, alloc, &mut tree, path, b"reg", value);
    }
    tree
}

const FIRST_MEMORY: [Value; 4] = [
    (b"/memory-controller", b"reg", Some(b"c")),
    (b"/memory", b"reg", Some(b"m")),
    (
        b"/memory@8",
        b"reg",
        Some(&[0x80, 0, 0, 0, 0, 0, 0, 1, 0, 0, 0, 2]),
    ),
    (b"/memory@8", b"device_type", None),
];

#[test]
fn the_first_memory_node(rt: HostRuntime) {
    let mut tree = cells(&rt, rt.alloc(), &ONE, &TWO);
    set_all(&rt, rt.alloc(), &mut tree, &[(0x80000000, 0x1_0000_0002)]);
    check_values(&rt, &tree, &FIRST_MEMORY);
}

const ONE: [u8; 4] = [0, 0, 0, 1];

const TWO: [u8; 4] = [0, 0, 0, 2];

const LARGE: u64 = 0x1_0000_0000;

const BAD: Option<FdtFault> = Some(FdtFault::BadCells);

// The cells of addresses and of sizes, a base, a size, and the fault.
type Cells = ([u8; 4], &'static [u8], u64, u64, Option<FdtFault>);

const CELLS: [Cells; 9] = [
    (ONE, &ONE, 0xffffffff, 0xffffffff, None),
    (TWO, &TWO, u64::MAX, u64::MAX, None),
    (ONE, &TWO, LARGE, 0, BAD),
    (TWO, &ONE, 0, LARGE, BAD),
    ([0, 0, 0, 0], &ONE, 0, 0, BAD),
    ([0, 0, 0, 3], &ONE, 0, 0, BAD),
    ([1, 0, 0, 1], &ONE, 0, 0, BAD),
    (ONE, &[0, 0, 1], 0, 0, BAD),
    (ONE, &[0, 0, 0, 0, 1], 0, 0, BAD),
];

// After a fault the first memory node is as it was.
fn check_cells(rt: &impl Abort, alloc: Global, cell: &Cells, row: usize) {
    let (addresses, sizes, base, size, want) = cell;
    let mut tree = cells(rt, alloc, addresses, sizes);
    check_row(rt, tree.set_memory(alloc, *base, *size).err() == *want, row);
    if want.is_some() {
        check_values(rt, &tree, &AS_IT_WAS);
    }
}

const AS_IT_WAS: [Value; 1] = [(b"/memory@8", b"reg", Some(b"8"))];

#[test]
fn refusals_of_set_memory(rt: HostRuntime) {
    for row in 0..CELLS.len() {
        check_cells(&rt, rt.alloc(), &CELLS[row], row);
    }
}

// A size of more than 32 bits, where the root has no cells: one of each is meant.
#[test]
fn a_memory_too_large_for_an_empty_root(rt: HostRuntime) {
    let mut tree = tree_of(&rt, rt.alloc(), &EMPTY);
    let fault = tree.set_memory(rt.alloc(), 0, LARGE).err();
    check(&rt, fault == BAD, "the fault");
    check_root(&rt, &tree, 0, 0);
}
