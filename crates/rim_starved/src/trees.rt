//! Calls on a flattened devicetree, and on an Image.

use crate::calls::TreeCall;
use crate::trial::{Fault, Seen, Trial, digest, made, text_digest, tried};
use fdt_tree::{FdtFault, Tree, read};
use rim_release::{ShowFault, show_fdt, show_image};
use std::alloc::Global;

/// What a call on these bytes answers.
pub fn seen<R: Print + AllocGlobal>(
    trial: &Trial<'_, R>,
    call: TreeCall,
    bytes: &[u8],
) -> Result<Seen, Fault> {
    let alloc = trial.rt.alloc();
    match call {
        TreeCall::Read => tried!(trial, read(alloc, bytes) => tree_digest, FdtFault::NoMemory),
        TreeCall::Write => {
            let tree = tree_of(alloc, bytes)?;
            tried!(trial, tree.write(alloc) => text_digest, FdtFault::NoMemory)
        }
        TreeCall::Set | TreeCall::SetMemory => edited(trial, call, bytes),
        TreeCall::ShowFdt =>
            tried!(trial, show_fdt(alloc, bytes) => text_digest, ShowFault::NoMemory),
        TreeCall::ShowImage =>
            tried!(trial, show_image(alloc, bytes) => text_digest, ShowFault::NoMemory),
    }
}

/// A call that changes a tree. Where memory is refused, the tree is written as before, and is then changed by the same call.
fn edited<R: Print + AllocGlobal>(
    trial: &Trial<'_, R>,
    call: TreeCall,
    bytes: &[u8],
) -> Result<Seen, Fault> {
    let alloc = trial.rt.alloc();
    let mut tree = tree_of(alloc, bytes)?;
    let before = tree_digest(alloc, &tree)?;
    match made!(trial, edit(alloc, call, &mut tree)) {
        Ok(()) => Ok(Some(tree_digest(alloc, &tree)?)),
        Err(FdtFault::NoMemory) => after_refusal(alloc, call, bytes, &mut tree, before),
        Err(_) => Err(Fault::Input),
    }
}

/// The tree is as it was, and the same call now makes of it what it makes of a new one.
fn after_refusal(
    alloc: Global,
    call: TreeCall,
    bytes: &[u8],
    tree: &mut Tree,
    before: u64,
) -> Result<Seen, Fault> {
    if tree_digest(alloc, tree)? != before || edit(alloc, call, tree).is_err() {
        return Err(Fault::Changed);
    }
    let mut new = tree_of(alloc, bytes)?;
    if edit(alloc, call, &mut new).is_err()
        || tree_digest(alloc, &new)? != tree_digest(alloc, tree)?
    {
        return Err(Fault::Changed);
    }
    Ok(None)
}

fn edit(alloc: Global, call: TreeCall, tree: &mut Tree) -> Result<(), FdtFault> {
    match call {
        TreeCall::Set => tree.set(alloc, b"/chosen", b"bootargs", b"quiet\0"),
        _ => tree.set_memory(alloc, 0x4000_0000, 0x1000_0000),
    }
}

fn tree_of(alloc: Global, bytes: &[u8]) -> Result<Tree, Fault> {
    read(alloc, bytes).map_err(|_| Fault::Input)
}

fn tree_digest(alloc: Global, tree: &Tree) -> Result<u64, Fault> {
    match tree.write(alloc) {
        Ok(bytes) => Ok(digest(bytes.as_slice())),
        Err(_) => Err(Fault::Input),
    }
}
