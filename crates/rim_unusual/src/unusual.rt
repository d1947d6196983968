//! What is rarely meant in a launch that is accepted.
use crate::devicetree::{UnusualTree, find_in_tree};
use crate::items::{UnusualItem, find_in_items};
use crate::ram::{UnusualRam, find_in_ram};
use crate::recs::{UnusualRec, find_in_recs};
use crate::seen::SeenTrees;
use refusal::NoMemory;
use rim_accepted::AcceptedLaunch;
use rim_launch::Launch;
use shown_text::{Remark, Word};
use std::alloc::Global;
use std::fmt;
use std::fmt::Write;

/// What is rarely meant in a launch.
#[derive(Clone, Copy)]
pub enum Unusual<'a> {
    /// It has no RAM, no item and no REC.
    Empty,
    Rec(UnusualRec),
    Item(UnusualItem<'a>),
    Ram(UnusualRam),
    Tree(UnusualTree<'a>),
}

impl Unusual<'_> {
    /// The warning of it, without a place.
    pub fn remark(&self, alloc: Global) -> Result<Remark, NoMemory> {
        let mut remark = Remark::new(alloc, Word::Warning);
        self.write_to(&mut remark).map_err(|_| NoMemory)?;
        Ok(remark)
    }

    /// Adds it to its warning.
    fn write_to(&self, remark: &mut Remark) -> fmt::Result {
        match self {
            Unusual::Empty => write!(
                remark.given,
                "no RAM, no item and no REC: only the realm's parameters are measured"
            ),
            Unusual::Rec(rec) => rec.write_to(remark),
            Unusual::Item(item) => item.write_to(remark),
            Unusual::Ram(ram) => ram.write_to(remark),
            Unusual::Tree(tree) => tree.write_to(remark),
        }
    }
}

/// What is rarely meant in a launch that is accepted: of its RECs, its items, its RAM and its devicetree, in this order. A
/// launch with none of them has that alone. The files of the launch's release are those of `seen`.
pub fn find_unusual<'a>(
    alloc: Global,
    seen: &mut SeenTrees,
    accepted: &'a AcceptedLaunch<'_>,
) -> Result<Vec<Unusual<'a>>, NoMemory> {
    let mut found = Vec::new(alloc);
    if is_empty(accepted.launch()) {
        found.push(Unusual::Empty)?;
        return Ok(found);
    }
    find_in_recs(&mut found, accepted.placed().recs())?;
    find_in_items(&mut found, accepted)?;
    find_in_ram(&mut found, accepted)?;
    find_in_tree(alloc, &mut found, seen, accepted)?;
    Ok(found)
}

/// Whether a launch has no RAM, no item and no REC.
fn is_empty(launch: &Launch) -> bool {
    launch.ram().is_empty() && launch.items().is_empty() && launch.recs().is_empty()
}
