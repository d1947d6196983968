//! The warnings of a launch, as `rim check` says them.
use refusal::NoMemory;
use rim_accepted::AcceptedLaunch;
use rim_unusual::{SeenTrees, find_unusual};
use shown_text::{Remark, launch_place};
use std::alloc::Global;

/// The warnings of a launch that is accepted.
pub fn warning_remarks(
    alloc: Global,
    accepted: &AcceptedLaunch<'_>,
) -> Result<Vec<Remark>, NoMemory> {
    let mut remarks = Vec::new(alloc);
    let mut seen = SeenTrees::new(alloc);
    for one in &find_unusual(alloc, &mut seen, accepted)? {
        let mut remark = one.remark(alloc)?;
        remark.place = launch_place(alloc, accepted.named().name(), 0)?;
        remarks.push(remark)?;
    }
    Ok(remarks)
}
