//! The RECs of a launch with their defaults.
ghost use Rattle.std.specs.Prelude.{◌≡◌};
ghost use Rattle.ipa_layout.specs.Rec.{rec_of};

use rim_launch::Rec;

/// A REC with its defaults filled in.
#[derive(Clone, Copy, Debug, PartialEq, Eq)]
pub struct PlacedRec {
    /// The program counter at the first entry.
    pub pc: u64,
    /// x0 to x7.
    pub x: [u64; 8],
    /// Whether it may be run.
    pub runnable: bool,
}

impl PlacedRec {
    /// REC `number` with its defaults filled in: REC 0 enters at the kernel's address, with the
    /// devicetree's address in x0, as the Linux boot protocol asks. Either address is 0 where the launch
    /// has no such item. Other RECs default to zeros.
    pub fn filled(rec: &Rec, number: usize, kernel: u64, dtb: u64) -> PlacedRec
        ensures { result ≡ rec_of number kernel dtb rec.now }
    {
        let (pc, x0) = if number == 0 { (kernel, dtb) } else { (0, 0) };
        PlacedRec {
            pc: rec.pc.unwrap_or(pc),
            x: rec.x.unwrap_or([x0, 0, 0, 0, 0, 0, 0, 0]),
            runnable: rec.runnable,
        }
    }
}
