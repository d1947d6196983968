//! Laws of the flattened format. Each law is the contract of an empty function, so that it is proved.

ghost use Rattle.std.specs.Prelude.{◌≡◌, ◌<◌, ◌≤◌, ◌^◌, ◌++◌, ◌↔◌, ℕ, List, All, None, Ok, Err, length};
ghost use Rattle.fdt_header.specs.declared.fault.FdtFault.{FdtFault};
ghost use Rattle.fdt_tree.specs.Devicetree.{Devicetree};
ghost use Rattle.fdt_tree.specs.Scanning.{structure_at};
ghost use Rattle.fdt_tree.specs.FirstFault.{IsFirstFault};
ghost use Rattle.fdt_tree.specs.Reading.{Spells, refusal_of};
ghost use Rattle.fdt_tree.specs.TreeAt.{tree_at};
ghost use Rattle.fdt_tree.specs.Wholeness.{IsWhole};
ghost use Rattle.fdt_tree.specs.Writing.{written};
ghost use Rattle.fdt_header.specs.declared.header.TheConstants.{SIZE_LIMIT};

/// The same bytes spell at most one devicetree.
pub fn one_tree()
    ensures { (bytes : List ℕ) (t u : Devicetree) → Spells bytes t → Spells bytes u → t ≡ u }
{}

/// `tree_at`, the tree as a function of the bytes, is the tree that the bytes spell.
pub fn tree_at_is_spelled()
    ensures { (bytes : List ℕ) (t : Devicetree) → All (λ b. b < 256) bytes
        → (Spells bytes t ↔ (tree_at bytes ≡ Ok t)) }
{}

/// Bytes are refused exactly where they spell no devicetree.
pub fn refused_or_spelled()
    ensures spelled { (bytes : List ℕ) → All (λ b. b < 256) bytes → refusal_of bytes ≡ None
        → (t : Devicetree) × Spells bytes t }
    ensures refused { (bytes : List ℕ) (t : Devicetree) → Spells bytes t → refusal_of bytes ≡ None }
{}

/// A structure block is refused with the fault of the token after the longest list of tokens without
/// fault.
pub fn first_fault()
    ensures { (strings block : List ℕ) (f : FdtFault)
        → (structure_at strings block ≡ Err f) ↔ IsFirstFault strings block f }
{}

/// The bytes that are written of a devicetree spell it, whatever follows them, if all is no longer than a
/// file may be. Each tree in memory is whole, so [`Tree::write`](crate::Tree::write) promises the same.
pub fn written_is_spelled()
    ensures { (t : Devicetree) (z : List ℕ) → IsWhole t → t.boot_cpu < 2 ^ 32
        → length (written t ++ z) ≤ SIZE_LIMIT → Spells (written t ++ z) t }
{}
