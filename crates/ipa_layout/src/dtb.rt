//! A launch's devicetree, before it is placed.

use fdt_tree::FdtFault;
use refusal::NoMemory;

/// What is placed of a launch's devicetree.
#[derive(Drop)]
pub enum Dtb {
    /// Its file, or nothing where the launch has none.
    AsFile,
    /// These bytes: the file with the launch's edits.
    Edited(Vec<u8>),
    /// Nothing, since it cannot be edited.
    Refused(FdtFault),
}

impl Dtb {
    ghost use Rattle.std.specs.Prelude.{◌≡◌, None, option_map};
    ghost use Rattle.std.specs.Result.{result_unwrap_or};
    ghost use Rattle.ipa_layout.specs.inside.LayoutViews.{dtb_of, seen};

    /// What an edit returned. A fault of the devicetree refuses it; want of memory is an error.
    pub fn of(edited: Result<Vec<u8>, FdtFault>) -> Result<Dtb, NoMemory>
        ensures { result ≡ dtb_of edited }
    {
        match edited {
            Ok(bytes) => Ok(Dtb::Edited(bytes)),
            Err(fault) => Ok(Dtb::Refused(fault.own_fault()?)),
        }
    }

    /// The edited bytes, if any.
    pub fn into_bytes(self) -> Option<Vec<u8>>
        ensures { option_map (λ v. v.items) result ≡ result_unwrap_or (seen self) None }
    {
        match self {
            Dtb::Edited(bytes) => Some(bytes),
            Dtb::AsFile | Dtb::Refused(_) => None,
        }
    }
}
