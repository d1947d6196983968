//! A launch that is accepted.
mod accepting;

ghost use Rattle.std.specs.Prelude.{◌≡◌, IsOk, Ok};
ghost use Rattle.std.specs.List.{slice_get};
ghost use Rattle.ipa_layout.specs.Files.{bytes_of_files};
ghost use Rattle.ipa_layout.specs.Layout.{IsPlaced};
ghost use Rattle.rmi_list.specs.Listed.{listed};

pub use accepting::{accept, accept_with_list};
use ipa_layout::{Placed, PlacedItem};
use rim_launch::Launch;
use rim_manifest::NamedLaunch;
use rmi_list::Plan;

/// A launch that is accepted, with its names, the files of its release and the place of its items. By its type neither its layout
/// nor its list of commands is refused; only `accept` and `accept_with_list` make one.
#[derive(Drop)]
pub struct AcceptedLaunch<'a> {
    named: &'a NamedLaunch,
    files: &'a [Vec<u8>],
    placed: Placed,
    pub ghost is_placed: { IsPlaced named.now.launch (bytes_of_files files.now) placed },
    pub ghost is_listed: { IsOk (listed named.now.launch placed) },
}

/// A launch that is accepted, with its list of commands.
#[derive(Drop)]
pub struct ListedLaunch<'a> {
    pub accepted: AcceptedLaunch<'a>,
    pub plan: Plan,
    pub ghost is_plan: { listed accepted.named.now.launch accepted.placed ≡ Ok plan },
}

impl<'a> AcceptedLaunch<'a> {
    ghost use Rattle.std.specs.Prelude.{◌≡◌, option_map};
    ghost use Rattle.ipa_layout.specs.Files.{bytes_of_files};
    ghost use Rattle.ipa_layout.specs.Layout.{bytes_of_source};

    /// The launch with its names.
    pub fn named(&self) -> &'a NamedLaunch
        ensures { result.now ≡ self.entry.now.named.now }
    {
        self.named
    }

    /// The launch itself.
    pub fn launch(&self) -> &'a Launch
        ensures { result.now ≡ self.entry.now.named.now.launch }
    {
        self.named.launch()
    }

    /// The bytes of its release's files.
    pub fn files(&self) -> &'a [Vec<u8>]
        ensures { result.now ≡ self.entry.now.files.now }
    {
        self.files
    }

    /// The place of its items.
    pub fn placed(&self) -> &Placed
        ensures { result.now ≡ self.now.placed }
    {
        &self.placed
    }

    /// The bytes of an item: those of its file, or of the devicetree that the launch changed; `None` where its content is not
    /// known.
    pub fn bytes_of(&self, item: &PlacedItem) -> Option<&[u8]>
        ensures { option_map (λ bytes. bytes.now) result ≡ option_map
            (bytes_of_source (bytes_of_files self.now.files.now) self.now.placed) item.now.source }
    {
        match item.source {
            Some(source) => Some(self.placed.bytes(self.files, source)),
            None => None,
        }
    }
}

/// The item of this number, if a launch has one.
pub fn item_at(items: &[PlacedItem], number: usize) -> Option<PlacedItem>
    ensures { result ≡ slice_get items.now number }
{
    items.get(number).copied()
}
