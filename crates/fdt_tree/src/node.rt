//! The nodes of a devicetree in memory.

ghost use Rattle.std.specs.Prelude.{◌≡◌, take, drop};
ghost use Rattle.fdt_tree.specs.NodeViews.{name_of};

/// A property's name. Many properties may share bytes of the strings that their tree keeps, so most
/// names are ranges of these. A name that is not among them has bytes of its own.
#[derive(Debug, Drop)]
pub enum Name {
    /// `len` bytes of the tree's strings, from `start` on.
    Shared { start: usize, len: usize },
    /// The bytes of the name.
    Own(Vec<u8>),
}

/// A property of a node: its name, and its value as it is in the file.
#[derive(Debug, Drop)]
pub struct Property {
    pub name: Name,
    pub value: Vec<u8>,
}

/// A node with its properties and its children, each in the order of the file. The root's name is
/// empty.
#[derive(Debug, Drop)]
pub struct Node {
    pub name: Vec<u8>,
    pub properties: Vec<Property>,
    pub children: Vec<Node>,
}

/// `len` bytes of the strings from `start` on, or fewer where the strings end.
pub(crate) fn range_of(strings: &[u8], start: usize, len: usize) -> &[u8]
    ensures { result.now ≡ take len (drop start strings.now) }
{
    let rest = &strings[start.min(strings.len())..];
    &rest[..len.min(rest.len())]
}

impl Name {
    /// The bytes of the name, given the strings of its tree.
    pub fn bytes<'a>(&'a self, strings: &'a [u8]) -> &'a [u8]
        ensures { result.now ≡ name_of strings.now self.now }
    {
        match self {
            Name::Shared { start, len } => range_of(strings, *start, *len),
            Name::Own(bytes) => bytes.as_slice(),
        }
    }
}
