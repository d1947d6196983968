//! What the monitor knows of the content of a page.

/// What the monitor knows of the content of a page of data, and whether that is measured (DEN0137, RMI_DATA_CREATE and
/// RMI_DATA_CREATE_UNKNOWN).
#[derive(Clone, Copy, Debug, PartialEq, Eq)]
pub enum PageContent {
    /// The host hands the content in, and it is measured.
    Measured,
    /// The host hands it in, but its address alone is measured.
    Unmeasured,
    /// The monitor does not know it. Nothing of the page is measured.
    Unknown,
}

impl PageContent {
    ghost use Rattle.std.specs.Prelude.{◌≡◌};
    ghost use Rattle.list_model.specs.Content.{is_measured};

    /// Whether the bytes of the page are measured.
    pub fn is_measured(self) -> bool
        ensures { result ≡ is_measured self }
    {
        match self {
            PageContent::Measured => true,
            PageContent::Unmeasured | PageContent::Unknown => false,
        }
    }
}
