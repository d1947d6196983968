//! Which RECs extend the measurement.
ghost use Rattle.std.specs.Prelude.{◌≡◌};
ghost use Rattle.rim_desc.specs.Rule.{extends, rule_word};

/// Whether a REC that is not runnable extends the Realm Initial Measurement. By DEN0137, RMI_REC_CREATE, just a runnable
/// REC does; the other rule is for monitors that extend it for each.
#[derive(Clone, Copy, Debug, PartialEq, Eq)]
pub enum RecRule {
    /// Each REC extends it.
    All,
    /// A REC extends it if it is runnable.
    Runnable,
}

impl RecRule {
    /// The word of the rule in manifests and listings. This project's choice.
    pub fn word(self) -> &'static str
        ensures { result.now ≡ rule_word self }
    {
        match self {
            RecRule::All => "all",
            RecRule::Runnable => "runnable",
        }
    }
}

/// Whether a REC extends the measurement, by a rule or by none. Without one each REC does, and none is made that is not
/// runnable.
pub fn extends(rule: Option<RecRule>, is_runnable: bool) -> bool
    ensures { result ≡ extends rule is_runnable }
{
    match rule {
        Some(RecRule::Runnable) => is_runnable,
        Some(RecRule::All) | None => true,
    }
}
