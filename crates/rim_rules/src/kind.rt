//! The words of what a launch has: the kinds of items, and what the steps are about.
ghost use Rattle.std.specs.Prelude.{◌≡◌, map};
ghost use Rattle.rim_rules.specs.Kinds.{kind_of_word, kind_word, rules_of, step_front};
ghost use Rattle.rim_rules.specs.Rules.{rule_of};

use crate::form::Rule;
use crate::rules::{DTB_RULES, ITEM_RULES, UNKNOWN_RULES};
use rim_launch::Role;

/// All kinds of items, in the order in which their words are listed.
pub const KINDS: [Role; 5] = [
    Role::Kernel,
    Role::Initrd,
    Role::Dtb,
    Role::Raw,
    Role::Unknown,
];

/// The word of a kind of items.
pub fn kind_word(kind: Role) -> &'static str
    ensures { result.now ≡ kind_word kind }
{
    match kind {
        Role::Kernel => "kernel",
        Role::Initrd => "initrd",
        Role::Dtb => "dtb",
        Role::Raw => "raw",
        Role::Unknown => "unknown",
    }
}

/// The kind that has a word, if one does.
pub fn kind_of_word(word: &str) -> Option<Role>
    ensures { result ≡ kind_of_word word.now }
{
    KINDS.iter().copied().find(|kind| kind_word(*kind) == word)
}

/// Whether a launch may have several items of a kind.
pub fn may_repeat(kind: Role) -> bool {
    match kind {
        Role::Kernel | Role::Initrd | Role::Dtb => false,
        Role::Raw | Role::Unknown => true,
    }
}

/// The keys of an item of a kind.
pub fn item_rules(kind: Role) -> &'static [Rule]
    ensures { map rule_of result.now ≡ rules_of kind }
{
    match kind {
        Role::Dtb => &DTB_RULES,
        Role::Unknown => &UNKNOWN_RULES,
        Role::Kernel | Role::Initrd | Role::Raw => &ITEM_RULES,
    }
}

/// What a step is about.
#[derive(Clone, Copy, Debug, PartialEq, Eq)]
pub enum StepKind {
    Ram,
    Item,
    Rec,
}

impl StepKind {
    ghost use Rattle.std.specs.Prelude.{◌≡◌};
    ghost use Rattle.rim_rules.specs.Kinds.{step_front};

    /// How the text of such a step begins: its word and a space. A number or a name follows.
    pub fn front(self) -> &'static str
        ensures { result.now ≡ step_front self }
    {
        match self {
            StepKind::Ram => "ram ",
            StepKind::Item => "item ",
            StepKind::Rec => "rec ",
        }
    }
}
