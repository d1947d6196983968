//! Laws for readers of the definitions, proved.
ghost use Rattle.std.specs.Prelude.{◌≡◌, false, true, codes, map, None, Option, Some};
ghost use Rattle.std.specs.List.{list_any};
ghost use Rattle.std.specs.Str.{bytes_eq};
ghost use Rattle.toml.specs.Data.{Data, get, string};
ghost use Rattle.rim_desc.specs.Rule.{rule_word};
ghost use Rattle.rim_desc.specs.declared.rule.RecRule.{RecRule};
ghost use Rattle.rim_rules.specs.declared.rules.TheConstants.{DTB_RULES, FILE_RULES, ITEM_RULES, REC_RULES, TOP_RULES, UNKNOWN_RULES};
ghost use Rattle.rim_rules.specs.declared.version.FormatVersion.{FormatVersion};
ghost use Rattle.rim_rules.specs.Rules.{dtb_rules, file_rules, item_rules, rec_rules, rule, top_rules, unknown_rules};
ghost use Rattle.rim_rules.specs.Versions.{lacks_rule, launch_rules_in, rule_for};

/// The tables of the code are those that the definitions have.
pub fn the_tables_are_those_of_the_definitions()
    ensures top { map (λ r. rule r.0.now r.1 r.2) TOP_RULES ≡ top_rules }
    ensures file { map (λ r. rule r.0.now r.1 r.2) FILE_RULES ≡ file_rules }
    ensures item { map (λ r. rule r.0.now r.1 r.2) ITEM_RULES ≡ item_rules }
    ensures dtb { map (λ r. rule r.0.now r.1 r.2) DTB_RULES ≡ dtb_rules }
    ensures unknown { map (λ r. rule r.0.now r.1 r.2) UNKNOWN_RULES ≡ unknown_rules }
    ensures rec { map (λ r. rule r.0.now r.1 r.2) REC_RULES ≡ rec_rules }
{}

/// The two versions are not the same: a launch of version 1 has no key for a rule, and no rule whatever its table says. In version 2 each
/// word reads as its own rule, and a launch that lacks its rule gives none.
pub fn the_versions_part_by_the_rule()
    ensures no_key { list_any (λ r. bytes_eq r.key (codes "rec_rule"))
        (launch_rules_in FormatVersion.One) ≡ false }
    ensures key { list_any (λ r. bytes_eq r.key (codes "rec_rule"))
        (launch_rules_in FormatVersion.Two) ≡ true }
    ensures none { (o : Option Data) → rule_for FormatVersion.One o ≡ None }
    ensures read { (rule : RecRule)
        → rule_for FormatVersion.Two (Some (string (rule_word rule))) ≡ Some rule }
    ensures lacks { (d : Data)
        → lacks_rule FormatVersion.Two d ≡ true → get (codes "rec_rule") d ≡ None }
{}
