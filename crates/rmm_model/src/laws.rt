//! Laws for readers of the definitions, proved.
ghost use Rattle.std.specs.Prelude.{◌≡◌, ◌⊎◌, ◌↔◌, ◌<◌, ◌≤◌, ◌/◌, ◌+◌, ◌*◌, ◌==◌, ◌&&◌, ◌||◌, nat_le, nat_lt, ℕ, List, map, true, false, length, None, Option, Some, Err, ◌∷◌, []};
ghost use Rattle.std.specs.List.{range_with_len};
ghost use Rattle.rim_desc.specs.Part.{rim_of};
ghost use Rattle.rim_desc.specs.declared.command.Command.{Command};
ghost use Rattle.rim_desc.specs.declared.realm.RealmParams.{RealmParams};
ghost use Rattle.rim_desc.specs.declared.rule.RecRule.{RecRule};
ghost use Rattle.rim_desc.specs.declared.command.Command.TheVariants.{Delegate, DataCreate, DataCreateUnknown};
ghost use Rattle.rmm_model.specs.declared.outcome.Kind.{Kind};
ghost use Rattle.rmm_model.specs.declared.outcome.Refused.TheVariants as refused;
ghost use Rattle.rmm_model.specs.declared.outcome.Refused.TheVariants.{NotDelegated, NotUndelegated, WalkLevel};
ghost use Rattle.rmm_model.specs.declared.table.Table.{Table};
ghost use Rattle.rmm_model.specs.Blocks.{granules, span};
ghost use Rattle.rmm_model.specs.Checks.{walk_of};
ghost use Rattle.rmm_model.specs.Start.{start_of};
ghost use Rattle.rmm_model.specs.Space.{SameSpace, Space, after_page, after_run, after_table, are_some, deeper, has, is_ram, made, overlaps, walk};
ghost use Rattle.rmm_model.specs.State.{State, empty_state};
ghost use Rattle.rmm_model.specs.Owners.{give, kind_of, repeats};
ghost use Rattle.rmm_model.specs.Step.{step};
ghost use Rattle.rmm_model.specs.Run.{accepted, run, shown, taken};
ghost use Rattle.rmm_model.specs.Listing.{before_tables, listing_with_unknown, table_of_level_3, with_tables, worked_listing, worked_parts};
ghost use Rattle.rim_desc.specs.declared.page.TheConstants.{PAGE_SIZE};

/// The worked list of commands is accepted, measures the realm and three parts more, and leaves six
/// granules with a kind.
pub fn worked_listing_is_accepted()
    ensures taken { accepted (empty_state 0 None) worked_listing ≡ true }
    ensures measured { shown (empty_state 0 None) worked_listing ≡ worked_parts }
    ensures owners { length (run (empty_state 0 None) worked_listing).owners ≡ 6 }
{}

/// Content that the monitor does not know is not measured, and its page may be given after activation too; its granule is
/// taken. Before a realm is created it is refused.
pub fn unknown_data_is_not_measured()
    ensures taken { accepted (empty_state 0 None) listing_with_unknown ≡ true }
    ensures measured { shown (empty_state 0 None) listing_with_unknown ≡ worked_parts }
    ensures owners { length (run (empty_state 0 None) listing_with_unknown).owners ≡ 8 }
    ensures early { step (empty_state 0 None) (DataCreateUnknown 0x800006000 0x40001000)
        ≡ Err refused.State }
{}

/// Of that list, the table of level 3 before that of level 2: the walk does not end at level 2.
pub fn tables_come_in_order()
    ensures { step (run (empty_state 0 None) before_tables) table_of_level_3 ≡ Err WalkLevel }
{}

/// One granule delegated twice.
pub fn no_granule_is_delegated_twice()
    ensures { step (run (empty_state 0 None) (Delegate 0x800000000 ∷ [])) (Delegate 0x800000000)
        ≡ Err NotUndelegated }
{}

/// A page of data in a granule that is a table.
pub fn no_table_takes_data()
    ensures { step (run (empty_state 0 None) with_tables) (DataCreate 0x800004000 0x40000000 None)
        ≡ Err NotDelegated }
{}

/// The start tables of each width: level and number.
pub fn start_tables_by_width()
    ensures narrow { (start_of 32 ≡ Some (2, 4)) × (start_of 33 ≡ Some (2, 8))
        × (start_of 34 ≡ Some (2, 16)) }
    ensures middle { (start_of 35 ≡ Some (1, 1)) × (start_of 39 ≡ Some (1, 1))
        × (start_of 40 ≡ Some (1, 2)) × (start_of 43 ≡ Some (1, 16)) }
    ensures wide { (start_of 44 ≡ Some (0, 1)) × (start_of 48 ≡ Some (0, 1)) }
    ensures others { (start_of 31 ≡ None) × (start_of 49 ≡ None) }
{}

/// A walk ends at least as deep as the start level, and as each table that covers the address.
pub fn walk_is_deepest()
    ensures start { (start x : ℕ) (ts : List Table) → start ≤ walk start ts x }
    ensures tables { (start x level base : ℕ) (ts : List Table) → made ts level base ≡ true
        → x / span level ≡ base / span level
        → level ≤ walk start ts x }
{}

/// It ends at the start level, or at the level of a table that covers the address.
pub fn walk_is_of_a_table()
    ensures { (start x : ℕ) (ts : List Table)
        → (walk start ts x ≡ start)
        ⊎ ((base : ℕ) × (made ts (walk start ts x) base ≡ true)
        × (x / span (walk start ts x) ≡ base / span (walk start ts x))) }
{}

/// Ranges meet another range just where some address of it is RAM.
pub fn overlap_is_some_ram()
    ensures { (ram : List (ℕ × ℕ)) (base top : ℕ) → are_some ram ≡ true → base < top
        → (overlaps ram base top ≡ true)
        ↔ ((x : ℕ) × (base ≤ x) × (x < top) × (is_ram ram x ≡ true)) }
{}

/// The measurement that commands leave is the one that their parts make, in order; a command that is
/// refused has no part in it.
pub fn rim_is_of_its_parts()
    ensures { (num_aux : ℕ) (rule : Option RecRule) (commands : List Command) (params : RealmParams)
        → (run (empty_state num_aux rule) commands).params ≡ Some params
        → (run (empty_state num_aux rule) commands).rim
        ≡ Some (rim_of params.algo (shown (empty_state num_aux rule) commands)) }
{}

/// Commands that are all accepted take no granule twice.
pub fn no_granule_is_taken_twice()
    ensures { (state : State) (commands : List Command) → accepted state commands ≡ true
        → repeats (taken commands) ≡ false }
{}

/// A granule that is given a kind has that kind, and each other granule the kind that it had.
pub fn kinds_after_a_gift()
    ensures given { (owners : List (ℕ × Kind)) (granule : ℕ) (kind : Kind)
        → kind_of (give owners granule kind) granule ≡ Some kind }
    ensures others { (owners : List (ℕ × Kind)) (granule other : ℕ) (kind : Kind)
        → (other ≡ granule → ⊥)
        → kind_of (give owners granule kind) other ≡ kind_of owners other }
{}

/// After RttCreate its table is made, and each table that was.
pub fn tables_after_one_more()
    ensures { (s : Space) (level base j b : ℕ)
        → made (after_table s level base).tables j b
        ≡ ((level == j && base == b) || made s.tables j b) }
{}

/// After InitRipas the addresses of its range are RAM, and each that was; where nothing of the range was RAM before.
pub fn ram_after_a_run()
    ensures addresses { (s : Space) (base top x : ℕ) → are_some s.ram ≡ true → base < top
        → overlaps s.ram base top ≡ false
        → is_ram (after_run s base top).ram x
        ≡ ((nat_le base x && nat_lt x top) || is_ram s.ram x) }
    ensures ranges { (s : Space) (base top from to : ℕ) → are_some s.ram ≡ true → base < top
        → overlaps s.ram base top ≡ false
        → overlaps (after_run s base top).ram from to
        ≡ ((nat_lt base to && nat_lt from top) || overlaps s.ram from to) }
    ensures some { (s : Space) (base top : ℕ) → are_some s.ram ≡ true → base < top
        → are_some (after_run s base top).ram ≡ true }
{}

/// After DataCreate or DataCreateUnknown its page has data, and each page that had.
pub fn pages_after_one_more()
    ensures { (s : Space) (page x : ℕ)
        → has (after_page s page).assigned x ≡ ((page == x) || has s.assigned x) }
{}

/// A space is the same as itself; so are two in either order; and so is the first of three as the last.
pub fn being_the_same_is_an_equivalence()
    ensures itself { (s : Space) → SameSpace s s }
    ensures turned { (s t : Space) → SameSpace s t → SameSpace t s }
    ensures onward { (r s t : Space) → SameSpace r s → SameSpace s t → SameSpace r t }
{}

/// In spaces that are the same, walks end at the same levels, and deeper tables lie in the same ranges.
pub fn same_spaces_answer_alike()
    ensures walk { (s t : Space) (x : ℕ) → SameSpace s t → walk_of s x ≡ walk_of t x }
    ensures deeper { (s t : Space) (level base top : ℕ) → SameSpace s t
        → deeper s.tables level base top ≡ deeper t.tables level base top }
{}

/// Spaces that are the same stay so under the same step.
pub fn steps_keep_spaces_the_same()
    ensures table { (s t : Space) (level base : ℕ) → SameSpace s t
        → SameSpace (after_table s level base) (after_table t level base) }
    ensures run { (s t : Space) (base top : ℕ) → are_some s.ram ≡ true → are_some t.ram ≡ true
        → base < top
        → overlaps s.ram base top ≡ false
        → SameSpace s t
        → SameSpace (after_run s base top) (after_run t base top) }
    ensures page { (s t : Space) (page : ℕ) → SameSpace s t
        → SameSpace (after_page s page) (after_page t page) }
{}

/// Which addresses are RAM decides which ranges have RAM, in whatever pieces RAM is kept.
pub fn addresses_decide_ranges()
    ensures { (ram other : List (ℕ × ℕ)) → are_some ram ≡ true → are_some other ≡ true
        → ((x : ℕ) → is_ram ram x ≡ is_ram other x)
        → (base top : ℕ)
        → base < top
        → overlaps ram base top ≡ overlaps other base top }
{}

/// Granules, or pages, side by side: number k begins 4096 * k bytes after the first, and no two are one.
pub fn granules_are_side_by_side()
    ensures places { (n x : ℕ) → granules n x ≡ map (λ k. x + PAGE_SIZE * k) (range_with_len 0 n) }
    ensures apart { (n x : ℕ) → repeats (granules n x) ≡ false }
{}
