//! Laws for the lists of commands that are made of a plan, proved of the definitions.
ghost use Rattle.std.specs.Prelude.{◌≡◌, ◌++◌, ◌/◌, ◌<◌, ◌≤◌, ◌&&◌, nat_le, nat_lt, ℕ, List, [], map, true, false, Ok};
ghost use Rattle.std.specs.List.{list_all, list_any};
ghost use Rattle.rmm_model.specs.Blocks.{granules, size};
ghost use Rattle.rmm_model.specs.Checks.{walk_of};
ghost use Rattle.rmm_model.specs.Space.{has, is_ram, made, overlaps, walk};
ghost use Rattle.rmm_model.specs.declared.table.Table.{Table};
ghost use Rattle.rtt_plan.specs.Agreement.{IsFormed, IsFresh, IsUsed};
ghost use Rattle.rtt_plan.specs.Accepted.{AcceptsData, AcceptsRegion};
ghost use Rattle.rtt_plan.specs.Among.{pages_among, runs_among};
ghost use Rattle.rtt_plan.specs.Entries.{block_level, entries, fits};
ghost use Rattle.rtt_plan.specs.Following.{AreRuns, block_of, blocks_of, ranges_of};
ghost use Rattle.rtt_plan.specs.InTurn.{AreFilledInTurn, AreMadeInTurn, AreSetInTurn};
ghost use Rattle.rtt_plan.specs.Places.{IsRegion};
ghost use Rattle.rtt_plan.specs.Planned.{AgreesWith, IsPlanned, Planned, after_data, after_region, data_acts, nothing_planned, plan_data, plan_region, region_acts};
ghost use Rattle.rtt_plan.specs.Runs.{runs_of};
ghost use Rattle.rtt_plan.specs.Missing.{page_acts, page_tables, run_acts, run_tables, tables_after, missing};
ghost use Rattle.rtt_plan.specs.declared.act.Act.{Act};
ghost use Rattle.rtt_plan.specs.declared.run.Run.{Run};

/// The block of a page lies in its region and has an allowed level, and no larger block does.
pub fn blocks_are_the_largest()
    ensures inside { (base end least_level x : ℕ) → IsRegion base end → least_level ≤ 3 → base ≤ x
        → x < end
        → fits base end (block_level base end least_level x) x ≡ true }
    ensures allowed { (base end least_level x : ℕ)
        → least_level ≤ block_level base end least_level x }
    ensures largest { (base end least_level level x : ℕ) → least_level ≤ level
        → fits base end level x ≡ true
        → block_level base end least_level x ≤ level }
{}

/// The runs of a region follow one another from its base to its end without a gap, each in one table at multiples of
/// its entries.
pub fn runs_follow_one_another()
    ensures { (base end least_level : ℕ) → IsRegion base end → least_level ≤ 3 → base < end
        → AreRuns least_level base end (runs_of base end least_level) }
{}

/// The blocks of a region's runs, one after the other, are those of its entries.
pub fn blocks_of_runs_are_the_entries()
    ensures { (base end least_level : ℕ) → IsRegion base end → least_level ≤ 3 → base < end
        → blocks_of (runs_of base end least_level)
        ≡ map (block_of base end least_level) (entries base end least_level) }
{}

/// The addresses that a region's runs make RAM are those of the region.
pub fn runs_make_the_region_ram()
    ensures { (base end least_level x : ℕ) → IsRegion base end → least_level ≤ 3 → base < end
        → is_ram (ranges_of (runs_of base end least_level)) x ≡ (nat_le base x && nat_lt x end) }
{}

/// The tables among the acts of runs, or of pages, are the tables of the runs, or of the pages.
pub fn acts_make_the_tables()
    ensures runs { (start : ℕ) (runs : List Run) (ts : List Table)
        → tables_after ts (run_acts start ts runs) ≡ run_tables start ts runs }
    ensures pages { (start : ℕ) (pages : List ℕ) (ts : List Table)
        → tables_after ts (page_acts start ts pages) ≡ page_tables start ts pages }
{}

/// Of a call that is not refused each check was passed, and its acts are those of the definition.
pub fn what_is_planned_passed_its_checks()
    ensures region { (p : Planned) (base end : ℕ) (acts : List Act)
        → plan_region p base end ≡ Ok acts
        → AcceptsRegion p base end × (acts ≡ region_acts p base end) }
    ensures data { (p : Planned) (base count : ℕ) (acts : List Act)
        → plan_data p base count ≡ Ok acts
        → AcceptsData p base count × (acts ≡ data_acts p base count) }
{}

/// The runs among the acts of runs are those runs, in order, and no page is among these acts; the pages among the acts
/// of pages are those pages, in order, and no run is.
pub fn acts_set_the_runs_and_the_pages()
    ensures runs { (start : ℕ) (runs : List Run) (ts : List Table)
        → (runs_among (run_acts start ts runs) ≡ runs)
        × (pages_among (run_acts start ts runs) ≡ []) }
    ensures pages { (start : ℕ) (pages : List ℕ) (ts : List Table)
        → (pages_among (page_acts start ts pages) ≡ pages)
        × (runs_among (page_acts start ts pages) ≡ []) }
{}

/// A plan agrees with itself; two agree in either order; and so do the first of three and the last.
pub fn agreeing_is_an_equivalence()
    ensures itself { (p : Planned) → AgreesWith p p }
    ensures turned { (p q : Planned) → AgreesWith p q → AgreesWith q p }
    ensures onward { (p q r : Planned) → AgreesWith p q → AgreesWith q r → AgreesWith p r }
{}

/// Plans that agree answer alike, and agree afterwards: so what is known of a plan up to agreement is
/// enough to say what its next calls answer.
pub fn plans_that_agree_go_on_alike()
    ensures region { (p q : Planned) (base end : ℕ) → base < end → AgreesWith p q
        → plan_region p base end ≡ plan_region q base end }
    ensures data { (p q : Planned) (base count : ℕ) → AgreesWith p q
        → plan_data p base count ≡ plan_data q base count }
    ensures walk { (p q : Planned) (x : ℕ) → AgreesWith p q
        → walk_of p.space x ≡ walk_of q.space x }
    ensures after_region { (p q : Planned) (base end : ℕ) → AgreesWith p q
        → AgreesWith (after_region p base end) (after_region q base end) }
    ensures after_data { (p q : Planned) (base count : ℕ) → AgreesWith p q
        → AgreesWith (after_data p base count) (after_data q base count) }
{}

/// When a block of which nothing is RAM is about to be set, no table that was made so far lies inside it.
pub fn no_table_lies_inside_a_fresh_block()
    ensures { (start l x : ℕ) (ts : List Table) (ram : List (ℕ × ℕ)) → IsFormed start ts
        → IsUsed ts ram
        → IsFresh ram l x
        → (level base : ℕ)
        → made ts level base ≡ true
        → l < level
        → base / size l ≡ x / size l
        → ⊥ }
{}

/// And after the tables that it needs, the walk of its addresses ends at the block's level.
pub fn walk_ends_at_a_fresh_block()
    ensures { (start l x : ℕ) (ts : List Table) (ram : List (ℕ × ℕ)) → start ≤ l → l ≤ 3
        → IsFormed start ts
        → IsUsed ts ram
        → IsFresh ram l x
        → walk start (ts ++ missing start ts l x) x ≡ l }
{}

/// After the tables of a page of data, the walk of the page ends at level 3.
pub fn walk_ends_at_a_page()
    ensures { (start x : ℕ) (ts : List Table) → start < 3 → IsFormed start ts
        → walk start (ts ++ missing start ts 3 x) x ≡ 3 }
{}

/// The tables that a block needs, once its first address is RAM, leave the tables formed and used; and tables that are
/// used stay so as RAM grows.
pub fn missing_tables_stay_formed()
    ensures formed { (start l x : ℕ) (ts : List Table) → l ≤ 3 → IsFormed start ts
        → IsFormed start (ts ++ missing start ts l x) }
    ensures used { (start l x : ℕ) (ts : List Table) (ram : List (ℕ × ℕ)) → IsUsed ts ram
        → is_ram ram x ≡ true
        → IsUsed (ts ++ missing start ts l x) ram }
    ensures grown { (ts : List Table) (ram more : List (ℕ × ℕ)) → IsUsed ts ram
        → ((x : ℕ) → is_ram ram x ≡ true → is_ram more x ≡ true)
        → IsUsed ts more }
{}

/// The tables that a block needs can be made one after another: once the earlier ones are made, the walk of each ends
/// one level above it.
pub fn missing_tables_are_made_in_turn()
    ensures { (start l x : ℕ) (ts : List Table) → l ≤ 3 → IsFormed start ts
        → AreMadeInTurn start ts (missing start ts l x) }
{}

/// The runs of a region of which nothing is RAM can be set one after another, each after the tables that it needs.
pub fn runs_are_set_in_turn()
    ensures { (start base end least_level : ℕ) (ts : List Table) (ram : List (ℕ × ℕ))
        → start ≤ least_level
        → least_level ≤ 3
        → base < end
        → IsRegion base end
        → IsFormed start ts
        → IsUsed ts ram
        → overlaps ram base end ≡ false
        → AreSetInTurn start ts ram (runs_of base end least_level) }
{}

/// Pages that are RAM and have no data can get data one after another, each after the tables that it needs.
pub fn pages_are_filled_in_turn()
    ensures { (count start base : ℕ) (ts : List Table) (ram : List (ℕ × ℕ)) (assigned : List ℕ)
        → start < 3
        → IsFormed start ts
        → list_all (is_ram ram) (granules count base) ≡ true
        → list_any (has assigned) (granules count base) ≡ false
        → AreFilledInTurn start ts ram assigned (granules count base) }
{}

/// Each plan that begins with nothing and goes on by regions and pages of RAM has tables that are formed and used.
pub fn plans_stay_formed()
    ensures nothing { (s2sz block_level : ℕ) → block_level ≤ 3
        → IsPlanned (nothing_planned s2sz block_level) }
    ensures region { (p : Planned) (base end : ℕ) → IsPlanned p → IsRegion base end → base < end
        → IsPlanned (after_region p base end) }
    ensures data { (p : Planned) (base count : ℕ) → IsPlanned p
        → list_all (is_ram p.space.ram) (granules count base) ≡ true
        → IsPlanned (after_data p base count) }
{}
