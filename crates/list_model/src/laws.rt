//! Laws of the commands of one step, proved of the definitions: a monitor takes each command, measures just the parts
//! of the step, and goes on with what is built then.
ghost use Rattle.std.specs.Prelude.{◌≡◌, ◌+◌, ◌<◌, ◌%◌, ℕ, List, [], ◌∷◌, false, Some};
ghost use Rattle.rim_desc.specs.Part.{Realm};
ghost use Rattle.rim_desc.specs.Realm.{realm_page_of};
ghost use Rattle.rim_desc.specs.Rec.{RecData};
ghost use Rattle.rmm_model.specs.Checks.{is_bad_realm};
ghost use Rattle.rmm_model.specs.Effects.{rec_parts};
ghost use Rattle.rmm_model.specs.Space.{SameTables};
ghost use Rattle.rmm_model.specs.State.{State, empty_state};
ghost use Rattle.rmm_model.specs.declared.table.Table.{Table};
ghost use Rattle.rtt_plan.specs.Accepted.{AcceptsData, AcceptsRegion};
ghost use Rattle.rtt_plan.specs.Missing.{page_acts, run_acts};
ghost use Rattle.rtt_plan.specs.Planned.{IsPlanned, Planned, after_data, after_region};
ghost use Rattle.rtt_plan.specs.declared.run.Run.{Run};
ghost use Rattle.list_model.specs.Entries.{Contents, commands_of, delegated, item_entries, page_entries, realm_entries, rec_entries, region_entries, run_entries};
ghost use Rattle.list_model.specs.Leading.{Build, Built, IsBuilt, IsNextRec, Leads, opened, planned, with_rec};
ghost use Rattle.list_model.specs.Parts.{AreContents, block_parts, page_parts};
ghost use Rattle.list_model.specs.declared.content.PageContent.{PageContent};
ghost use Rattle.list_model.specs.inside.Acts.{ItemOf, act_entries};
ghost use Rattle.rim_desc.specs.declared.page.TheConstants.{PAGE_SIZE};

/// The realm: a monitor that has done nothing takes the delegations of its start tables and of the realm descriptor, and
/// the realm. It measures the realm's page.
pub fn the_realm_is_created()
    ensures { (contents : Contents) (b : Build) → is_bad_realm b.params ≡ false
        → b.params.rtt_base ≡ b.pool
        → b.pool % PAGE_SIZE ≡ 0
        → Leads b (opened b.params) (empty_state b.num_aux b.rule)
        (commands_of contents (realm_entries b.pool b.params))
        (Realm (realm_page_of b.params) ∷ []) }
{}

/// A region: each of its blocks is measured once.
pub fn a_region_becomes_ram()
    ensures { (contents : Contents) (b : Build) (p : Planned) (n num_recs base end : ℕ) (s : State)
        → IsBuilt b (planned p n num_recs) s
        → IsPlanned p
        → base < end
        → AcceptsRegion p base end
        → Leads b (planned (after_region p base end)
        (n + delegated (region_entries b.pool n p base end)) num_recs) s
        (commands_of contents (region_entries b.pool n p base end))
        (block_parts base end p.least_level) }
{}

/// An item: each of its pages is measured once, with its content where the item is measured; none where its content is not
/// known.
pub fn an_item_gets_its_pages()
    ensures { (contents : Contents) (b : Build) (p : Planned) (n num_recs : ℕ)
        (content : PageContent) (item base count : ℕ) (s : State)
        → IsBuilt b (planned p n num_recs) s
        → IsPlanned p
        → AreContents b.params.algo contents
        → AcceptsData p base count
        → Leads b (planned (after_data p base count)
        (n + delegated (item_entries b.pool n p content item base count)) num_recs) s
        (commands_of contents (item_entries b.pool n p content item base count))
        (page_parts content contents item base count) }
{}

/// A REC: its page is measured, where it extends the measurement by the rule.
pub fn a_rec_is_created()
    ensures { (contents : Contents) (b : Build) (w : Built) (s : State) (r : RecData)
        → IsBuilt b w s
        → IsNextRec b w r
        → Leads b (with_rec b w) s (commands_of contents (rec_entries b.pool w.taken b.num_aux r))
        (rec_parts b.rule b.params.algo r) }
{}

/// The entries of the acts of runs, or of pages, are those of the runs, or of the pages.
pub fn acts_are_listed()
    ensures runs { (pool start : ℕ) (item : ItemOf) (k : ℕ) (rs : List Run) (n : ℕ)
        (ts : List Table)
        → act_entries pool n item k (run_acts start ts rs) ≡ run_entries pool n start ts rs }
    ensures pages { (pool start : ℕ) (content : PageContent) (item : ℕ) (xs : List ℕ) (k n : ℕ)
        (ts : List Table)
        → act_entries pool n (Some (content, item)) k (page_acts start ts xs)
        ≡ page_entries pool n start ts content item k xs }
{}

/// Plans with the same tables have the same entries.
pub fn same_tables_are_listed_alike()
    ensures runs { (pool start : ℕ) (rs : List Run) (n : ℕ) (ts us : List Table) → SameTables ts us
        → run_entries pool n start ts rs ≡ run_entries pool n start us rs }
    ensures pages { (pool start : ℕ) (content : PageContent) (item : ℕ) (xs : List ℕ) (k n : ℕ)
        (ts us : List Table)
        → SameTables ts us
        → page_entries pool n start ts content item k xs
        ≡ page_entries pool n start us content item k xs }
{}
