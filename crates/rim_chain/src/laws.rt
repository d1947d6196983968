//! Laws of chains, proved of the definitions.
ghost use Rattle.std.specs.Prelude.{◌≡◌, ◌++◌, ℕ, List, length, map, take, drop, Ok, Some};
ghost use Rattle.std.specs.List.{All};
ghost use Rattle.rim_desc.specs.Part.{extended_by};
ghost use Rattle.rim_desc.specs.declared.measurement.Algo.{Algo};
ghost use Rattle.rim_desc.specs.declared.measurement.Measurement.{Measurement};
ghost use Rattle.rmm_model.specs.Run.{run};
ghost use Rattle.rmm_model.specs.State.{empty_state};
ghost use Rattle.list_model.specs.Entries.{Entry, commands_of};
ghost use Rattle.rim_launch.specs.LaunchData.{LaunchData};
ghost use Rattle.ipa_layout.specs.Layout.{IsPlaced, PlacedData};
ghost use Rattle.page_jobs.specs.Table.{IsTable, TableView};
ghost use Rattle.page_jobs.specs.declared.page.PageKey.{PageKey};
ghost use Rattle.rmi_list.specs.Listed.{listed};
ghost use Rattle.rmi_list.specs.Measured.{page_contents};
ghost use Rattle.launch_plan.specs.Links.{PlanView, chain_of, keys_of, parts_with};
ghost use Rattle.launch_plan.specs.declared.link.Link.{Link};
ghost use Rattle.rim_chain.specs.OwnDigests.{HasOwnPage, own_digest};
ghost use Rattle.launch_plan.specs.Reading.{IsReadOf};
ghost use Rattle.launch_plan.specs.Rows.{IsRowOf};

/// The chain of a launch's plan and the digests of its own pages is what a monitor holds after the launch's list of
/// commands.
pub fn the_chain_is_what_a_monitor_holds()
    ensures { (l : LaunchData) (files : List (List ℕ)) (p : PlacedData) (entries : List Entry)
        (v : PlanView)
        → IsPlaced l files p
        → listed l p ≡ Ok entries
        → IsReadOf l p v
        → (run (empty_state l.config.num_aux l.config.rec_rule)
        (commands_of (page_contents l files p) entries)).rim
        ≡ Some (chain_of v (map (own_digest files p) (keys_of v.links))) }
{}

/// A row that was filled from a table has the digests of the launch's own pages, where the table has these pages.
pub fn a_row_has_the_digests_of_its_pages()
    ensures { (t : TableView) (files : List (List ℕ)) (p : PlacedData) (keys : List PageKey)
        (digests : List Measurement)
        → IsTable t
        → All (HasOwnPage t files p) keys
        → IsRowOf t keys digests
        → digests ≡ map (own_digest files p) keys }
{}

/// Links in two pieces extend a measurement as they do in one: the second piece goes on from what the first one left,
/// with the digests that the first one did not take.
pub fn a_chain_goes_on_from_its_prefix()
    ensures { (algo : Algo) (rim : List ℕ) (prefix back : List Link) (digests : List Measurement)
        → let n = length (keys_of prefix) in
        extended_by algo rim (parts_with (prefix ++ back) digests)
        ≡ extended_by algo (extended_by algo rim (parts_with prefix (take n digests)))
        (parts_with back (drop n digests)) }
{}
