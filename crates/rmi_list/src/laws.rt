//! Laws of the lists, proved of the definitions.
ghost use Rattle.std.specs.Prelude.{◌≡◌, ℕ, List, Ok};
ghost use Rattle.list_model.specs.Entries.{Contents, Entry, commands_of};
ghost use Rattle.list_model.specs.Parts.{AreContents};
ghost use Rattle.rim_launch.specs.LaunchData.{LaunchData};
ghost use Rattle.ipa_layout.specs.Layout.{PlacedData};
ghost use Rattle.rmi_list.specs.Following.{IsFollowed};
ghost use Rattle.rmi_list.specs.Listed.{listed};
ghost use Rattle.rmi_list.specs.Measured.{page_contents, measured};

/// A monitor takes each command of a launch's list, measures just the launch's parts, and holds their Realm Initial
/// Measurement; and no granule is taken twice. It holds for whatever contents the pages have, as long as these are
/// digests of the launch's algorithm.
pub fn list_is_followed()
    ensures { (l : LaunchData) (p : PlacedData) (page_contents : Contents) (entries : List Entry)
        → AreContents l.config.algo page_contents
        → listed l p ≡ Ok entries
        → IsFollowed l.config.algo l.config.num_aux l.config.rec_rule
        (commands_of page_contents entries)
        (measured l p page_contents) }
{}

/// The contents of a placed launch, which are digests of its pages, are such contents.
pub fn contents_of_a_launch()
    ensures { (l : LaunchData) (files : List (List ℕ)) (p : PlacedData)
        → AreContents l.config.algo (page_contents l files p) }
{}
