//! Laws of placed launches: functions that do nothing, whose contracts are the laws.
ghost use Rattle.std.specs.Prelude.{◌≡◌, ℕ, ◌*◌, ◌%◌, ◌^◌, ◌<◌, ◌≤◌, List, length, true, IsSome};
ghost use Rattle.rim_launch.specs.declared.item.Item.{Item};
ghost use Rattle.ipa_layout.specs.declared.placed.PlacedItem.{PlacedItem};
ghost use Rattle.rim_launch.specs.LaunchData.{LaunchData};
ghost use Rattle.ipa_layout.specs.Layout.{IsPlaced, PlacedData};
ghost use Rattle.ipa_layout.specs.Laws.{HasPage, IsItem, IsSourceOf, page_end, page_total};
ghost use Rattle.rim_desc.specs.declared.page.TheConstants.{PAGE_SIZE};
ghost use Rattle.ipa_layout.specs.declared.item_check.TheConstants.{PAGE_LIMIT};

/// A placed launch has the launch's number, and as many items and RECs as the launch.
pub fn parts_of_a_placed_launch()
    ensures number { (l : LaunchData) (files : List (List ℕ)) (p : PlacedData) → IsPlaced l files p
        → p.number ≡ l.number }
    ensures items { (l : LaunchData) (files : List (List ℕ)) (p : PlacedData) → IsPlaced l files p
        → length p.items ≡ length l.items }
    ensures recs { (l : LaunchData) (files : List (List ℕ)) (p : PlacedData) → IsPlaced l files p
        → length p.recs ≡ length l.recs }
{}

/// An item's lead is how many bytes after the start of a page it begins; its bytes are those of its own
/// file or of the devicetree that this launch edited, and where the monitor does not know its content it has none; it is
/// measured where the launch says so, and then it has bytes; and its pages end at 2^64 at the latest.
pub fn each_placed_item()
    ensures lead { (l : LaunchData) (files : List (List ℕ)) (p : PlacedData) → IsPlaced l files p
        → (number : ℕ) (item : Item) (i : PlacedItem) → IsItem l p number item i
        → i.lead ≡ i.address % PAGE_SIZE }
    ensures source { (l : LaunchData) (files : List (List ℕ)) (p : PlacedData) → IsPlaced l files p
        → (number : ℕ) (item : Item) (i : PlacedItem) → IsItem l p number item i
        → IsSourceOf l p item i.source }
    ensures measured { (l : LaunchData) (files : List (List ℕ)) (p : PlacedData)
        → IsPlaced l files p
        → (number : ℕ) (item : Item) (i : PlacedItem)
        → IsItem l p number item i
        → i.measured ≡ item.measured }
    ensures known { (l : LaunchData) (files : List (List ℕ)) (p : PlacedData) → IsPlaced l files p
        → (number : ℕ) (item : Item) (i : PlacedItem) → IsItem l p number item i
        → i.measured ≡ true
        → IsSome i.source }
    ensures end { (l : LaunchData) (files : List (List ℕ)) (p : PlacedData) → IsPlaced l files p
        → (number : ℕ) (item : Item) (i : PlacedItem) → IsItem l p number item i
        → PAGE_SIZE * page_end i ≤ 2 ^ 64 }
{}

/// All items of a placed launch have at most 1,048,576 pages together.
pub fn pages_of_a_placed_launch()
    ensures { (l : LaunchData) (files : List (List ℕ)) (p : PlacedData) → IsPlaced l files p
        → page_total p ≤ PAGE_LIMIT }
{}

/// No page is a page of two items.
pub fn pages_are_apart()
    ensures { (l : LaunchData) (files : List (List ℕ)) (p : PlacedData) → IsPlaced l files p
        → (m n : ℕ) (a b : Item) (i j : PlacedItem) → m < n → IsItem l p m a i → IsItem l p n b j
        → (page : ℕ) → HasPage i page → HasPage j page → ⊥ }
{}
