//! Laws for readers of the definitions, proved.
ghost use Rattle.std.specs.Prelude.{◌≡◌, ℕ, List, ◌+◌, ◌<◌, ◌↔◌, IsSome, Some, map, slice_get};
ghost use Rattle.std.specs.List.{All, Contains};
ghost use Rattle.rim_desc.specs.PageBytes.{page_bytes};
ghost use Rattle.rim_desc.specs.declared.measurement.Algo.{Algo};
ghost use Rattle.rim_desc.specs.declared.source.Source.{Source};
ghost use Rattle.page_jobs.specs.Key.{IsRising, key_cmp, next_key, rising_keys};
ghost use Rattle.page_jobs.specs.Page.{IsPageOf, PageView, bytes_of_page, page_named, page_of};
ghost use Rattle.page_jobs.specs.Table.{page_keys_of, slot_of};
ghost use Rattle.page_jobs.specs.declared.page.PageKey.{PageKey};
ghost use Rattle.rim_desc.specs.declared.page.TheConstants.{PAGE_SIZE};

/// The 4096 bytes of page k of an item are those that its definition says.
pub fn contents_are_page_bytes()
    ensures { (algo : Algo) (source : Source) (lead k : ℕ) (item : List ℕ) → lead < PAGE_SIZE
        → bytes_of_page (page_of algo source lead item k) ≡ page_bytes lead item k }
{}

/// Where each source has its item's bytes, pages of these items are one page if they have one key, and a
/// list of them is the list of the pages that their keys name.
pub fn pages_go_by_keys()
    ensures one { (items : Source → List ℕ) (p q : PageView) → IsPageOf items p → IsPageOf items q
        → p.key ≡ q.key
        → p ≡ q }
    ensures all { (items : Source → List ℕ) (pages : List PageView) → All (IsPageOf items) pages
        → pages ≡ map (page_named items) (page_keys_of pages) }
{}

/// Keys are compared as their definition says: by algorithm, source, lead and number.
pub fn keys_are_ordered()
    ensures { (a b : PageKey) → ⟦<crate::page::PageKey as Ord>⟧.cmp a b ≡ key_cmp a b }
{}

/// The keys of a list in their order rise, are those of the list, and no other keys that rise are.
pub fn rising_keys_are_the_keys_once()
    ensures rising { (keys : List PageKey) → IsRising (rising_keys keys) }
    ensures same { (keys : List PageKey) (key : PageKey)
        → Contains (rising_keys keys) key ↔ Contains keys key }
    ensures only { (keys others : List PageKey) → IsRising others
        → ((key : PageKey) → Contains others key ↔ Contains keys key)
        → others ≡ rising_keys keys }
{}

/// In pages whose keys rise each page is in the slot of its key, and the page in the slot of a key has it.
/// Just their keys have slots, and the slot of an item's next page is the next one.
pub fn slots_go_by_keys()
    ensures page { (pages : List PageView) → IsRising (page_keys_of pages) → (j : ℕ) (p : PageView)
        → slice_get pages j ≡ Some p
        → slot_of pages p.key ≡ Some j }
    ensures key { (pages : List PageView) (key : PageKey) (j : ℕ) (p : PageView)
        → slot_of pages key ≡ Some j
        → slice_get pages j ≡ Some p
        → p.key ≡ key }
    ensures there { (pages : List PageView) → IsRising (page_keys_of pages) → (key : PageKey)
        → IsSome (slot_of pages key) ↔ Contains (page_keys_of pages) key }
    ensures next { (pages : List PageView) → IsRising (page_keys_of pages) → (key : PageKey) (j : ℕ)
        → slot_of pages key ≡ Some j
        → Contains (page_keys_of pages) (next_key key)
        → slot_of pages (next_key key) ≡ Some (j + 1) }
{}
