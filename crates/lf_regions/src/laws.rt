//! What was proved of the changes of a list of regions. Each function has an empty
//! body; its clauses are the law.

ghost use Rattle.std.specs.Prelude.{◌≡◌, ◌||◌, ◌&&◌, ◌↔◌, Bool, List, None, Option, Some, false, filter, if◌then◌else◌, map, not, true, ℕ};
ghost use Rattle.lf_base.specs.declared.ids.ObjId.{ObjId};
ghost use Rattle.lf_base.specs.Names.{name_below, same_name};
ghost use Rattle.lf_base.specs.Sets.{Member};
ghost use Rattle.lf_regions.specs.declared.region.Region.{Region};
ghost use Rattle.lf_regions.specs.NextName.{is_above, next_name};
ghost use Rattle.lf_regions.specs.RegionChanges.{borrowed_at, new_region, owned_at, with_borrowed, with_owned, with_region, without_region};
ghost use Rattle.lf_regions.specs.Regions.{InNameOrder, borrowed_of, has_region, owned_of, region_named, region_names};

/// No change touches a region of another name.
pub fn other_regions_stay()
    ensures made { (regions : List Region) (r q : ObjId) → same_name r q ≡ false
        → region_named (with_region regions r) q ≡ region_named regions q }
    ensures ended { (regions : List Region) (r q : ObjId) → same_name r q ≡ false
        → region_named (without_region regions r) q ≡ region_named regions q }
    ensures borrowed { (regions : List Region) (r q : ObjId) (number : ℕ) → same_name r q ≡ false
        → region_named (with_borrowed regions r number) q ≡ region_named regions q }
    ensures owned { (regions : List Region) (r q : ObjId) (owned : Bool) → same_name r q ≡ false
        → region_named (with_owned regions r owned) q ≡ region_named regions q }
{}

/// What a change makes of the region of its name.
pub fn region_changes()
    ensures made { (regions : List Region) (r : ObjId) → has_region regions r ≡ false
        → region_named (with_region regions r) r ≡ Some (new_region r) }
    ensures ended { (regions : List Region) (r : ObjId) → region_named (without_region regions r) r ≡ None }
    ensures borrowed { (regions : List Region) (r : ObjId) (number : ℕ) (region : Region) → region_named regions r ≡ Some region
        → region_named (with_borrowed regions r number) r ≡ Some (record region { borrowed = number }) }
    ensures owned { (regions : List Region) (r : ObjId) (owned : Bool) (region : Region) → region_named regions r ≡ Some region
        → region_named (with_owned regions r owned) r ≡ Some (record region { owned = owned }) }
{}

/// Which names are in the list after a change.
pub fn names_after()
    ensures made { (regions : List Region) (r q : ObjId) → has_region (with_region regions r) q ≡ (same_name r q || has_region regions q) }
    ensures ended { (regions : List Region) (r q : ObjId)
        → has_region (without_region regions r) q ≡ (not (same_name r q) && has_region regions q) }
    ensures ended_names { (regions : List Region) (r : ObjId)
        → region_names (without_region regions r) ≡ filter (λ q. not (same_name q r)) (region_names regions) }
    ensures borrowed { (regions : List Region) (r : ObjId) (number : ℕ)
        → region_names (with_borrowed regions r number) ≡ region_names regions }
    ensures owned { (regions : List Region) (r : ObjId) (owned : Bool) → region_names (with_owned regions r owned) ≡ region_names regions }
    ensures borrowed_has { (regions : List Region) (r q : ObjId) (number : ℕ)
        → has_region (with_borrowed regions r number) q ≡ has_region regions q }
    ensures owned_has { (regions : List Region) (r q : ObjId) (owned : Bool)
        → has_region (with_owned regions r owned) q ≡ has_region regions q }
{}

/// What each change makes of the numbers of borrows. A new region has none, as a name
/// without a region.
pub fn borrowed_after()
    ensures made { (regions : List Region) (r q : ObjId) → has_region regions r ≡ false
        → borrowed_of (with_region regions r) q ≡ borrowed_of regions q }
    ensures ended { (regions : List Region) (r q : ObjId)
        → borrowed_of (without_region regions r) q ≡ (if same_name r q then 0 else borrowed_of regions q) }
    ensures borrowed { (regions : List Region) (r q : ObjId) (number : ℕ) → has_region regions r ≡ true
        → borrowed_of (with_borrowed regions r number) q ≡ (if same_name r q then number else borrowed_of regions q) }
    ensures owned { (regions : List Region) (r q : ObjId) (owned : Bool)
        → borrowed_of (with_owned regions r owned) q ≡ borrowed_of regions q }
{}

/// What each change makes of the flags. A new region isn't owned, as a name without a
/// region.
pub fn owned_after()
    ensures made { (regions : List Region) (r q : ObjId) → has_region regions r ≡ false
        → owned_of (with_region regions r) q ≡ owned_of regions q }
    ensures ended { (regions : List Region) (r q : ObjId)
        → owned_of (without_region regions r) q ≡ (if same_name r q then false else owned_of regions q) }
    ensures borrowed { (regions : List Region) (r q : ObjId) (number : ℕ)
        → owned_of (with_borrowed regions r number) q ≡ owned_of regions q }
    ensures owned { (regions : List Region) (r q : ObjId) (owned : Bool) → has_region regions r ≡ true
        → owned_of (with_owned regions r owned) q ≡ (if same_name r q then owned else owned_of regions q) }
{}

/// Each change keeps the order of the names.
pub fn order_stays()
    ensures made { (regions : List Region) (r : ObjId) → InNameOrder regions → has_region regions r ≡ false
        → InNameOrder (with_region regions r) }
    ensures ended { (regions : List Region) (r : ObjId) → InNameOrder regions → InNameOrder (without_region regions r) }
    ensures borrowed { (regions : List Region) (r : ObjId) (number : ℕ) → InNameOrder regions
        → InNameOrder (with_borrowed regions r number) }
    ensures owned { (regions : List Region) (r : ObjId) (owned : Bool) → InNameOrder regions → InNameOrder (with_owned regions r owned) }
{}

/// A name is in the list exactly where a region of it is found, and in a list by
/// rising name each region is the one of its name. A name that isn't in the list has no
/// borrow and no owner.
pub fn regions_are_found()
    ensures found { (regions : List Region) (r : ObjId) (region : Region) → region_named regions r ≡ Some region
        → Member region regions × (region.name ≡ r) }
    ensures there { (regions : List Region) (r : ObjId) → (has_region regions r ≡ true) ↔ Member r (region_names regions) }
    ensures each { (regions : List Region) (region : Region) → InNameOrder regions → Member region regions
        → region_named regions region.name ≡ Some region }
    ensures absent { (regions : List Region) (r : ObjId) → has_region regions r ≡ false
        → (borrowed_of regions r ≡ 0) × (owned_of regions r ≡ false) }
{}

/// The next name is the least one above the given one, and there is none exactly
/// where no name is above that.
pub fn next_name_is_least()
    ensures there { (regions : List Region) (after : Option ObjId) (name : ObjId) → next_name regions after ≡ Some name
        → Member name (region_names regions) × (is_above after name ≡ true) }
    ensures least { (regions : List Region) (after : Option ObjId) (name other : ObjId) → InNameOrder regions
        → next_name regions after ≡ Some name → Member other (region_names regions) → is_above after other ≡ true
        → name_below other name ≡ false }
    ensures none { (regions : List Region) (after : Option ObjId)
        → (next_name regions after ≡ None) ↔ ((name : ObjId) → Member name (region_names regions) → is_above after name ≡ false) }
{}
