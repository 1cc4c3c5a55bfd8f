// Sets of the sixty-four items.
#![tactic(auto)]

ghost use Rattle.std.specs.Prelude.{◌≡◌};
ghost use Rattle.items.specs.Items.{has, with, without, common, joined, empty, lowest, count_below};
ghost use Rattle.items.specs.First.{found};

use places::Item;

// A set of the items 0 to 63: item i is in it where the bit i is set.
#[repr(C)]
#[derive(Clone, Copy)]
pub struct Items(pub u64);

impl Items {
    // No item.
    pub const NONE: Items = Items(0);

    // Item i is in the set.
    #[tactic(auto, unfolding(crate::specs::Items::has))]
    pub fn has(self, i: Item) -> bool
        ensures { result ≡ has self i }
    {
        (self.0 >> i.index()) % 2 == 1
    }

    // The set and item i.
    #[tactic(auto, using(crate::proofs::Digits::one_shl), unfolding(crate::specs::Items::with))]
    pub fn with(self, i: Item) -> Items
        ensures { result ≡ with self i }
    {
        let item: u64 = 1 << i.index();
        Items(self.0 | item)
    }

    // The set but for item i.
    #[tactic(auto, using(crate::proofs::Digits::one_shl), unfolding(crate::specs::Items::without))]
    pub fn without(self, i: Item) -> Items
        ensures { result ≡ without self i }
    {
        let item: u64 = 1 << i.index();
        Items(self.0 ^ (self.0 & item))
    }

    // The items of both.
    #[tactic(auto, unfolding(crate::specs::Items::common))]
    pub fn common(self, other: Items) -> Items
        ensures { result ≡ common self other }
    {
        Items(self.0 & other.0)
    }

    // The items of either.
    #[tactic(auto, unfolding(crate::specs::Items::joined))]
    pub fn joined(self, other: Items) -> Items
        ensures { result ≡ joined self other }
    {
        Items(self.0 | other.0)
    }

    // No item is in the set. Its one number is compared: `==` of two sets would need a derive for this line alone.
    #[tactic(auto, using(crate::proofs::Laws::empty_zero))]
    pub fn is_empty(self) -> bool
        ensures { result ≡ empty self }
    {
        self.0 == 0
    }

    // The lowest item in the set, if there is one: as many bits are clear below it.
    #[tactic(auto, using(crate::proofs::Laws::count_lowest, crate::proofs::Laws::lowest_found, crate::proofs::Laws::lowest_empty))]
    pub fn lowest(self) -> Option<Item>
        ensures { result ≡ found 64 (lowest self) }
    {
        if self.is_empty() {
            return None;
        }
        Some(Item::at(self.0.trailing_zeros() as usize))
    }

    // How many items are in the set.
    #[tactic(auto, using(crate::proofs::Counted::ones_items))]
    pub fn len(self) -> usize
        ensures { result ≡ count_below self 64 }
    {
        u64::count_ones(self.0) as usize
    }
}
