// Who holds a guarded item, and what is answered of it.
#![tactic(auto)]

ghost use Rattle.std.specs.Prelude.{◌≡◌};
ghost use Rattle.items.specs.First.{found};
ghost use Rattle.desks.specs.Desks.{conflicts, desk_in, in_the_way, older, holder, locked};

use desks::Desk;
use items::Items;
use places::{Item, Seat};
use wire::{Answer, Reason};

// A desk asks to read the item, or to write it.
#[derive(Clone, Copy)]
pub struct Claim {
    pub seat: Seat,
    pub item: Item,
    pub writes: bool,
}

impl Claim {
    // The desk's record conflicts with it.
    fn conflicts(&self, k: &Desk) -> bool
        ensures { result ≡ conflicts k.now self.now.item self.now.writes }
    {
        k.written.has(self.item) || (self.writes && k.shared.has(self.item))
    }

    // Seat e is another one, and its desk conflicts at the guarded item. Seats are compared by their index.
    fn meets(&self, desks: &[Desk; 16], guarded: Items, e: Seat) -> bool
        ensures { result ≡ in_the_way desks.now guarded self.now.seat self.now.item self.now.writes e }
    {
        guarded.has(self.item)
            && e.index() != self.seat.index()
            && self.conflicts(&desks[e.index()])
    }

    // Of the desks in the way the one of lowest age, if there is one.
    fn holder(&self, desks: &[Desk; 16], guarded: Items) -> Option<Seat>
        ensures { result ≡ found 16 (holder desks.now guarded self.now.seat self.now.item self.now.writes) }
    {
        let mut oldest: Option<Seat> = None;
        for n in 0..16 {
            let e = Seat::at(n);
            if self.meets(desks, guarded, e) {
                oldest = Some(older(desks, oldest, e));
            }
        }
        oldest
    }

    // What is granted, or wait, or yield: these name the oldest holder.
    #[tactic(auto, using(items::proofs::First::none_found, desks::proofs::Locking::locked_free))]
    pub fn locked(&self, desks: &[Desk; 16], guarded: Items, granted: Answer) -> Answer
        ensures { result ≡ locked desks.now guarded self.now.seat self.now.item self.now.writes granted }
    {
        let Some(e) = self.holder(desks, guarded) else {
            return granted;
        };
        let item = self.item.index() as u8;
        let named = e.index() as u8;
        if desks[self.seat.index()].age.below(desks[e.index()].age) {
            return Answer::Wait(item, named);
        }
        Answer::Aborted(Reason::Yield(item, named))
    }
}

// Seat e, if none was found before it or it is older than the one found.
fn older(desks: &[Desk; 16], found: Option<Seat>, e: Seat) -> Seat
    ensures { result ≡ older (λ n. (desk_in desks.now n).age.0) found e }
{
    match found {
        Some(f) if !desks[e.index()].age.below(desks[f.index()].age) => f,
        _ => e,
    }
}
