// Validation at the end: what was read against the write sets of later numbers.
ghost use Rattle.std.specs.Prelude.{◌≡◌, ◌≤◌, ◌<◌};
ghost use Rattle.board.specs.Rules.{overwritten};

use counters::Number;
use items::Items;
use wire::Reason;

// Why an end is overwritten, if it is: of the numbers above the start up to the last the lowest whose write set shares an item with the
// open-read set, and the lowest such item.
pub fn overwritten(sets: &[Items; 16], read: Items, start: Number, last: Number) -> Option<Reason>
    requires start_le_last { start.0 ≤ last.0 }
    requires last_bound { last.0 < 2000 }
    ensures { result ≡ overwritten sets.now read start.0 last.0 }
{
    let span = last.since(start);
    for k in 0..span {
        let number = start.later(k);
        let both = sets[number.place()].common(read);
        if let Some(item) = both.lowest() {
            return Some(Reason::Overwritten(item.index() as u8, number));
        }
    }
    None
}
