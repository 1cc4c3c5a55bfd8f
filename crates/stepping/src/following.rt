// The board after an answer.
ghost use Rattle.std.specs.Prelude.{◌≡◌, ◌<◌};
ghost use Rattle.wire.specs.Answers.{item_of};
ghost use Rattle.desks.specs.Desks.{copy_of};
ghost use Rattle.board.specs.Rules.{last_given, reading, writing, installed, follow};

use board::Board;
use counters::Age;
use decoding::{desk_of, value_of};
use desks::Desk;
use places::{Item, Seat};
use wire::{Answer, Request};

// The last age given: a new age is above it, and one that was kept is not.
fn last_given(last: Age, age: Age) -> Age
    ensures { result ≡ last_given last age }
{
    last.max(age)
}

// An open item joins the open-read set; a guarded one joins the shared set if the desk has not written it.
fn reading(k: &Desk, i: Item, guarded: bool) -> Desk
    ensures { result ≡ reading k.now i guarded }
{
    let mut after = *k;
    if !guarded {
        after.read = k.read.with(i);
        return after;
    }
    if !k.written.has(i) {
        after.shared = k.shared.with(i);
    }
    after
}

// The copy is stored, the item joins the written set and leaves the shared set.
fn writing(k: &Desk, i: Item, v: u32) -> Desk
    ensures { result ≡ writing k.now i v }
{
    let mut after = *k;
    after.shared = k.shared.without(i);
    after.written = k.written.with(i);
    after.copies[i.index()] = v;
    after
}

// The copies in place of the values of the items written.
#[tactic(auto, unfolding(board::specs::Rules::filled))]
fn installed(values: &[u32; 64], k: &Desk) -> [u32; 64]
    ensures { result ≡ installed k.now.written (copy_of k.now) values.now }
{
    let mut after = *values;
    for i in 0..64 {
        if k.written.has(Item::at(i)) {
            after[i] = k.copies[i];
        }
    }
    after
}

// One local holds the board all the way, and every way ends at the last line, so that it is copied no more than must be. The desk's record is
// taken out before the match, since in the arms it cost another copy.
#[tactic(auto, unfolding(board::specs::Rules::follow))]
pub fn follow(b: Board, asked: &Result<(Seat, Request), u8>, answer: Answer) -> Board
    requires { item_of answer < 64 }
    ensures { result ≡ follow b asked.now answer }
{
    let mut after = b;
    let d = desk_of(asked, Seat::at(0)).index();
    let k = after.desks[d];
    match answer {
        Answer::Refused(_) | Answer::Wait(_, _) => {}
        Answer::Opened(age, start) => {
            after.age = last_given(after.age, age);
            after.desks[d] = Desk::opened(age, start);
        }
        Answer::Value(i, _) => {
            let item = Item::at(i as usize);
            after.desks[d] = reading(&k, item, after.guarded.has(item));
        }
        Answer::Stored(i) => {
            after.desks[d] = writing(&k, Item::at(i as usize), value_of(asked));
        }
        Answer::Committed(number) => {
            after.values = installed(&after.values, &k);
            after.number = number;
            after.sets[number.place()] = k.written;
            after.desks[d] = Desk::idle(Age::ZERO); // what is committed needs its age no more
        }
        Answer::Abandoned => {
            after.desks[d] = Desk::idle(Age::ZERO); // nor does what is abandoned
        }
        Answer::Aborted(_) => {
            after.desks[d] = Desk::idle(k.age); // no copy is left for the desk's next transaction
        }
    }
    after
}
