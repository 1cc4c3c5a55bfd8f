// What is answered to a request: checks 4 to 9 in their order, then the locks or the end's validation. The board is only read.
// Board and seat go side by side: a struct of the two would be made and taken apart in each of these short functions.
// `Counted` is required, since C lends a board of any bytes (board, src/).
#![tactic(auto)]

ghost use Rattle.std.specs.Prelude.{◌≡◌};
ghost use Rattle.wire.specs.declared.Request;
ghost use Rattle.board.specs.Rules.{seen, item_open, allowed, told, answered, answer};
ghost use Rattle.board.specs.Reached.{Counted};

use board::Board;
use counters::Age;
use desks::Desk;
use ending::end;
use locking::Claim;
use places::{Item, Seat};
use wire::{Answer, Refusal, Request};

// With the age that the desk keeps from an abort, else with the next one.
#[tactic(auto, unfolding(board::specs::Rules::answered))]
fn begin(b: &Board, d: Seat) -> Result<Answer, Refusal>
    ensures { result ≡ allowed b.now d Request.Begin }
{
    let k = &b.desks[d.index()];
    if k.is_open() {
        return Err(Refusal::AlreadyOpen);
    }
    if k.age != Age::ZERO {
        return Ok(Answer::Opened(k.age, b.number));
    }
    if b.age >= Age::LAST {
        return Err(Refusal::NoAgeLeft);
    }
    Ok(Answer::Opened(b.age.next(), b.number))
}

// The desk's own copy if it has written the item, else the board's value.
fn seen(values: &[u32; 64], k: &Desk, i: Item) -> u32
    ensures { result ≡ seen values.now k.now i }
{
    if k.written.has(i) {
        k.copies[i.index()]
    } else {
        values[i.index()]
    }
}

// Checks 5 and 6, which a read and a write share: the item that they may touch.
fn item_open(k: &Desk, i: u8) -> Result<Item, Refusal>
    ensures { result ≡ item_open k.now i }
{
    if !k.is_open() {
        return Err(Refusal::NoneOpen);
    }
    let Ok(item) = Item::try_from(i) else {
        return Err(Refusal::NoSuchItem);
    };
    Ok(item)
}

fn read(b: &Board, d: Seat, i: u8) -> Result<Answer, Refusal>
    ensures { result ≡ allowed b.now d (Request.Read i) }
{
    let k = &b.desks[d.index()];
    let item = item_open(k, i)?;
    let claim = Claim {
        seat: d,
        item,
        writes: false,
    };
    let value = seen(&b.values, k, item);
    Ok(claim.locked(&b.desks, b.guarded, Answer::Value(i, value)))
}

fn write(b: &Board, d: Seat, i: u8, v: u32) -> Result<Answer, Refusal>
    ensures { result ≡ allowed b.now d (Request.Write i v) }
{
    let item = item_open(&b.desks[d.index()], i)?;
    if v < b.floors[item.index()] {
        return Err(Refusal::BelowFloor);
    }
    if v > b.ceilings[item.index()] {
        return Err(Refusal::AboveCeiling);
    }
    let claim = Claim {
        seat: d,
        item,
        writes: true,
    };
    Ok(claim.locked(&b.desks, b.guarded, Answer::Stored(i)))
}

fn abandon(b: &Board, d: Seat) -> Result<Answer, Refusal>
    ensures { result ≡ allowed b.now d Request.Abandon }
{
    if b.desks[d.index()].is_open() {
        Ok(Answer::Abandoned)
    } else {
        Err(Refusal::NoneOpen)
    }
}

// A refusal is an answer too.
fn told(allowed: Result<Answer, Refusal>) -> Answer
    ensures { result ≡ told allowed }
{
    match allowed {
        Ok(answer) => answer,
        Err(refusal) => Answer::Refused(u8::from(refusal)),
    }
}

// By the kind of the request.
#[tactic(auto, unfolding(board::specs::Rules::answered))]
fn answered(b: &Board, d: Seat, request: Request) -> Answer
    requires { Counted b.now }
    ensures { result ≡ answered b.now d request }
{
    match request {
        Request::Begin => told(begin(b, d)),
        Request::Read(i) => told(read(b, d, i)),
        Request::Write(i, v) => told(write(b, d, i, v)),
        Request::End => end(b, d),
        Request::Abandon => told(abandon(b, d)),
    }
}

#[tactic(auto, unfolding(board::specs::Rules::answer))]
pub fn answer(b: &Board, asked: &Result<(Seat, Request), u8>) -> Answer
    requires { Counted b.now }
    ensures { result ≡ answer b.now asked.now }
{
    match asked {
        Ok((d, request)) => answered(b, *d, *request),
        Err(number) => Answer::Refused(*number),
    }
}
