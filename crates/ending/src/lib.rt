// What is answered to an end: the validation of what was read.
#![tactic(auto)]

mod validation;

ghost use Rattle.std.specs.Prelude.{◌≡◌};
ghost use Rattle.wire.specs.declared.Request.TheVariants.{End};
ghost use Rattle.board.specs.Rules.{answered};
ghost use Rattle.board.specs.Reached.{Counted};

use crate::validation::overwritten;
use board::Board;
use places::Seat;
use wire::{Answer, Reason, Refusal};

// Commit, or abort as too old or overwritten.
#[tactic(auto, unfolding(board::specs::Rules::answered))]
pub fn end(b: &Board, d: Seat) -> Answer
    requires { Counted b.now }
    ensures { result ≡ answered b.now d End }
{
    let k = &b.desks[d.index()];
    if !k.is_open() {
        return Answer::Refused(u8::from(Refusal::NoneOpen));
    }
    let last = b.number;
    let commit = Answer::Committed(last.next());
    if k.read.is_empty() {
        return commit;
    }
    if last.since(k.start) > 16 {
        return Answer::Aborted(Reason::TooOld(k.start));
    }
    match overwritten(&b.sets, k.read, k.start, last) {
        Some(why) => Answer::Aborted(why),
        None => commit,
    }
}
