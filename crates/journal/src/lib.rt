// The board with a journal of its commits. The board's answer comes first; then the room for the records of a commit is tested; then the
// board follows, and the records are put into the journal.
#![tactic(auto)]

ghost use Rattle.std.specs.Prelude.{◌≡◌, ◌+◌, ◌≤◌, length};
ghost use Rattle.records.specs.Records.{size_of, room, over};
ghost use Rattle.journal.specs.Journal.{limited, added, step, journal_after};
ghost use Rattle.journal.specs.Reached.{Reached};

use answering::answer;
use board::{Board, Stepped};
use decoding::{decode, desk_of};
use desks::Desk;
use items::Items;
use places::Seat;
use records::{append, room, size};
use stepping::following::follow;
use wire::{Answer, Refusal};

// A board, and how many bytes of its journal hold records. C lends the two apart, so the journal is not in it.
#[repr(C)]
#[derive(Clone, Copy)]
pub struct Journaled {
    pub board: Board,
    pub used: usize,
}

// An end that would commit but lacks room for all its records is refused.
#[tactic(auto, using(records::proofs::Sizes::count_below_lem))]
fn limited(answer: Answer, used: usize, written: Items, room: usize) -> Answer
    requires { used ≤ 65536 }
    ensures { result ≡ limited (used + size_of written) room answer }
{
    match answer {
        Answer::Committed(_) if room < used + size(written) => {
            Answer::Refused(u8::from(Refusal::NoJournalLeft))
        }
        _ => answer,
    }
}

// Puts the records of a commit into the journal; the bytes used then.
fn recorded(journal: &mut [u8], used: usize, k: Desk, answer: Answer) -> usize
    requires { limited (used + size_of k.written) (room (length journal.old)) answer ≡ answer }
    ensures value { result ≡ used + length (added k answer) }
    ensures journal_after { journal.new ≡ over journal.old used (added k answer) }
{
    match answer {
        Answer::Committed(number) => append(journal, used, k, number),
        _ => used,
    }
}

// It is not the step of the board without one: room is asked for between the answer and the board after it.
// One request of 8 bytes, whatever they are, over any journal. Of the board it supposes only what an opening and such calls can have left.
#[tactic(auto, unfolding(crate::specs::Journal::step, crate::specs::Journal::journal_after, crate::specs::Journal::answer_in))]
pub fn step(s: Journaled, request: [u8; 8], journal: &mut [u8]) -> Stepped<Journaled>
    requires { Reached s }
    ensures value { result ≡ step s (length journal.old) request }
    ensures journal_after { journal.new ≡ journal_after s journal.old request }
{
    let asked = decode(request);
    let k = s.board.desks[desk_of(&asked, Seat::at(0)).index()];
    let first = answer(&s.board, &asked);
    let answer = limited(first, s.used, k.written, room(journal.len()));
    let board = follow(s.board, &asked, answer);
    let used = recorded(journal, s.used, k, answer);
    Stepped {
        board: Journaled { board, used },
        answer,
    }
}
