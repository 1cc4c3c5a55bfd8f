// One request on a board: `answer` decides and changes nothing; `follow` changes and decides nothing.
#![tactic(auto)]

pub mod following;

ghost use Rattle.std.specs.Prelude.{◌≡◌};
ghost use Rattle.board.specs.Rules.{step};
ghost use Rattle.board.specs.Reached.{Reached};

use crate::following::follow;
use answering::answer;
use board::{Board, Stepped};
use decoding::decode;

// With a journal there is another step (journal), since it asks for room between the answer and the board after it.
// One request of 8 bytes, whatever they are. Of the board it supposes only what an opening and such calls can have left.
#[tactic(auto, using(board::proofs::Reached::reached_sound, board::proofs::Reached::sound_counted, board::proofs::Bounds::answer_item), unfolding(board::specs::Rules::step))]
pub fn step(board: Board, request: [u8; 8]) -> Stepped<Board>
    requires { Reached board }
    ensures { result ≡ step board request }
{
    let asked = decode(request);
    let answer = answer(&board, &asked);
    let board = follow(board, &asked, answer);
    Stepped { board, answer }
}
