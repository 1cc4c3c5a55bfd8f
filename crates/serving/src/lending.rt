// The board serves requests: one board record is lent to each call and altered there.
ghost use Rattle.board.specs.Rules.{next, reply};
ghost use Rattle.board.specs.Reached.{Reached};
ghost use Rattle.board.proofs.Reached.{reached_step};

use crate::serves::Serves;
use board::Board;
use stepping::step;
use wire::Answer;

impl Serves for Board {
    ghost Ready = { Reached };

    ghost next = { next };

    ghost reply = { reply };

    ghost values = { λ b. b.values };

    ghost keeps = { λ b q bytes r. reached_step r q bytes };

    // A thin wrapper over the step by value.
    fn step_in(&mut self, request: [u8; 8]) -> Answer {
        let stepped = step(*self, request);
        *self = stepped.board;
        stepped.answer
    }

    fn values(&self) -> [u32; 64] {
        self.values
    }
}
