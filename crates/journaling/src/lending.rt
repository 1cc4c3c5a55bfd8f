// The board with the journal that is lent with it serves requests.
ghost use Rattle.std.specs.Prelude.{◌≡◌, length};
ghost use Rattle.journal.specs.Journal.{reply};
ghost use Rattle.journal.specs.Reached.{Reached};
ghost use Rattle.journal.proofs.Kept.{reached_call};
ghost use Rattle.journaling.specs.Lent.{ledger, next_lent};

use journal::{Journaled, step};
use serving::serves::Serves;
use wire::Answer;

pub struct LentLedger<'j> {
    pub kept: Journaled,
    pub journal: &'j mut [u8],
}

// The journal is given back as it stands.
impl Drop for LentLedger<'_> {
    fn drop(self)
        ensures { self.exit.1.0.now ≡ self.entry.journal.now }
    {
        let LentLedger {
            kept: _,
            journal: _,
        } = self;
    }
}

impl Serves for LentLedger<'_> {
    ghost Ready = { λ l. Reached l.kept };

    ghost next = { next_lent };

    ghost reply = { λ l q. reply (ledger l) q };

    ghost values = { λ l. l.kept.board.values };

    ghost keeps = { λ l q bytes r. reached_call r (length l.journal.now) q bytes };

    fn step_in(&mut self, request: [u8; 8]) -> Answer {
        let stepped = step(self.kept, request, self.journal);
        self.kept = stepped.board;
        stepped.answer
    }

    fn values(&self) -> [u32; 64] {
        self.kept.board.values
    }
}
