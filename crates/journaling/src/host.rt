// What the exported call for one request does.
ghost use Rattle.std.specs.Prelude.{◌≡◌, length};
ghost use Rattle.journal.specs.Journal.{journal_after};
ghost use Rattle.journal.specs.Reached.{Reached};
ghost use Rattle.journaling.specs.Run.{stepped_by};

use crate::lending::LentLedger;
use journal::Journaled;

// One request and the bytes of its answer.
#[tactic(auto, unfolding(crate::specs::Run::stepped_by))]
pub fn tell(board: &mut Journaled, request: [u8; 8], journal: &mut [u8]) -> [u8; 12]
    requires { Reached board.old }
    ensures { (board.new ≡ (stepped_by board.old (length journal.old) request).board) × (result ≡ (stepped_by board.old (length journal.old) request).bytes) × (journal.new ≡ journal_after board.old journal.old request) }
{
    let mut ledger = LentLedger {
        kept: *board,
        journal,
    };
    let bytes = serving::host::tell(&mut ledger, request);
    *board = ledger.kept;
    bytes
}
