// The hub: a whole run over byte slices that a host lends, and one request at a time over a board that it keeps.
// hub_run, hub_open and hub_step are C's calls: so they tell a refusal by its number, and each has a twin in hub_journal, which is lent one
// buffer more. A program in Rattle calls `run`, which tells it by name.
#![tactic(auto)]

ghost use Rattle.std.specs.Prelude.{◌≡◌};
ghost use Rattle.board.specs.Reached.{Reached};
ghost use Rattle.serving.specs.Run.{Outcome, outcome, opened_by, stepped_by};

use board::Board;
use lent::{RunRefusal, as_number};
use serving::host::{open, tell};
pub use serving::run::run;

// A whole run: the count of answers, or minus the number of the refusal. It supposes nothing.
pub fn hub_run(table: &[u8], requests: &[u8], answers: &mut [u8], values: &mut [u8]) -> i64
    ensures { Outcome.told result answers.new values.new ≡ outcome table.now requests.now answers.old values.old }
{
    as_number(run(table, requests, answers, values))
}

// A fresh board of the table, and 0; of a wrong table -10, and the board stays as it is.
#[tactic(auto, unfolding(serving::specs::Run::opened_of, serving::specs::Run::opened_by))]
pub fn hub_open(board: &mut Board, table: &[u8]) -> i64
    ensures { (result ≡ (opened_by board.old table.now).code) × (board.new ≡ (opened_by board.old table.now).board) }
{
    match open(table) {
        Ok(fresh) => {
            *board = fresh;
            0
        }
        Err(wrong) => RunRefusal::from(wrong).into(),
    }
}

// One request of any 8 bytes, on a board that an opening and such calls have left.
#[tactic(auto, unfolding(serving::specs::Run::stepped_by))]
pub fn hub_step(board: &mut Board, request: &[u8; 8], answer: &mut [u8; 12])
    requires { Reached board.old }
    ensures { (board.new ≡ (stepped_by board.old request.now).board) × (answer.new ≡ (stepped_by board.old request.now).bytes) }
{
    *answer = tell(board, *request);
}
