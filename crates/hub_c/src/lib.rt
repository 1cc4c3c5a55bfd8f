// The hub's calls as a C host links them: each does what the call of its name in the crate hub does, and promises the same.
// They stand twice, since a crate is a library or a static library and not both.
#![tactic(auto)]

ghost use Rattle.std.specs.Prelude.{◌≡◌};
ghost use Rattle.board.specs.Reached.{Reached};
ghost use Rattle.serving.specs.Run.{Outcome, outcome, opened_by, stepped_by};

use board::Board;

// A whole run: the count of answers, or minus the number of the refusal. It supposes nothing.
#[unsafe(no_mangle)]
pub extern "C" fn hub_run(
    table: &[u8],
    requests: &[u8],
    answers: &mut [u8],
    values: &mut [u8],
) -> i64
    ensures { Outcome.told result answers.new values.new ≡ outcome table.now requests.now answers.old values.old }
{
    hub::hub_run(table, requests, answers, values)
}

// A fresh board of the table, and 0; of a wrong table -10, and the board stays as it is.
#[unsafe(no_mangle)]
pub extern "C" fn hub_open(board: &mut Board, table: &[u8]) -> i64
    ensures { (result ≡ (opened_by board.old table.now).code) × (board.new ≡ (opened_by board.old table.now).board) }
{
    hub::hub_open(board, table)
}

// One request of any 8 bytes, on a board that an opening and such calls have left.
#[unsafe(no_mangle)]
pub extern "C" fn hub_step(board: &mut Board, request: &[u8; 8], answer: &mut [u8; 12])
    requires { Reached board.old }
    ensures { (board.new ≡ (stepped_by board.old request.now).board) × (answer.new ≡ (stepped_by board.old request.now).bytes) }
{
    hub::hub_step(board, request, answer)
}
