// A whole run: the requests one after another.
ghost use Rattle.std.specs.Prelude.{◌≡◌, ◌++◌, ◌*◌, ◌/◌, ◌≤◌, length, drop, pos, None, IfOk};
ghost use Rattle.runs.specs.Runs.{after};
ghost use Rattle.board.specs.Opening.{opening};
ghost use Rattle.pieces.specs.Pieces.{eights_in, four_each};
ghost use Rattle.lent.specs.Served.{served};
ghost use Rattle.lent.specs.Refusals.{refusal, as_number};
ghost use Rattle.serving.specs.Run.{Outcome, completed, outcome};

use crate::serves::Serves;
use encoding::encode;
use lent::{RunRefusal, accept};
use opening::opening;
use pieces::{eight, put, put_values};

// Hands the requests over one at a time and writes each answer after the one before it: request and answer k stand at 8 and 12 times k, as the
// rules `eights_in` and `served` say.
pub fn serve<B: Serves>(board: &mut B, requests: &[u8], answers: &mut [u8])
    requires reached { B.Ready board.old }
    requires requests_in_bounds { 12 * (length requests.now / 8) ≤ length answers.old }
    ensures value { board.new ≡ after B.next board.old (eights_in requests.now) }
    ensures answers_after { answers.new ≡ served B.next B.reply board.old (eights_in requests.now) ++ drop (12 * (length requests.now / 8)) answers.old }
{
    for k in 0..requests.len() / 8 {
        let request = eight(requests, 8 * k);
        let answer = board.step_in(request);
        let bytes = encode(request[1], answer);
        put(answers, 12 * k, &bytes);
    }
}

// The same, and the values at the end.
pub fn fill<B: Serves>(board: &mut B, requests: &[u8], answers: &mut [u8], values: &mut [u8])
    requires reached { B.Ready board.old }
    requires room { 12 * (length requests.now / 8) ≤ length answers.old }
    requires wide { 256 ≤ length values.old }
    ensures value { board.new ≡ after B.next board.old (eights_in requests.now) }
    ensures answers_after { answers.new ≡ served B.next B.reply board.old (eights_in requests.now) ++ drop (12 * (length requests.now / 8)) answers.old }
    ensures values_after { values.new ≡ four_each (B.values board.new) ++ drop 256 values.old }
{
    serve(board, requests, answers);
    put_values(values, board.values());
}

// A run that is not refused: the answers, the final values and the count of answers. C lends the four slices; with a journal a run is lent
// one more, and opens another board: so `complete` and `run` stand in journaling too, each of two calls.
pub fn complete(table: &[u8; 1024], requests: &[u8], answers: &mut [u8], values: &mut [u8]) -> usize
    requires { refusal table.now (length requests.now) (length answers.old) (length values.old) ≡ None }
    ensures { Outcome.told (pos result) answers.new values.new ≡ completed (opening table.now) (eights_in requests.now) answers.old values.old }
{
    let mut board = opening(table);
    fill(&mut board, requests, answers, values);
    requests.len() / 8
}

// A whole run: the count of answers, or why it is refused. It supposes nothing.
pub fn run(
    table: &[u8],
    requests: &[u8],
    answers: &mut [u8],
    values: &mut [u8],
) -> Result<usize, RunRefusal>
    ensures value { Outcome.told (as_number result) answers.new values.new ≡ outcome table.now requests.now answers.old values.old }
    ensures most { IfOk result (λ count. count ≤ 4096) }
{
    let rows = accept(table, requests.len(), answers.len(), values.len())?;
    Ok(complete(rows, requests, answers, values))
}
