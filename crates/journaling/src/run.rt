// A whole run with a journal: C lends one buffer more than to a run without, and another board is opened, so both stand.
ghost use Rattle.std.specs.Prelude.{◌≡◌, ◌≤◌, length, pos, None, IfOk};
ghost use Rattle.pieces.specs.Pieces.{eights_in};
ghost use Rattle.lent.specs.Refusals.{refusal, as_number};
ghost use Rattle.journal.specs.Journal.{opened};
ghost use Rattle.journaling.specs.Run.{Outcome, completed, outcome};

use crate::lending::LentLedger;
use fresh::fresh;
use lent::{RunRefusal, accept};
use serving::run::fill;

// A run that is not refused: the answers, the final values, the journal and the count of answers.
pub fn complete(
    table: &[u8; 1024],
    requests: &[u8],
    answers: &mut [u8],
    values: &mut [u8],
    journal: &mut [u8],
) -> usize
    requires { refusal table.now (length requests.now) (length answers.old) (length values.old) ≡ None }
    ensures { Outcome.told (pos result) answers.new values.new journal.new ≡ completed (opened table.now journal.old) (eights_in requests.now) answers.old values.old }
{
    let kept = fresh(table, journal);
    let mut ledger = LentLedger { kept, journal };
    fill(&mut ledger, requests, answers, values);
    requests.len() / 8
}

// A whole run with a journal: the count of answers, or why it is refused. It supposes nothing.
pub fn run(
    table: &[u8],
    requests: &[u8],
    answers: &mut [u8],
    values: &mut [u8],
    journal: &mut [u8],
) -> Result<usize, RunRefusal>
    ensures value { Outcome.told (as_number result) answers.new values.new journal.new ≡ outcome table.now requests.now answers.old values.old journal.old }
    ensures most { IfOk result (λ count. count ≤ 4096) }
{
    let rows = accept(table, requests.len(), answers.len(), values.len())?;
    Ok(complete(rows, requests, answers, values, journal))
}
