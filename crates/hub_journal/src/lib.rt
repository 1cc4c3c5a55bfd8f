// These are C's calls, each beside its twin in hub: so they tell a refusal by its number.
// The hub with a journal of its commits: a whole run, one request at a time over a board that a host keeps, and a restart from the journal.
#![tactic(auto)]

ghost use Rattle.std.specs.Prelude.{◌≡◌, length};
ghost use Rattle.journal.specs.Journal.{journal_after};
ghost use Rattle.journal.specs.Reached.{Reached};
ghost use Rattle.fresh.specs.Fresh.{opened_by, journal_opened};
ghost use Rattle.journaling.specs.Run.{Outcome, outcome, stepped_by};
ghost use Rattle.restart.specs.Restart.{Restarted, restarted};

use fresh::open;
use journal::Journaled;
use journaling::host::tell;
use journaling::run::run;
use lent::{RunRefusal, as_number};
use restart::restart;

// A whole run with a journal: as hub_run, and each commit's records stand in the journal. A refused run leaves the journal as it is.
pub fn hub_run_journal(
    table: &[u8],
    requests: &[u8],
    answers: &mut [u8],
    values: &mut [u8],
    journal: &mut [u8],
) -> i64
    ensures { Outcome.told result answers.new values.new journal.new ≡ outcome table.now requests.now answers.old values.old journal.old }
{
    as_number(run(table, requests, answers, values, journal))
}

// A fresh board of the table with an empty journal, and 0; of a wrong table -10, and both stay as they are.
#[tactic(auto, unfolding(fresh::specs::Fresh::opened_of, fresh::specs::Fresh::opened_by))]
pub fn hub_open_journal(board: &mut Journaled, table: &[u8], journal: &mut [u8]) -> i64
    ensures { (result ≡ (opened_by board.old table.now).code) × (board.new ≡ (opened_by board.old table.now).board) × (journal.new ≡ journal_opened table.now journal.old) }
{
    match open(table, journal) {
        Ok(fresh) => {
            *board = fresh;
            0
        }
        Err(wrong) => RunRefusal::from(wrong).into(),
    }
}

// One request of any 8 bytes, on a board that an opening and such calls have left, over any journal.
pub fn hub_step_journal(
    board: &mut Journaled,
    request: &[u8; 8],
    answer: &mut [u8; 12],
    journal: &mut [u8],
)
    requires { Reached board.old }
    ensures { (board.new ≡ (stepped_by board.old (length journal.old) request.now).board) × (answer.new ≡ (stepped_by board.old (length journal.old) request.now).bytes) × (journal.new ≡ journal_after board.old journal.old request.now) }
{
    *answer = tell(board, *request, journal);
}

// How many commits of the journal are whole, and the table with the values after them; of a wrong table -10, and it stays as it is.
pub fn hub_restart(table: &mut [u8], journal: &[u8]) -> i64
    ensures { Restarted.told result table.new ≡ restarted table.old journal.now }
{
    restart(table, journal).map_or_else(|wrong| RunRefusal::from(wrong).into(), i64::from)
}
