// A fresh board with an empty journal.
#![tactic(auto)]

ghost use Rattle.std.specs.Prelude.{◌≡◌};
ghost use Rattle.journal.specs.Journal.{fresh, cleared};
ghost use Rattle.fresh.specs.Fresh.{opened_of, journal_opened};

use journal::Journaled;
use opening::opening;
use records::room;
use table::WrongTable;

// Zeroes the journal, as far as it is used.
#[tactic(auto, using(records::proofs::Sizes::room_within))]
fn clear(journal: &mut [u8])
    ensures { journal.new ≡ cleared journal.old }
{
    let end = room(journal.len());
    journal[..end].fill(0);
}

// The board of a table, with nothing used of its journal. Both calls below make it where they return it: handed on from one to the other it was
// copied once more.
fn unused(table: &[u8; 1024]) -> Journaled
    ensures { result ≡ fresh table.now }
{
    Journaled {
        board: opening(table),
        used: 0,
    }
}

// The board of a table with an empty journal.
pub fn fresh(table: &[u8; 1024], journal: &mut [u8]) -> Journaled
    ensures value { result ≡ fresh table.now }
    ensures journal_after { journal.new ≡ cleared journal.old }
{
    clear(journal);
    unused(table)
}

// Without a journal another board is opened, and no buffer cleared (serving).
// The same, of a table that is right; of a wrong one the journal stays as it is.
#[tactic(auto, using(table::proofs::Rows::is_wrong, table::proofs::Rows::checked_is, table::proofs::Rows::checked_not), unfolding(crate::specs::Fresh::opened_of, crate::specs::Fresh::journal_opened))]
pub fn open(table: &[u8], journal: &mut [u8]) -> Result<Journaled, WrongTable>
    ensures { (result ≡ opened_of table.now) × (journal.new ≡ journal_opened table.now journal.old) }
{
    let rows = table::check(table)?;
    clear(journal);
    Ok(unused(rows))
}
