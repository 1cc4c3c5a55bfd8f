// A restart: an opening table and the journal that a hub left, cut or damaged anywhere, to the table with the values after the last whole commit.
#![tactic(auto)]

mod reader;
mod reading;

ghost use Rattle.std.specs.Prelude.{◌≡◌};
ghost use Rattle.restart.specs.Restart.{Restarted, number_of, restarted};

use crate::reading::restored;
use pieces::put_each;
use table::WrongTable;

// How many commits are whole, and the table with the values after them; a wrong table stays as it is.
#[tactic(auto, using(table::proofs::Rows::checked_is, table::proofs::Rows::checked_not, table::proofs::Rows::right_long, crate::proofs::Outcome::refused, crate::proofs::Outcome::resumed))]
pub fn restart(table: &mut [u8], journal: &[u8]) -> Result<u32, WrongTable>
    ensures { Restarted.told (number_of result) table.new ≡ restarted table.old journal.now }
{
    let rows = table::check(table)?;
    let found = restored(rows, journal);
    put_each::<8, 16>(table, found.whole);
    Ok(found.commits)
}
