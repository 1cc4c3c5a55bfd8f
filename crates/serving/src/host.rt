// What the exported calls over a host's board do.
ghost use Rattle.std.specs.Prelude.{◌≡◌};
ghost use Rattle.words.specs.Bytes.{byte};
ghost use Rattle.wire.specs.Answers.{encode};
ghost use Rattle.serving.specs.Run.{opened_of};

use crate::run::serve;
use crate::serves::Serves;
use board::Board;
use opening::opening;
use table::{WrongTable, check};

// The board of the table. With a journal another one is opened, and a buffer cleared (fresh).
#[tactic(auto, using(table::proofs::Rows::is_wrong, table::proofs::Rows::checked_is, table::proofs::Rows::checked_not), unfolding(crate::specs::Run::opened_of))]
pub fn open(table: &[u8]) -> Result<Board, WrongTable>
    ensures { result ≡ opened_of table.now }
{
    let rows = check(table)?;
    Ok(opening(rows))
}

// One request, and the bytes of its answer. It is a run of one request: so that the one place where a request is served is the loop of a run.
pub fn tell<B: Serves>(board: &mut B, request: [u8; 8]) -> [u8; 12]
    requires { B.Ready board.old }
    ensures { (board.new ≡ B.next board.old request) × (result ≡ encode (byte request 1) (B.reply board.old request)) }
{
    let mut bytes = [0u8; 12];
    serve(board, &request, &mut bytes);
    bytes
}
