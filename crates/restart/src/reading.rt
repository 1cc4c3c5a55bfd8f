// Reading a journal: record by record, up to the first that does not fit the form or the order.
ghost use Rattle.std.specs.Prelude.{◌≡◌, option_map};
ghost use Rattle.restart.specs.Restart.{going, as_if_going, still, fits_item, fits_closing, read, restored};

use crate::reader::Reader;
use opening::opening;
use records::room;
use words::{number, number_at};

// The kinds 1 and 2 are the bytes that records puts into a journal.
// Byte 0 is 1, the item is below 64 and above the one before it, the number follows the last one closed, and the value is within its limits.
#[tactic(auto, unfolding(crate::specs::Restart::fits_item))]
fn fits_item(table: &[u8; 1024], at: Reader, bytes: &[u8; 8]) -> bool
    ensures { result ≡ fits_item table.now (going at) bytes.now }
{
    let row = 16 * usize::from(bytes[1]);
    let value = number_at(bytes, 4);
    bytes[0] == 1
        && at.next <= bytes[1]
        && bytes[1] <= 63
        && number(bytes[2], bytes[3], 0, 0) == at.commits + 1
        && number_at(table, row) <= value
        && value <= number_at(table, row + 4)
}

// Byte 0 is 2, byte 1 is 0, the number follows the last one closed, and the count is that of the items read.
#[tactic(auto, unfolding(crate::specs::Restart::fits_closing))]
fn fits_closing(at: Reader, bytes: &[u8; 8]) -> bool
    ensures { result ≡ fits_closing (going at) bytes.now }
{
    bytes[0] == 2
        && bytes[1] == 0
        && number(bytes[2], bytes[3], 0, 0) == at.commits + 1
        && number_at(bytes, 4) == at.items
}

// One record more; none where it does not fit, and nothing after it is read. One local holds the reader, so that its two lists of values are
// copied no more than must be.
#[tactic(auto, using(crate::proofs::Fitting::fitting, crate::proofs::Fitting::closing), unfolding(crate::specs::Restart::read))]
fn read(table: &[u8; 1024], at: Reader, bytes: &[u8; 8]) -> Option<Reader>
    ensures { option_map going result ≡ still (read table.now (going at) bytes.now) }
{
    let mut after = at;
    if fits_item(table, at, bytes) {
        let item = bytes[1];
        after.values[usize::from(item)] = number_at(bytes, 4);
        after.items = at.items + 1;
        after.next = item + 1;
        return Some(after);
    }
    if fits_closing(at, bytes) {
        let values = at.values;
        after.whole = values;
        after.commits = at.commits + 1;
        after.items = 0;
        after.next = 0;
        return Some(after);
    }
    None
}

// All whole records of the journal, as far as it is used.
pub fn restored(table: &[u8; 1024], journal: &[u8]) -> Reader
    ensures { going result ≡ as_if_going (restored table.now journal.now) }
{
    let values = opening(table).values;
    let mut at = Reader {
        commits: 0,
        whole: values,
        items: 0,
        next: 0,
        values,
    };
    for bytes in journal[..room(journal.len())].as_chunks().0 {
        let Some(after) = read(table, at, bytes) else {
            return at;
        };
        at = after;
    }
    at
}
