// A commit's records in the journal: one of 8 bytes for each item written, ascending, and then the closing record.
#![tactic(auto)]

ghost use Rattle.std.specs.Prelude.{◌≡◌, ◌+◌, ◌≤◌, ◌<◌, length};
ghost use Rattle.pieces.specs.Pieces.{in_one};
ghost use Rattle.records.specs.Records.{room, record_of, size_of, item_record, records_of, over};

use counters::Number;
use desks::Desk;
use items::Items;
use pieces::put;
use places::Item;

// The kind is a number, 1 or 2: a host keeps these bytes.
// A record: byte 0 the kind, byte 1 the item, bytes 2 and 3 the number, bytes 4 to 7 the value.
fn record(kind: u8, item: u8, number: Number, value: u32) -> [u8; 8]
    ensures { result ≡ record_of kind item number.0 value }
{
    let [low, high, _, _] = number.0.to_le_bytes();
    let [first, second, third, fourth] = value.to_le_bytes();
    [kind, item, low, high, first, second, third, fourth]
}

// How many bytes the records of a commit take that wrote these items.
#[tactic(auto, using(crate::proofs::Sizes::count_below_lem))]
pub fn size(written: Items) -> usize
    ensures { result ≡ size_of written }
{
    8 * written.len() + 8
}

// How much of a journal of this length is used: bytes past the first 65,536 are neither read nor written.
pub fn room(length: usize) -> usize
    ensures { result ≡ room length }
{
    length.min(65536)
}

// Puts the record of item i into the journal, from index at on, if it was written; the index after it.
fn put_item(
    journal: &mut [u8],
    at: usize,
    written: Items,
    i: Item,
    number: Number,
    value: u32,
) -> usize
    requires { at + 8 ≤ length journal.old }
    ensures value { result ≡ at + length (in_one (item_record written i number.0 value)) }
    ensures journal_after { journal.new ≡ over journal.old at (in_one (item_record written i number.0 value)) }
{
    if !written.has(i) {
        return at;
    }
    let bytes = record(1, i.index() as u8, number, value);
    put(journal, at, &bytes);
    at + 8
}

// Puts the records of a commit of the desk's copies into the journal, from index at on; the index after them.
#[tactic(auto, using(crate::proofs::Sizes::count_most, crate::proofs::Sizes::count_below_lem))]
pub fn append(journal: &mut [u8], at: usize, k: Desk, number: Number) -> usize
    requires { at + size_of k.written ≤ length journal.old }
    ensures value { result ≡ at + length (records_of k number) }
    ensures journal_after { journal.new ≡ over journal.old at (records_of k number) }
{
    let mut next = at;
    for (i, value) in k.copies.iter().enumerate() {
        next = put_item(journal, next, k.written, Item::at(i), number, *value);
    }
    let count = (next - at) / 8;
    let bytes = record(2, 0, number, count as u32);
    put(journal, next, &bytes);
    next + 8
}
