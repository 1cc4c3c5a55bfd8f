// The board of an opening table.
#![tactic(auto)]

ghost use Rattle.std.specs.Prelude.{◌≡◌, ◌+◌, ◌*◌, ◌≤◌, eqb};
ghost use Rattle.words.specs.Bytes.{word_at};
ghost use Rattle.table.specs.Table.{kind_at};
ghost use Rattle.board.specs.Opening.{column, gathered, opening};

use board::Board;
use counters::{Age, Number};
use desks::Desk;
use items::Items;
use places::Item;
use std::array;
use words::number_at;

// The numbers that stand at byte `at` of each row.
fn column(table: &[u8; 1024], at: usize) -> [u32; 64]
    requires { at ≤ 12 }
    ensures { result ≡ column (λ i. word_at table.now (16 * i + at)) }
{
    array::from_fn(|i| number_at(table, 16 * i + at))
}

// The items whose kind, the byte that C writes, is 1.
#[tactic(auto, unfolding(board::specs::Opening::gathered))]
fn guarded(table: &[u8; 1024]) -> Items
    ensures { result ≡ gathered (λ i. eqb (kind_at table.now i) 1) 64 }
{
    let mut set = Items::NONE;
    for i in 0..64 {
        if table[16 * i + 12] == 1 {
            set = set.with(Item::at(i));
        }
    }
    set
}

// Nothing is given yet, nothing written, and every desk is idle and keeps no age.
#[tactic(auto, unfolding(board::specs::Opening::opening))]
pub fn opening(table: &[u8; 1024]) -> Board
    ensures { result ≡ opening table.now }
{
    Board {
        values: column(table, 8),
        floors: column(table, 0),
        ceilings: column(table, 4),
        guarded: guarded(table),
        age: Age::ZERO,
        number: Number::ZERO,
        sets: [Items::NONE; 16],
        desks: [Desk::idle(Age::ZERO); 16],
    }
}
