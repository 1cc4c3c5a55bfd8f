// The opening table: 64 rows of 16 bytes.
#![tactic(auto)]

ghost use Rattle.std.specs.Prelude.{◌≡◌, ◌<◌};
ghost use Rattle.std.specs.Result.{result_map_both};
ghost use Rattle.table.specs.Table.{row_right, wrong, checked};

use words::number_at;

// The table is not 1,024 bytes long, or some row is not right.
#[derive(Clone, Copy, Debug, PartialEq, Eq)]
pub struct WrongTable;

// The kind stays the byte that C writes; a row is found by its index, since the rule `row_right` speaks of places in the whole table.
// Floor ≤ value ≤ ceiling, the kind is 0 or 1, and the last three bytes are zero.
#[tactic(auto, unfolding(crate::specs::Table::row_right))]
fn row_right(table: &[u8; 1024], i: usize) -> bool
    requires { i < 64 }
    ensures { result ≡ row_right table.now i }
{
    let at = 16 * i;
    let value = number_at(table, at + 8);
    number_at(table, at) <= value
        && value <= number_at(table, at + 4)
        && table[at + 12] <= 1
        && table[at + 13] == 0
        && table[at + 14] == 0
        && table[at + 15] == 0
}

// The table is not 1,024 bytes long, or some row is not right.
pub fn wrong(table: &[u8]) -> bool
    ensures { result ≡ wrong table.now }
{
    let Some(rows) = table.as_array::<1024>() else {
        return true;
    };
    for i in 0..64 {
        if !row_right(rows, i) {
            return true;
        }
    }
    false
}

// The rows of a table that is not wrong.
#[tactic(auto, using(crate::proofs::Rows::right_long), unfolding(crate::specs::Table::checked))]
pub fn check(table: &[u8]) -> Result<&[u8; 1024], WrongTable>
    ensures { result_map_both (λ rows. rows.now) (λ e. e) result ≡ checked table.now }
{
    if wrong(table) {
        return Err(WrongTable);
    }
    table.as_array().ok_or(WrongTable)
}
