// A whole run's refusals, in their order.
#![tactic(auto)]

ghost use Rattle.std.specs.Prelude.{◌≡◌, ◌≤◌, IfOk, Ok, Err, pos, neg_ℤ};
ghost use Rattle.std.specs.Result.{result_map_both};
ghost use Rattle.lent.specs.declared.RunRefusal.TheVariants.{WrongTable};
ghost use Rattle.wire.specs.Checks.{unless};
ghost use Rattle.lent.specs.Refusals.{number_of, as_number, refusal};

use std::error::Error;
use std::fmt;
use table::check;

// Why a whole run is refused: the opening table is wrong, the requests' bytes are no whole number of 8, a buffer has too little room, or there
// are more than 4,096 requests.
#[derive(Clone, Copy, Debug, PartialEq, Eq)]
pub enum RunRefusal {
    WrongTable = 10,
    RequestsLength = 11,
    AnswersLength = 12,
    ValuesLength = 13,
    TooManyRequests = 14,
}

impl RunRefusal {
    pub fn number(self) -> u8
        ensures { result ≡ number_of self }
    {
        self as u8
    }
}

// It is printed as its number.
impl fmt::Display for RunRefusal {
    fn fmt<W: fmt::Write>(&self, f: &mut fmt::Formatter<W>) -> fmt::Result {
        write!(f, "{}", self.number())
    }
}

impl Error for RunRefusal {}

impl From<table::WrongTable> for RunRefusal {
    ghost from_gives = { λ _ r. r ≡ WrongTable };

    fn from(_wrong: table::WrongTable) -> RunRefusal {
        RunRefusal::WrongTable
    }
}

// C lends the table and the buffers apart, so their lengths come one by one.
// The table's rows, where a run on it with these lengths is not refused.
#[tactic(auto, using(table::proofs::Rows::checked_is, std::proofs::lemmas::Bool::Decides::nat_tests), unfolding(crate::specs::Refusals::refusal))]
pub fn accept(
    table: &[u8],
    requests: usize,
    answers: usize,
    values: usize,
) -> Result<&[u8; 1024], RunRefusal>
    ensures { result_map_both (λ rows. rows.now) (λ r. r) result ≡ unless (refusal table.now requests answers values) Err (Ok table.now) }
{
    let rows = check(table)?;
    if requests % 8 != 0 {
        return Err(RunRefusal::RequestsLength);
    }
    let count = requests / 8;
    if count > 4096 {
        return Err(RunRefusal::TooManyRequests);
    }
    if answers < 12 * count {
        return Err(RunRefusal::AnswersLength);
    }
    if values < 256 {
        return Err(RunRefusal::ValuesLength);
    }
    Ok(rows)
}

// Minus a number.
pub fn minus(n: u8) -> i64
    ensures { result ≡ neg_ℤ (pos n) }
{
    -i64::from(n)
}

// To C a refusal is minus its number.
impl From<RunRefusal> for i64 {
    ghost from_gives = { λ r number. number ≡ as_number (Err r) };

    fn from(refusal: RunRefusal) -> i64 {
        minus(refusal.number())
    }
}

// What C is told of a run: the count of its answers, or minus the number of its refusal.
pub fn as_number(ran: Result<usize, RunRefusal>) -> i64
    requires { IfOk ran (λ count. count ≤ 4096) }
    ensures { result ≡ as_number ran }
{
    match ran {
        Ok(count) => count as i64,
        Err(refusal) => refusal.into(),
    }
}
