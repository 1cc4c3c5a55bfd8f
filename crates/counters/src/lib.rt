// Ages and transaction numbers: two counters, never compared with each other.
// So they are two types, each with its zero and its next one, and not one generic counter that could be handed over for the other.
// The bound 2,000 is required where it is needed, and is no invariant of the types: C lends a board whose counters may be any.
// Both begin at 0, the first one given is 1, and the hub gives no age above 2,000 and so no number above it.
#![tactic(auto)]

ghost use Rattle.std.specs.Prelude.{◌≡◌, ◌+◌, ◌-◌, ◌≤◌, ◌<◌, ◌%◌, ltb};
ghost use Rattle.counters.specs.Counters.{next_age, next_number, later_number};

// A transaction's age: the lower, the older.
#[repr(C)]
#[derive(Clone, Copy, PartialEq, Eq, PartialOrd, Ord)]
pub struct Age(pub u32);

impl Age {
    pub const ZERO: Age = Age(0);

    // The last one that the hub gives.
    pub const LAST: Age = Age(2000);

    // The age given after this one.
    pub fn next(self) -> Age
        requires { self.0 < 2000 }
        ensures { result ≡ next_age self }
    {
        Age(self.0 + 1)
    }

    // This age is below the other: it is older.
    pub fn below(self, other: Age) -> bool
        ensures { result ≡ ltb self.0 other.0 }
    {
        self < other
    }
}

// A transaction's number, in the order of commits.
#[repr(C)]
#[derive(Clone, Copy)]
pub struct Number(pub u32);

impl Number {
    pub const ZERO: Number = Number(0);

    // The number given after this one.
    pub fn next(self) -> Number
        requires { self.0 < 2000 }
        ensures { result ≡ next_number self }
    {
        Number(self.0 + 1)
    }

    // The number that is given after `count` others.
    pub fn later(self, count: u32) -> Number
        requires { self.0 + count < 2000 }
        ensures { result ≡ later_number self count }
    {
        Number(self.0 + 1 + count)
    }

    // How many numbers were given after `start`.
    pub fn since(self, start: Number) -> u32
        requires { start.0 ≤ self.0 }
        ensures { result ≡ self.0 - start.0 }
    {
        self.0 - start.0
    }

    // The place of its write set among the sixteen that are kept.
    pub fn place(self) -> usize
        ensures { result ≡ self.0 % 16 }
    {
        (self.0 % 16) as usize
    }
}
