// A desk's record. The rules of the locks between desks are in specs/, their code is locking.
#![tactic(auto)]

ghost use Rattle.std.specs.Prelude.{◌≡◌};
ghost use Rattle.desks.specs.Desks.{blank, opened, idle, is_open};

use counters::{Age, Number};
use items::Items;

// A desk's record: its open transaction, or all zero but for an age kept from an abort. It has no padding, so that it is copied whole,
// and any bytes are one, since C lends them (hub_open takes whatever stands there): so a number says what is open, and 0 is no age kept.
// Its copies stand for all items: there is no heap.
#[repr(C)]
#[derive(Clone, Copy)]
pub struct Desk {
    pub busy: u64, // 1 while a transaction is open, else 0
    pub age: Age,
    pub start: Number,
    pub read: Items,
    pub shared: Items,
    pub written: Items,
    pub copies: [u32; 64],
}

impl Desk {
    // Nothing read, held or written.
    fn blank(busy: u64, age: Age, start: Number) -> Desk
        ensures { result ≡ blank busy age start }
    {
        Desk {
            busy,
            age,
            start,
            read: Items::NONE,
            shared: Items::NONE,
            written: Items::NONE,
            copies: [0; 64],
        }
    }

    // A transaction just begun.
    pub fn opened(age: Age, start: Number) -> Desk
        ensures { result ≡ opened age start }
    {
        Desk::blank(1, age, start)
    }

    // A desk with nothing open, and the age that it keeps: 0 where it keeps none.
    pub fn idle(kept: Age) -> Desk
        ensures { result ≡ idle kept }
    {
        Desk::blank(0, kept, Number::ZERO)
    }

    // A transaction is open.
    pub fn is_open(&self) -> bool
        ensures { result ≡ is_open self.now }
    {
        self.busy != 0
    }
}
