// Places in rows of a fixed length: the sixty-four items, the sixteen desks.
#![tactic(auto)]

ghost use Rattle.std.specs.Prelude.{◌≡◌, ◌<◌};
ghost use Rattle.places.specs.Places.{place_in};

use std::marker::Model;

// One of N places, 0 to N - 1; a clause sees its number.
#[derive(Clone, Copy)]
pub struct Place<const N: usize> {
    number: usize,
}

impl<const N: usize> Model for Place<N> {
    ghost use Rattle.std.specs.Prelude.{ℕ, ◌<◌};

    ghost Value = { ℕ };

    ghost view = { λ place. place.number };

    ghost invariant = { λ place. place.number < N };

    ghost inverse = { λ n. record { number = n } };
}

// An item of the board.
pub type Item = Place<64>;

// A desk of the room.
pub type Seat = Place<16>;

// The row has no such place.
#[derive(Clone, Copy, Debug, PartialEq, Eq)]
pub struct NoSuchPlace;

impl<const N: usize> TryFrom<u8> for Place<N> {
    type Error = NoSuchPlace;

    ghost try_from_gives = { λ byte made. made ≡ place_in N byte };

    fn try_from(byte: u8) -> Result<Place<N>, NoSuchPlace> {
        let number = byte as usize;
        if number < N {
            return Ok(Place { number });
        }
        Err(NoSuchPlace)
    }
}

impl<const N: usize> Place<N> {
    // The place with this number.
    pub fn at(index: usize) -> Place<N>
        requires { index < N }
        ensures { result ≡ index }
    {
        Place { number: index }
    }

    // Its number.
    pub fn index(self) -> usize
        ensures same { result ≡ self.entry }
        ensures below { result < N }
    {
        self.number
    }
}
