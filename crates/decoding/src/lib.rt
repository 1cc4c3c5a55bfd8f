// A request: 8 bytes.
#![tactic(auto)]

ghost use Rattle.std.specs.Prelude.{◌≡◌};
ghost use Rattle.wire.specs.Requests.{request_in, unused_zero, value_in, checked, decode, desk_or, value_of};

use places::Seat;
use wire::{Refusal, Request};
use words::number;

// The request of a kind, if it is one of the five.
#[tactic(auto, unfolding(wire::specs::Requests::request_of))]
fn request_of(kind: u8, item: u8, value: u32) -> Option<Request>
    ensures { result ≡ request_in kind item value }
{
    match kind {
        1 => Some(Request::Begin),
        2 => Some(Request::Read(item)),
        3 => Some(Request::Write(item, value)),
        4 => Some(Request::End),
        5 => Some(Request::Abandon),
        _ => None,
    }
}

// The fields that the kind does not use are zero: the item but of a read or a write, the value but of a write, byte 3 always.
// The kind stays the record's byte: the rule `unused_zero` (wire, specs/Requests) is about bytes, as they come.
#[tactic(auto, unfolding(wire::specs::Requests::unused_zero))]
fn unused_zero(kind: u8, item: u8, spare: u8, value: u32) -> bool
    ensures { result ≡ unused_zero kind item spare value }
{
    spare == 0 && (kind == 2 || kind == 3 || item == 0) && (kind == 3 || value == 0)
}

// The value of a write; 0 of any other, as in the rule `value_in` (wire, specs/Requests).
fn value(request: Request) -> u32
    ensures { result ≡ value_in request }
{
    match request {
        Request::Write(_, value) => value,
        _ => 0,
    }
}

// Checks 1 to 3, in their order. A function and no TryFrom: a pair of a seat and a request is no type of this repository.
pub fn check(bytes: [u8; 8]) -> Result<(Seat, Request), Refusal>
    ensures { result ≡ checked bytes }
{
    let [kind, desk, item, spare, a, b, c, d] = bytes;
    let value = number(a, b, c, d);
    let Some(request) = request_of(kind, item, value) else {
        return Err(Refusal::NoSuchKind);
    };
    let Ok(seat) = Seat::try_from(desk) else {
        return Err(Refusal::NoSuchDesk);
    };
    if !unused_zero(kind, item, spare, value) {
        return Err(Refusal::UnusedNotZero);
    }
    Ok((seat, request))
}

// The same, with the refusal's number, as an answer tells it.
#[tactic(auto, unfolding(wire::specs::Requests::decode))]
pub fn decode(bytes: [u8; 8]) -> Result<(Seat, Request), u8>
    ensures { result ≡ decode bytes }
{
    match check(bytes) {
        Ok(asked) => Ok(asked),
        Err(refusal) => Err(u8::from(refusal)),
    }
}

// The desk that asks; where the record is malformed another, and no Option, since the rule `desk_of` puts desk 0 there (wire,
// specs/Requests).
pub fn desk_of<D: Copy>(asked: &Result<(D, Request), u8>, other: D) -> D
    ensures { result ≡ desk_or other asked.now }
{
    match asked {
        Ok((desk, _)) => *desk,
        Err(_) => other,
    }
}

// The value of a write; 0 of any other, as in the rule `value_of` (wire, specs/Requests).
pub fn value_of<D>(asked: &Result<(D, Request), u8>) -> u32
    ensures { result ≡ value_of asked.now }
{
    match asked {
        Ok((_, request)) => value(*request),
        Err(_) => 0,
    }
}
