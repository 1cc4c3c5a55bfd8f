// An answer: 12 bytes.
#![tactic(auto)]

ghost use Rattle.std.specs.Prelude.{◌≡◌};
ghost use Rattle.wire.specs.Answers.{record_of, encode};

use wire::{Answer, Reason};
use words::four_bytes;

fn record(code: u8, desk: u8, item: u8, reason: u8, first: u32, second: u32) -> [u8; 12]
    ensures { result ≡ record_of code desk item reason first second }
{
    let [a, b, c, d] = four_bytes(first);
    let [e, f, g, h] = four_bytes(second);
    [code, desk, item, reason, a, b, c, d, e, f, g, h]
}

// The record of an answer to a request with this desk byte. A function and no From: it is made of two values.
// Its codes and reasons are the bytes that C reads.
#[tactic(auto, unfolding(wire::specs::Answers::encode))]
pub fn encode(desk: u8, a: Answer) -> [u8; 12]
    ensures { result ≡ encode desk a }
{
    match a {
        Answer::Refused(number) => record(0, desk, 0, number, 0, 0),
        Answer::Opened(age, start) => record(1, desk, 0, 0, age.0, start.0),
        Answer::Value(item, value) => record(2, desk, item, 0, value, 0),
        Answer::Stored(item) => record(3, desk, item, 0, 0, 0),
        Answer::Wait(item, holder) => record(4, desk, item, 0, holder as u32, 0),
        Answer::Committed(number) => record(5, desk, 0, 0, number.0, 0),
        Answer::Abandoned => record(6, desk, 0, 0, 0, 0),
        Answer::Aborted(why) => match why {
            Reason::Overwritten(item, number) => record(7, desk, item, 1, number.0, 0),
            Reason::TooOld(start) => record(7, desk, 0, 2, start.0, 0),
            Reason::Yield(item, holder) => record(7, desk, item, 3, holder as u32, 0),
        },
    }
}
