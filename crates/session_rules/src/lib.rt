// A session by document 01, "The session text", and request P12: what is said of a line, and the session between two bytes. specs/ says what an input answers,
// proofs/ what that comes to; the calls themselves are `session`'s. No code stands here but that of the types, so that a wrong definition is refused without
// proving the calls again.
#![tactic(auto)]

ghost use Rattle.std.specs.Prelude.{◌≡◌};
ghost use Rattle.session_rules.specs.declared.Refusal.TheVariants as refusal;
ghost use Rattle.session_rules.specs.Calls;

use fields::Fields;
use joined_rules::{Pair, TooLong};
use line_rules::{RxC, Unit};

// Why a line is refused: by the chip's call or the pair's, for no known shape, or for more than 64 bytes.
#[derive(Clone, Copy, Debug, PartialEq, Eq)]
pub enum Refusal {
    Chip(ins2651_rules::Refusal),
    Line(TooLong),
    Shapeless,
    Overlong,
}

impl From<ins2651_rules::Refusal> for Refusal {
    ghost from_gives = { λ why line. line ≡ refusal.Chip why };

    fn from(why: ins2651_rules::Refusal) -> Refusal {
        Refusal::Chip(why)
    }
}

impl From<TooLong> for Refusal {
    ghost from_gives = { λ why line. line ≡ refusal.Line why };

    fn from(why: TooLong) -> Refusal {
        Refusal::Line(why)
    }
}

// Document 01's number.
impl From<Refusal> for u8 {
    ghost from_gives = { λ why n. n ≡ Calls.refusal_number why };

    fn from(why: Refusal) -> u8 {
        match why {
            Refusal::Chip(chip) => u8::from(chip),
            Refusal::Line(line) => u8::from(line),
            Refusal::Shapeless => 6,
            Refusal::Overlong => 7,
        }
    }
}

// What is shown of a line that is done: the value of a read, the value and the stamp of a read of address 0 (P4), or the count of a wait (P12).
#[derive(Clone, Copy)]
pub enum Shown {
    Value { unit: Unit, address: u8, value: u8 },
    Held { unit: Unit, value: u8, stamp: RxC },
    Waited { unit: Unit, count: u16 },
}

// A session between two bytes: the two devices, the lines taken and those of them refused, and the line under way: its
// length, where 65 says over 64, and its fields.
// The length stays a count that stops at 65: `longer` of specs/Bytes.antt says so, and no value is missing.
#[repr(C)]
#[derive(Clone, Copy)]
pub struct Session {
    pub pair: Pair,
    pub lines: u16,
    pub refusals: u16,
    pub length: u8,
    pub fields: Fields,
}
