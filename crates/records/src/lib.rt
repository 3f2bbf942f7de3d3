// The records of a session: document 01, "The session text", and request P12's wait. A line's fields make a record, or have no known shape.
#![tactic(auto)]

ghost use Rattle.std.specs.Prelude.{◌≡◌};
ghost use Rattle.records.specs.Records;

use fields::{Field, Fields};
use line_rules::Unit;

// A line's record.
#[derive(Clone, Copy, Debug, PartialEq, Eq)]
pub enum Record {
    Write {
        unit: Unit,
        address: u8,
        value: u8,
    },
    Read {
        unit: Unit,
        address: u8,
    },
    Pins {
        unit: Unit,
        dsr: u8,
        dcd: u8,
        cts: u8,
    },
    Reset {
        unit: Unit,
    },
    Ticks {
        count: u16,
    },
    Wait {
        unit: Unit,
        limit: u32,
    },
}

fn unit_of(f: Field) -> Option<Unit>
    ensures { result ≡ Records.unit_of f }
{
    match f.letter? {
        b'A' => Some(Unit::A),
        b'B' => Some(Unit::B),
        _ => None,
    }
}

// 1 to 5 digits, not above the limit.
fn up_to(limit: u32, f: Field) -> Option<u32>
    ensures { result ≡ Records.up_to limit f }
{
    f.number.filter(|&n| f.size <= 5 && n <= limit)
}

// `byte_of` and `count_of` are one line each over `up_to`: one of both, generic over the type, would be longer.
fn byte_of(f: Field) -> Option<u8>
    ensures { result ≡ Records.byte_of f }
{
    u8::try_from(up_to(255, f)?).ok()
}

fn count_of(f: Field) -> Option<u16>
    ensures { result ≡ Records.count_of f }
{
    u16::try_from(up_to(65535, f)?).ok()
}

// A limit has any five digits.
fn limit_of(f: Field) -> Option<u32>
    ensures { result ≡ Records.limit_of f }
{
    up_to(99999, f)
}

// Z unit; L count.
#[tactic(auto, unfolding(crate::specs::Records::two))]
fn two(k: Field, u: Field) -> Option<Record>
    ensures { result ≡ Records.two k u }
{
    match k.letter? {
        b'Z' => Some(Record::Reset { unit: unit_of(u)? }),
        b'L' => Some(Record::Ticks {
            count: count_of(u)?,
        }),
        _ => None,
    }
}

// R unit addr; B unit limit.
#[tactic(auto, unfolding(crate::specs::Records::three))]
fn three(k: Field, u: Field, n: Field) -> Option<Record>
    ensures { result ≡ Records.three k u n }
{
    match k.letter? {
        b'R' => Some(Record::Read {
            unit: unit_of(u)?,
            address: byte_of(n)?,
        }),
        b'B' => Some(Record::Wait {
            unit: unit_of(u)?,
            limit: limit_of(n)?,
        }),
        _ => None,
    }
}

// W unit addr value.
#[tactic(auto, unfolding(crate::specs::Records::four))]
fn four(k: Field, u: Field, a: Field, v: Field) -> Option<Record>
    ensures { result ≡ Records.four k u a v }
{
    match k.letter? {
        b'W' => Some(Record::Write {
            unit: unit_of(u)?,
            address: byte_of(a)?,
            value: byte_of(v)?,
        }),
        _ => None,
    }
}

// P unit dsr dcd cts.
#[tactic(auto, unfolding(crate::specs::Records::five))]
fn five(k: Field, u: Field, dsr: Field, dcd: Field, cts: Field) -> Option<Record>
    ensures { result ≡ Records.five k u dsr dcd cts }
{
    match k.letter? {
        b'P' => Some(Record::Pins {
            unit: unit_of(u)?,
            dsr: byte_of(dsr)?,
            dcd: byte_of(dcd)?,
            cts: byte_of(cts)?,
        }),
        _ => None,
    }
}

// The record of the line that these are the fields of.
#[tactic(auto, unfolding(crate::specs::Records::held_record))]
pub fn record_of(f: Fields) -> Option<Record>
    ensures { result ≡ Records.held_record f }
{
    let [k, u, a, b] = f.before;
    match f.count {
        1 => two(k, f.last),
        2 => three(k, u, f.last),
        3 => four(k, u, a, f.last),
        4 => five(k, u, a, b, f.last),
        _ => None,
    }
}
