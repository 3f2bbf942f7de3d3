// A session: document 01, "The session text", and requests P4 and P12, over two joined devices. The input comes in pieces of any size: `begin`,
// `feed` for each piece, `finish`. Every call takes any number in any field, and none is refused: a refused line is
// answered in the text.
#![tactic(auto)]

ghost use Rattle.std.specs.Prelude.{◌≡◌, ◌+◌, ◌<◌, ◌≤◌, length, take};
ghost use Rattle.std.specs.Borrow.{sem};
ghost use Rattle.rows.specs.Text.{Put, Spoke, counts_text};
ghost use Rattle.ins2651_rules.specs.Refusals.{told};
ghost use Rattle.ins2651_rules.specs.RegisterReads;
ghost use Rattle.records.specs.Printed.{letter_of_unit};
ghost use Rattle.session_rules.specs.Calls;
ghost use Rattle.session_rules.specs.Bytes;
ghost use Rattle.session.specs.Lending.{LendsDevice};

use fields::Fields;
use ins2651_rules::Device;
use joined_rules::Pair;
use line_rules::Unit;
use records::Record;
use rows::Row;
use session_rules::{Refusal, Session, Shown};

// What a piece did: how many of its bytes were taken, how many bytes of text stand in the buffer.
#[derive(Clone, Copy, Debug, PartialEq, Eq)]
pub struct Fed {
    pub used: usize,
    pub at: usize,
}

// == calls ==

// The device of a unit.
fn end(pair: &mut Pair, unit: Unit) -> &mut Device
    ensures* lends { sem 𝓛 (LendsDevice pair.entry unit result) }
    ensures value { result.now ≡ Calls.device_of pair.old unit }
{
    match unit {
        Unit::A => &mut pair.a,
        Unit::B => &mut pair.b,
    }
}

// A read, and what it shows where it is done: of address 0 the stamp too, which it leaves in the device (P4).
#[tactic(auto, using(session_rules::proofs::Lines::shown_by_lem))]
fn read(pair: &mut Pair, unit: Unit, address: u8) -> Result<Shown, ins2651_rules::Refusal>
    ensures answer { result ≡ told (RegisterReads.read (Calls.device_of pair.old unit) address).refusal (Calls.shown (Calls.device_of pair.old unit) unit address) }
    ensures pair { pair.new ≡ (Calls.reading pair.old unit address).pair }
{
    let device = end(pair, unit);
    let value = ins2651::read(device, address)?;
    if address == 0 {
        let stamp = device.receiver.stamp;
        return Ok(Shown::Held { unit, value, stamp });
    }
    Ok(Shown::Value {
        unit,
        address,
        value,
    })
}

// What a record does to the pair, and what is said of its line.
#[tactic(auto, using(joined_rules::proofs::RunsRefused::run_done), unfolding(session_rules::specs::Calls::obey))]
fn obey(pair: &mut Pair, r: Record) -> Result<Option<Shown>, Refusal>
    ensures said { result ≡ (Calls.obey pair.old r).said }
    ensures pair { pair.new ≡ (Calls.obey pair.old r).pair }
{
    let shown = match r {
        Record::Write {
            unit,
            address,
            value,
        } => {
            ins2651::write(end(pair, unit), address, value)?;
            None
        }
        Record::Read { unit, address } => Some(read(pair, unit, address)?),
        Record::Pins {
            unit,
            dsr,
            dcd,
            cts,
        } => {
            ins2651::set_pins(end(pair, unit), dsr, dcd, cts)?;
            None
        }
        Record::Reset { unit } => {
            *end(pair, unit) = ins2651::reset();
            None
        }
        Record::Ticks { count } => {
            joined::run(pair, u32::from(count))?;
            None
        }
        Record::Wait { unit, limit } => {
            let count = joined::wait(pair, unit, limit)?;
            Some(Shown::Waited { unit, count })
        }
    };
    Ok(shown)
}

// A unit's letter. A `From<Unit> for u8` is no plainer, and would stand away from the text.
fn letter(unit: Unit) -> u8
    ensures { result ≡ letter_of_unit unit }
{
    match unit {
        Unit::A => b'A',
        Unit::B => b'B',
    }
}

// The output's line for what is shown. A `From<Shown> for Row` is no plainer, and would stand away from the text.
fn row_shown(shown: Shown) -> Row
    ensures { result ≡ Calls.row_shown shown }
{
    match shown {
        Shown::Value {
            unit,
            address,
            value,
        } => {
            let unit = letter(unit);
            Row::Value {
                unit,
                address,
                value,
            }
        }
        Shown::Held { unit, value, stamp } => {
            let unit = letter(unit);
            Row::Held { unit, value, stamp }
        }
        Shown::Waited { unit, count } => {
            let unit = letter(unit);
            Row::Waited { unit, count }
        }
    }
}

// The output's line for what is said.
fn row_of(line: u16, said: Result<Option<Shown>, Refusal>) -> Option<Row>
    ensures { result ≡ Calls.row_of line said }
{
    match said {
        Ok(shown) => shown.map(row_shown),
        Err(why) => {
            let refusal = u8::from(why);
            Some(Row::Refusal { line, refusal })
        }
    }
}

// == bytes ==

// A buffer and the place in it stay two arguments, as `rows::write` takes them: its contract may not change.
// `at + 32` asks for the room of one line (document 01), whichever it is.

// Both devices as after reset, and no line yet.
pub fn begin() -> Session
    ensures { result ≡ Bytes.fresh }
{
    Session {
        pair: Pair {
            a: ins2651::reset(),
            b: ins2651::reset(),
        },
        lines: 0,
        refusals: 0,
        length: 0,
        fields: Fields::empty(),
    }
}

// What the line under way does to the pair, and what is said of it.
#[tactic(auto, unfolding(session_rules::specs::Bytes::held_reply))]
fn reply(s: &mut Session) -> Result<Option<Shown>, Refusal>
    ensures said { result ≡ (Bytes.held_reply s.old).said }
    ensures pair { s.new ≡ record s.old { pair = (Bytes.held_reply s.old).pair } }
{
    if 64 < s.length {
        return Err(Refusal::Overlong);
    }
    let r = records::record_of(s.fields).ok_or(Refusal::Shapeless)?;
    obey(&mut s.pair, r)
}

// A newline: the line under way is taken. (Apart, so that the loop over the other bytes stays small.)
#[inline(never)]
#[tactic(auto, unfolding(session_rules::specs::Bytes::ended, session_rules::specs::Calls::said_text))]
fn ended(s: &mut Session, out: &mut [u8], at: usize) -> usize
    requires { (at + 32 ≤ length out.old) × (s.old.lines < 65535) }
    ensures session { s.new ≡ Bytes.ended s.old }
    ensures text { Put out.old at (Calls.said_text (s.old.lines + 1) (Bytes.held_reply s.old).said) out.new result }
{
    let said = reply(s);
    s.lines += 1;
    if said.is_err() {
        // these are never more than the lines
        s.refusals = s.refusals.wrapping_add(1);
    }
    s.length = 0;
    s.fields = Fields::empty();
    rows::write(out, at, row_of(s.lines, said))
}

// Another byte is of the line under way: a length of 65 says over 64.
#[tactic(auto, unfolding(session_rules::specs::Bytes::pushed))]
fn pushed(s: &mut Session, b: u8)
    ensures { s.new ≡ Bytes.pushed s.old b }
{
    s.fields.push(b);
    s.length = s.length.saturating_add(1).min(65);
}

// Takes a byte, and answers where its text ends. After the last line that is taken nothing is looked at.
#[inline(always)]
#[tactic(auto, using(rows::proofs::Puts::none_put), unfolding(session_rules::specs::Bytes::after, session_rules::specs::Bytes::said))]
fn step(s: &mut Session, b: u8, out: &mut [u8], at: usize) -> usize
    requires { at + 32 ≤ length out.old }
    ensures session { s.new ≡ Bytes.after s.old b }
    ensures text { Put out.old at (Bytes.said s.old b) out.new result }
{
    if s.lines >= 65535 {
        return at;
    }
    if b == b'\n' {
        return ended(s, out, at);
    }
    pushed(s, b);
    at
}

// Takes the bytes of a piece of the input, in turn, while 32 bytes are left for the text of each. The text stands at the
// start of the buffer.
pub fn feed(s: &mut Session, piece: &[u8], out: &mut [u8]) -> Fed
    ensures used_value { result.used ≡ Bytes.taken s.old piece.now (length out.old) }
    ensures session_value { s.new ≡ Bytes.after_all s.old (take result.used piece.now) }
    ensures spoke { Spoke out.old (Bytes.said_all s.old (take result.used piece.now)) out.new result.at }
{
    let mut at = 0;
    for (used, &b) in piece.iter().enumerate() {
        if out.len() - at < 32 {
            return Fed { used, at };
        }
        at = step(s, b, out, at);
    }
    Fed {
        used: piece.len(),
        at,
    }
}

// Ends the input: the text of its last line, where that lacks its newline, and the counts.
pub fn finish(s: &Session, out: &mut [u8; 64]) -> usize
    ensures { Spoke out.old (Bytes.last_said s.now) out.new result }
{
    finish_in(*s, out)
}

fn finish_in(mut s: Session, out: &mut [u8]) -> usize
    requires { 64 ≤ length out.old }
    ensures { Spoke out.old (Bytes.last_said s) out.new result }
{
    if 0 < s.length {
        let at = step(&mut s, b'\n', out, 0);
        return counts(&s, out, at);
    }
    counts(&s, out, 0)
}

#[tactic(auto, using(rows::proofs::Puts::written), unfolding(rows::specs::Text::row_text))]
fn counts(s: &Session, out: &mut [u8], at: usize) -> usize
    requires { at + 32 ≤ length out.old }
    ensures { Put out.old at (counts_text s.now.lines s.now.refusals) out.new result }
{
    let row = Row::Counts {
        lines: s.lines,
        refusals: s.refusals,
    };
    rows::write(out, at, Some(row))
}
