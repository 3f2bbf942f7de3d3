// Lines of a session's output: document 01, "The session text", request P4's read of address 0 and request P12's wait. Fields are parted by one
// tab, and numbers are decimal without leading zeros.
#![tactic(auto)]

ghost use Rattle.std.specs.Prelude.{◌≡◌, ◌∷◌, ◌+◌, ◌≤◌, ◌<◌, leb, length, Some};
ghost use Rattle.rows.specs.Text;
ghost use Rattle.rows.specs.Text.{Put};

use itoa::Buffer;
use line_rules::RxC;

// A line of the output: R with unit, address and value, R with unit, address 0, value and the receive tally of its arrival
// (request P4), B with unit and count (request P12), E with line number and refusal, N with lines and refusals.
// A unit is a letter and no `Unit`: `write` takes any byte there.
// No `Display`: a unit may be any byte, and a byte of what a `Display` writes may not.
#[derive(Clone, Copy)]
pub enum Row {
    Value { unit: u8, address: u8, value: u8 },
    Held { unit: u8, value: u8, stamp: RxC },
    Waited { unit: u8, count: u16 },
    Refusal { line: u16, refusal: u8 },
    Counts { lines: u16, refusals: u16 },
}

// A buffer and a place in it, and no struct of both: `write`, which is public, is given them and answers the place alone.
// `at + 32` asks for the room of one line (document 01), whichever it is.

// Stores a piece of text at a place. It answers the place behind, as do all that write.
// Inlined, a piece of fixed length takes no call: a line of numbers takes a third of the time.
#[inline(always)]
#[tactic(auto, using(crate::proofs::Puts::copied))]
fn store(out: &mut [u8], at: usize, text: &[u8]) -> usize
    requires { at + length text.now ≤ length out.old }
    ensures { Put out.old at text.now out.new result }
{
    let end = at + text.len();
    out[at..end].copy_from_slice(text);
    end
}

// The last digit of a number ..
#[inline(always)]
fn glyph(n: u32) -> u8
    ensures { result ≡ Text.glyph n }
{
    b'0' + (n % 10) as u8
}

// .. and the last three.
#[inline(always)]
fn three(out: &mut [u8], at: usize, n: u32) -> usize
    requires { at + 3 ≤ length out.old }
    ensures { Put out.old at (Text.three n) out.new result }
{
    store(out, at, &[glyph(n / 100), glyph(n / 10), glyph(n)])
}

#[inline(always)]
#[tactic(auto, using(crate::proofs::Decimals::decimal_one, crate::proofs::Decimals::decimal_two, crate::proofs::Decimals::decimal_three))]
fn below_1000(out: &mut [u8], at: usize, n: u32) -> usize
    requires { (at + length (Text.decimal n) ≤ length out.old) × (n < 1000) }
    ensures { Put out.old at (Text.decimal n) out.new result }
{
    if n < 10 {
        return store(out, at, &[glyph(n)]);
    }
    if n < 100 {
        return store(out, at, &[glyph(n / 10), glyph(n)]);
    }
    three(out, at, n)
}

#[inline(always)]
#[tactic(auto, using(crate::proofs::Threes::room_before, crate::proofs::Threes::room_for_three))]
fn below_1000000(out: &mut [u8], at: usize, n: u32) -> usize
    requires { (at + length (Text.decimal n) ≤ length out.old) × (n < 1000000) }
    ensures { Put out.old at (Text.decimal n) out.new result }
{
    if n < 1000 {
        return below_1000(out, at, n);
    }
    let e = below_1000(out, at, n / 1000);
    three(out, e, n)
}

// A number as the library prints it, from a buffer of its own. (Not inlined: each row would hold it, and few numbers need it.)
#[inline(never)]
fn printed(out: &mut [u8], at: usize, n: u32) -> usize
    requires { at + length (Text.decimal n) ≤ length out.old }
    ensures { Put out.old at (Text.decimal n) out.new result }
{
    let mut digits = Buffer::new();
    store(out, at, digits.format(n).as_bytes())
}

// Three digits at a time, and by the library where there are ten: by its buffer a row of fewer takes 1.3 to 2.7 times as long.
#[inline(always)]
#[tactic(auto, using(crate::proofs::Threes::room_before, crate::proofs::Threes::room_for_three))]
fn decimal(out: &mut [u8], at: usize, n: u32) -> usize
    requires { at + length (Text.decimal n) ≤ length out.old }
    ensures { Put out.old at (Text.decimal n) out.new result }
{
    if n < 1000000 {
        return below_1000000(out, at, n);
    }
    if n < 1000000000 {
        let e = below_1000000(out, at, n / 1000);
        return three(out, e, n);
    }
    printed(out, at, n)
}

// A number behind its tab.
#[inline(always)]
#[tactic(auto, using(crate::proofs::Puts::behind))]
fn field(out: &mut [u8], at: usize, n: u32) -> usize
    requires { at + length (9 ∷ Text.decimal n) ≤ length out.old }
    ensures { Put out.old at (9 ∷ Text.decimal n) out.new result }
{
    let e = store(out, at, b"\t");
    decimal(out, e, n)
}

// A line: what it begins with, its numbers, and the newline.
#[inline(always)]
fn line(out: &mut [u8], at: usize, head: &[u8], numbers: &[u32]) -> usize
    requires { at + length (Text.line head.now numbers.now) ≤ length out.old }
    ensures { Put out.old at (Text.line head.now numbers.now) out.new result }
{
    let mut e = store(out, at, head);
    for n in numbers {
        e = field(out, e, *n);
    }
    store(out, e, b"\n")
}

fn say(out: &mut [u8], at: usize, row: Row) -> usize
    requires { at + 32 ≤ length out.old }
    ensures { Put out.old at (Text.row_text (Some row)) out.new result }
{
    match row {
        Row::Value {
            unit,
            address,
            value,
        } => line(
            out,
            at,
            &[b'R', b'\t', unit],
            &[address.into(), value.into()],
        ),
        Row::Held { unit, value, stamp } => line(
            out,
            at,
            &[b'R', b'\t', unit, b'\t', b'0'],
            &[value.into(), stamp.0],
        ),
        Row::Waited { unit, count } => line(out, at, &[b'B', b'\t', unit], &[count.into()]),
        Row::Refusal {
            line: taken,
            refusal,
        } => line(out, at, b"E", &[taken.into(), refusal.into()]),
        Row::Counts { lines, refusals } => line(out, at, b"N", &[lines.into(), refusals.into()]),
    }
}

// Whether 32 bytes are left behind a place, as no line has more.
fn has_room(size: usize, at: usize) -> bool
    ensures { result ≡ leb (at + 32) size }
{
    at <= size && 32 <= size - at
}

// Writes a line, where there is one, at a place of the buffer where 32 bytes are left for it, and else nothing. It answers the place behind.
pub fn write(out: &mut [u8], at: usize, row: Option<Row>) -> usize
    ensures { Put out.old at (Text.where_room out.old at (Text.row_text row)) out.new result }
{
    match row {
        Some(row) if has_room(out.len(), at) => say(out, at, row),
        _ => at,
    }
}
