// What a frame is on the line, and what arrives from it: document 01, "Sending" and "Receiving".
// Every call takes any number in any field: `line_rules` says what each answers, inside the range and outside.
#![tactic(auto)]

ghost use Rattle.std.specs.Prelude.{◌≡◌, suc, ◌+◌, ◌-◌, ◌*◌, ◌/◌, ◌%◌, ◌^◌, ◌<◌, ◌≤◌};
ghost use Rattle.line_rules.specs.Sending;
ghost use Rattle.line_rules.specs.Sending.{parity_bits, before_stop, frame_length, stop_sample, parity_bit, bit_at, parity_level, or_set};
ghost use Rattle.line_rules.specs.Clocks.{tx_later, rx_later};
ghost use Rattle.line_rules.specs.Range.{is_stop, in_range};
ghost use Rattle.line_rules.specs.Receiving;
ghost use Rattle.line_rules.specs.Receiving.{at_rest, after_mark, assembling, look_next, with_bit, start_look, parity_look, stop_look, look_at};

use line_rules::{Arrival, Format, Receiver, RxC, Sampled, TxC};

mod parity;

// A mark that is set where t is so, and otherwise stays as it is. (x may be any number, so that no `|` of the library does this.)
pub fn or_set(t: bool, x: u8) -> u8
    ensures { result ≡ or_set t x }
{
    if t { 1 } else { x }
}

// == the tallies (P4) ==

// A transmit tally k ticks later; it wraps. (Two functions, as the clocks are two types that are never mixed: a trait over both would have
// the same two bodies in two impls.)
pub fn tx_later(t: TxC, k: u16) -> TxC
    ensures { result ≡ tx_later k t }
{
    TxC(t.0.wrapping_add(u32::from(k)))
}

// A receive tally k ticks later; it wraps.
pub fn rx_later(t: RxC, k: u16) -> RxC
    ensures { result ≡ rx_later k t }
{
    RxC(t.0.wrapping_add(u32::from(k)))
}

// == formats ==

// Whether a format is one of document 01: no test is made behind the first that fails.
#[tactic(auto, unfolding(line_rules::specs::Range::in_range))]
pub fn in_range(f: Format) -> bool
    ensures { result ≡ in_range f }
{
    matches!(f.factor, 1 | 16 | 64)
        && (5..=8).contains(&f.length)
        && f.parity <= 1
        && f.even <= 1
        && is_stop(f)
}

// 1, 1½ or 2 bits.
fn is_stop(f: Format) -> bool
    ensures { result ≡ is_stop f }
{
    let one = u16::from(f.factor);
    let stop = u16::from(f.stop);
    stop == one || stop == one + u16::from(half(f)) || stop == 2 * one
}

// h: half a bit, rounded down.
pub fn half(f: Format) -> u8
    ensures { result ≡ Sending.half f }
{
    f.factor / 2
}

// p: 1 with parity, else 0.
pub fn parity_bits(f: Format) -> u16
    ensures { (result ≡ parity_bits f) × (result ≤ 1) }
{
    u16::from(0 < f.parity)
}

// F(1+n): the ticks before the parity.
fn before_parity(f: Format) -> u32
    ensures { result ≡ f.factor * suc f.length }
{
    u32::from(f.factor) * (u32::from(f.length) + 1)
}

// F(1+n+p): the ticks before the stop.
fn before_stop(f: Format) -> u32
    ensures { (result ≡ before_stop f) × (result ≤ 65535) }
{
    u32::from(f.factor) * (u32::from(f.length) + u32::from(parity_bits(f)) + 1)
}

// L: how many ticks a frame lasts.
pub fn frame_length(f: Format) -> u32
    ensures { result ≡ frame_length f }
{
    before_stop(f) + u32::from(f.stop)
}

// D: how many ticks after a start bit's first sample its stop sample is taken.
pub fn stop_sample(f: Format) -> u32
    ensures { result ≡ stop_sample f }
{
    u32::from(half(f)) + before_stop(f)
}

// The lowest k bits of a byte. (By a test: where `checked_shl` has no answer the byte itself is the answer, so a choice stays.)
#[tactic(auto, using(line_rules::proofs::Bytes::cut_whole))]
pub fn low_bits(c: u8, k: u16) -> u8
    ensures { result ≡ c % 2 ^ k }
{
    if 8 <= k {
        return c;
    }
    c % (1 << k)
}

// A byte without the bits that the length leaves no room for.
pub fn cut(f: Format, c: u8) -> u8
    ensures { result ≡ Sending.cut f c }
{
    low_bits(c, u16::from(f.length))
}

// The parity bit that goes with a byte.
#[tactic(auto, unfolding(line_rules::specs::Sending::parity_bit))]
pub fn parity_bit(f: Format, c: u8) -> bool
    ensures { result ≡ parity_bit f c }
{
    parity::odd(c) == (0 < f.even)
}

// Bit i of a byte: data bit i of a character.
#[tactic(auto, using(line_rules::proofs::Bytes::no_bit))]
fn bit_at(c: u8, i: u16) -> bool
    ensures { result ≡ bit_at c i }
{
    i < 8 && (c >> i) % 2 == 1
}

// The parity of the bits that are sent.
fn parity_level(f: Format, c: u8) -> bool
    ensures { result ≡ parity_level f c }
{
    parity_bit(f, cut(f, c))
}

// Which data bit a place behind the start is in, counted from 0: each lasts F ticks.
fn data_bit(f: Format, place: u16) -> u16
    requires { (0 < f.factor) × (f.factor ≤ place) }
    ensures { result ≡ (place - f.factor) / f.factor }
{
    let ticks = u16::from(f.factor);
    (place - ticks) / ticks
}

// The level of a frame of a character at any place ("Sending, by transmit ticks"): start 0, data, parity, stop 1.
pub fn level(f: Format, c: u8, place: u16) -> bool
    ensures { result ≡ Sending.level f c place }
{
    // A factor of 0 is out of range: by the definition, where `place / 0` is 0, every place is then in the start. The boundaries
    // alone, all 0, would answer the stop.
    let at = u32::from(place); // as wide as the boundaries
    let before_data = u32::from(f.factor);
    let start_never_ends = before_data == 0;
    if start_never_ends | (at < before_data) {
        return false;
    }
    if at < before_parity(f) {
        return bit_at(c, data_bit(f, place));
    }
    if at < before_stop(f) {
        return parity_level(f, c);
    }
    true
}

// == the receiver ==
// (f, r, x, now) stay four in `look_at`, `under` and `sample`: one each of what a look needs, which nothing else holds together.

// No character is under way.
fn at_rest(phase: u8) -> Receiver
    ensures { result ≡ at_rest phase }
{
    Receiver {
        phase,
        ..Receiver::default()
    }
}

// Waiting for a 1: as after a reset, a tick with receive off or a stop of 0.
pub fn waiting() -> Receiver
    ensures { result ≡ Receiving.waiting }
{
    at_rest(0)
}

// A 1 is the mark that starts a search.
fn after_mark(x: bool) -> Receiver
    ensures { result ≡ after_mark x }
{
    at_rest(u8::from(x))
}

// A 0 is found: a character is under way, whose look at the start comes h ticks on.
fn found(f: Format) -> Receiver
    ensures { result ≡ assembling (Sending.half f) 0 0 0 }
{
    Receiver {
        phase: 2,
        countdown: half(f),
        ..Receiver::default()
    }
}

// Nothing arrives.
fn quiet(r: Receiver) -> Sampled
    ensures { result ≡ Receiving.quiet r }
{
    Sampled {
        next: r,
        heard: None,
    }
}

// The ticks between two looks.
pub fn gap(f: Format) -> u8
    ensures { result ≡ f.factor - 1 }
{
    f.factor.saturating_sub(1)
}

// On to the next look, F ticks later, with the value and the fault so far.
fn look_next(f: Format, r: Receiver) -> Sampled
    ensures { result ≡ look_next f r.look r.value r.wrong }
{
    quiet(Receiver {
        phase: 2,
        countdown: gap(f),
        ..r
    })
}

// 2 to the i, in a byte.
#[tactic(auto, using(line_rules::proofs::Bytes::no_weight))]
fn weight(i: u16) -> u8
    ensures { result ≡ 2 ^ i % 256 }
{
    1u8.checked_shl(u32::from(i)).unwrap_or(0)
}

// A value with its data bit i.
pub fn with_bit(v: u8, i: u16, x: bool) -> u8
    ensures { result ≡ with_bit v i x }
{
    if x {
        return v.wrapping_add(weight(i));
    }
    v
}

// n + p + 1, the number of the look at the stop.
pub fn last_look(f: Format) -> u16
    ensures { (result ≡ suc (f.length + Sending.parity_bits f)) × (result ≤ 257) }
{
    u16::from(f.length) + parity_bits(f) + 1
}

// The start again: a 1 is a false start, and serves as the mark.
fn start_look(f: Format, x: bool) -> Sampled
    ensures { result ≡ start_look f x }
{
    if x {
        return quiet(after_mark(true));
    }
    look_next(
        f,
        Receiver {
            look: 1,
            ..Receiver::default()
        },
    )
}

// The parity, against the value so far.
fn parity_look(f: Format, r: Receiver, x: bool) -> Sampled
    requires { r.look ≤ 256 }
    ensures { result ≡ parity_look f (r.look + 1) r.value x }
{
    let wrong = x != parity_bit(f, r.value);
    look_next(
        f,
        Receiver {
            look: r.look + 1,
            wrong: u8::from(wrong),
            ..r
        },
    )
}

// The stop: the character arrives, stamped with the receive tally now. After a 0 the line must come back to 1 before the next search.
fn stop_look(r: Receiver, x: bool, now: RxC) -> Sampled
    ensures { result ≡ stop_look r.value r.wrong x now }
{
    Sampled {
        next: after_mark(x),
        heard: Some(Arrival {
            value: r.value,
            parity: 0 < r.wrong,
            framing: !x,
            stamp: now,
        }),
    }
}

// A look by its number: 0 at the start, then the data, the parity and the stop.
#[tactic(auto, using(line_rules::proofs::Branches::look_part, line_rules::proofs::Parts::part_data, line_rules::proofs::Parts::part_parity, line_rules::proofs::Parts::part_stop))]
fn look_at(f: Format, r: Receiver, x: bool, now: RxC) -> Sampled
    ensures { result ≡ look_at f r.look r.value r.wrong x now }
{
    if r.look == 0 {
        return start_look(f, x);
    }
    let i = r.look - 1;
    let n = u16::from(f.length);
    if i < n {
        return look_next(
            f,
            Receiver {
                look: r.look + 1,
                value: with_bit(r.value, i, x),
                ..r
            },
        );
    }
    if i < n + parity_bits(f) {
        return parity_look(f, r, x);
    }
    stop_look(r, x, now)
}

// A tick of a character under way: samples between looks are not looked at. (Inlined, as it has two callers: a run that goes tick by tick takes a sixth less.)
#[inline(always)]
fn under(f: Format, r: Receiver, x: bool, now: RxC) -> Sampled
    ensures { result ≡ Receiving.under f r.countdown r.look r.value r.wrong x now }
{
    if r.countdown == 0 {
        return look_at(f, r, x, now);
    }
    quiet(Receiver {
        phase: 2,
        countdown: r.countdown - 1,
        ..r
    })
}

// The receiver at one sample: what it leaves, and whether a character arrived with it. The receive tally counts this sample's tick.
#[tactic(auto, unfolding(line_rules::specs::Receiving::sample))]
pub fn sample(f: Format, r: Receiver, x: bool, now: RxC) -> Sampled
    ensures { result ≡ Receiving.sample f r x now }
{
    match r.phase {
        0 => quiet(after_mark(x)),
        1 if x => quiet(at_rest(1)),
        1 => under(f, found(f), false, now),
        _ => under(f, r, x, now),
    }
}
