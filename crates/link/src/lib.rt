// The two double-buffered halves that every chip has: document 01, "Sending" and "Receiving".
// Every call takes any number in any field: `link_rules` says what each answers, inside the range and outside.
#![tactic(auto)]

ghost use Rattle.std.specs.Prelude.{◌≡◌, ◌^◌, false, nat_eq, nat_lt};
ghost use Rattle.link_rules.specs.Parts.{idle_sender, loaded, unloaded, sender_later, started, idle_receiver, dropped, emptied, receiver_later};
ghost use Rattle.link_rules.specs.Transmitting;
ghost use Rattle.link_rules.specs.Transmitting.{next_place, frame_next, frame_tick, begin_tick, idle_tick, told};
ghost use Rattle.link_rules.specs.Hearing;
ghost use Rattle.link_rules.specs.Hearing.{under_way, character_format, stepped, holds};
ghost use Rattle.link_rules.specs.Within.{is_no_format, holding_in_range, busy_in_range, free_in_range, frame_in_range, sender_in_range, countdown_in_range, value_in_range, wrong_in_range, assembly_in_range, rest_in_range, receiver_in_range, sender_rests_in_range, receiver_rests_in_range};
ghost use Rattle.link_rules.specs.Within;

use line_rules::{Arrival, Format, Receiver, RxC};
use link_rules::{Frame, HeardTick, ReceiverHalf, SenderHalf, SentTick};

// == the sender ==
// (ready, broken) stay two parameters: `transmit`'s contract and its definition name the two.

// Nothing waits and nothing is under way.
pub fn idle_sender() -> SenderHalf
    ensures { result ≡ idle_sender }
{
    SenderHalf::default()
}

// A character is written: a waiting one is replaced.
pub fn load(s: &mut SenderHalf, v: u8)
    ensures { s.new ≡ loaded s.old v }
{
    s.holding = v;
    s.full = 1;
}

// Its tally k ticks on (P4). (`receiver_later` is apart, as the two clocks are.)
pub fn sender_later(s: &mut SenderHalf, k: u16)
    ensures { s.new ≡ sender_later k s.old }
{
    s.tally = line::tx_later(s.tally, k);
}

// The waiting character leaves, and its frame starts at the tick that the tally has just counted.
fn unload(s: &mut SenderHalf)
    ensures { s.new ≡ started (unloaded s.old) }
{
    s.holding = 0;
    s.full = 0;
    s.start = s.tally;
}

// The place that follows, and 0 after a frame's last.
pub fn next_place(f: Format, i: u16) -> u16
    ensures { result ≡ next_place f i }
{
    let k = i.wrapping_add(1);
    if u32::from(k) < line::frame_length(f) {
        return k;
    }
    0
}

// A frame goes on after the tick of its place, or ends: whether that was its last.
fn frame_on(g: &mut Frame) -> bool
    ensures frame { g.new ≡ frame_next g.old }
    ensures last { result ≡ nat_eq (next_place g.old.format g.old.place) 0 }
{
    let place = next_place(g.format, g.place);
    if 0 < place {
        g.place = place;
        return false;
    }
    *g = Frame::default();
    true
}

// A tick of the frame under way, behind its first.
fn frame_tick(s: &mut SenderHalf) -> SentTick
    ensures half { s.new ≡ (frame_tick s.old s.old.frame false).half }
    ensures told { result ≡ told (frame_tick s.old s.old.frame false) }
{
    let level = line::level(s.frame.format, s.frame.character, s.frame.place);
    let last = frame_on(&mut s.frame);
    SentTick {
        level,
        began: false,
        drained: last & (s.full == 0),
    }
}

// The waiting character begins its frame, with the start's level.
fn begin_tick(s: &mut SenderHalf, f: Format) -> SentTick
    ensures half { s.new ≡ (begin_tick s.old f).half }
    ensures told { result ≡ told (begin_tick s.old f) }
{
    s.frame = Frame {
        character: s.holding,
        format: f,
        place: 0,
    };
    unload(s);
    let last = frame_on(&mut s.frame);
    SentTick {
        level: false,
        began: true,
        drained: last,
    }
}

// No frame is under way: a level, and the guard after it.
fn idle_tick(s: &mut SenderHalf, level: bool, guard: u8) -> SentTick
    ensures half { s.new ≡ (idle_tick s.old level guard).half }
    ensures told { result ≡ told (idle_tick s.old level guard) }
{
    s.guard = guard;
    SentTick {
        level,
        began: false,
        drained: false,
    }
}

// What is sent at a tick that the tally has counted: a break sets the guard, and a mark lets it fall.
fn sending(s: &mut SenderHalf, ready: bool, broken: bool, f: Format) -> SentTick
    ensures half { s.new ≡ (Transmitting.sending s.old ready broken f).half }
    ensures told { result ≡ told (Transmitting.sending s.old ready broken f) }
{
    if 0 < s.frame.place {
        return frame_tick(s);
    }
    if ready & broken {
        return idle_tick(s, false, f.factor);
    }
    if 0 < s.guard {
        return idle_tick(s, true, s.guard - 1);
    }
    if ready & (0 < s.full) {
        return begin_tick(s, f);
    }
    idle_tick(s, true, 0)
}

// A transmit tick, told whether a frame or a break may start, whether break is on, and the format. Each one counts.
// Inlined, here and in `receive`: a run whose formats differ goes tick by tick, and takes a fifth longer by calls.
#[inline(always)]
#[tactic(auto, unfolding(link_rules::specs::Transmitting::transmit))]
pub fn transmit(s: &mut SenderHalf, ready: bool, broken: bool, f: Format) -> SentTick
    ensures half { s.new ≡ (Transmitting.transmit s.old ready broken f).half }
    ensures told { result ≡ told (Transmitting.transmit s.old ready broken f) }
{
    sender_later(s, 1);
    sending(s, ready, broken, f)
}

// == the receiver ==

// Nothing has come, and it waits for a 1; a read gives 0.
pub fn idle_receiver() -> ReceiverHalf
    ensures { result ≡ idle_receiver }
{
    ReceiverHalf::default()
}

// The character under way is dropped, and the receiver waits for a 1.
pub fn drop_character(r: &mut ReceiverHalf)
    ensures { r.new ≡ dropped r.old }
{
    r.state = line::waiting();
    r.format = Format::default();
}

// The holding register is read or emptied.
pub fn empty(r: &mut ReceiverHalf)
    ensures { r.new ≡ emptied r.old }
{
    r.unread = 0;
}

fn under_way(s: Receiver) -> bool
    ensures { result ≡ under_way s }
{
    1 < s.phase
}

// The format of a character is that of its tick 0.
fn character_format(r: &ReceiverHalf, f: Format) -> Format
    ensures { result ≡ character_format r.now f }
{
    if under_way(r.state) { r.format } else { f }
}

// After a sample that was read in the format g, which is kept while a character is under way.
fn step(r: &mut ReceiverHalf, g: Format, s: Receiver)
    ensures { r.new ≡ stepped r.old g s }
{
    r.state = s;
    r.format = if under_way(s) { g } else { Format::default() };
}

// Its tally k ticks on (P4).
pub fn receiver_later(r: &mut ReceiverHalf, k: u16)
    ensures { r.new ≡ receiver_later k r.old }
{
    r.tally = line::rx_later(r.tally, k);
}

fn hold(r: &mut ReceiverHalf, v: u8, stamp: RxC)
    ensures { r.new ≡ holds r.old v stamp }
{
    r.holding = v;
    r.unread = 1;
    r.stamp = stamp;
}

// What a sample brought enters the holding register, full or not.
fn brought(r: &mut ReceiverHalf, heard: Option<Arrival>) -> HeardTick
    ensures half { r.new ≡ (Hearing.brought r.old heard).half }
    ensures told { result ≡ Hearing.told (Hearing.brought r.old heard) }
{
    match heard {
        None => HeardTick {
            heard: None,
            overrun: false,
        },
        Some(a) => {
            let overrun = 0 < r.unread;
            hold(r, a.value, a.stamp);
            HeardTick {
                heard: Some(a),
                overrun,
            }
        }
    }
}

fn hear(r: &mut ReceiverHalf, g: Format, x: bool) -> HeardTick
    ensures half { r.new ≡ (Hearing.hear r.old g x).half }
    ensures told { result ≡ Hearing.told (Hearing.hear r.old g x) }
{
    let o = line::sample(g, r.state, x, r.tally);
    step(r, g, o.next);
    brought(r, o.heard)
}

// What is heard at a tick that the tally has counted.
fn hearing(r: &mut ReceiverHalf, live: bool, f: Format, x: bool) -> HeardTick
    ensures half { r.new ≡ (Hearing.hearing r.old live f x).half }
    ensures told { result ≡ Hearing.told (Hearing.hearing r.old live f x) }
{
    if live {
        let g = character_format(r, f);
        return hear(r, g, x);
    }
    drop_character(r);
    HeardTick {
        heard: None,
        overrun: false,
    }
}

// A receive tick, told whether receive is on, the format and the level. Each one counts.
#[inline(always)]
#[tactic(auto, unfolding(link_rules::specs::Hearing::receive))]
pub fn receive(r: &mut ReceiverHalf, live: bool, f: Format, x: bool) -> HeardTick
    ensures half { r.new ≡ (Hearing.receive r.old live f x).half }
    ensures told { result ≡ Hearing.told (Hearing.receive r.old live f x) }
{
    receiver_later(r, 1);
    hearing(r, live, f, x)
}

// == the ranges ==

// The format of nothing: all 0.
fn is_no_format(f: Format) -> bool
    ensures { result ≡ is_no_format f }
{
    f == Format::default()
}

fn holding_in_range(full: u8, c: u8) -> bool
    ensures { result ≡ holding_in_range full c }
{
    full == 1 || (full == 0 && c == 0)
}

fn busy_in_range(s: SenderHalf) -> bool
    ensures { result ≡ busy_in_range s.frame s.guard }
{
    let f = s.frame.format;
    line::in_range(f) && u32::from(s.frame.place) < line::frame_length(f) && s.guard == 0
}

fn free_in_range(s: SenderHalf) -> bool
    ensures { result ≡ free_in_range s.frame s.guard }
{
    s.frame.character == 0 && is_no_format(s.frame.format) && s.guard <= 64
}

fn frame_in_range(s: SenderHalf) -> bool
    ensures { result ≡ frame_in_range s.frame s.guard }
{
    if 0 < s.frame.place {
        return busy_in_range(s);
    }
    free_in_range(s)
}

// Whether a sending half is one of document 01.
#[tactic(auto, unfolding(link_rules::specs::Within::sender_in_range))]
pub fn sender_in_range(s: SenderHalf) -> bool
    ensures { result ≡ sender_in_range s }
{
    holding_in_range(s.full, s.holding) && frame_in_range(s)
}

// Whether a byte has k bits at most. (By a test: `checked_shl` has no answer where every byte has, so `is_none_or` is no plainer.)
#[tactic(auto, using(crate::proofs::Branches::byte_below))]
fn has_bits(v: u8, k: u16) -> bool
    ensures { result ≡ nat_lt v (2 ^ k) }
{
    if k < 8 {
        return v < (1 << k);
    }
    true
}

fn countdown_in_range(f: Format, s: Receiver) -> bool
    ensures { result ≡ countdown_in_range f s.look s.countdown }
{
    if s.look == 0 {
        return s.countdown < line::half(f);
    }
    s.countdown < f.factor
}

fn value_in_range(f: Format, s: Receiver) -> bool
    ensures { result ≡ value_in_range f s.look s.value }
{
    has_bits(s.value, s.look.saturating_sub(1)) & has_bits(s.value, u16::from(f.length))
}

fn wrong_in_range(f: Format, s: Receiver) -> bool
    ensures { result ≡ wrong_in_range f s.look s.wrong }
{
    let judged = (0 < f.parity) & (s.look == u16::from(f.length) + 2);
    if judged {
        return s.wrong <= 1;
    }
    s.wrong == 0
}

fn assembly_in_range(f: Format, s: Receiver) -> bool
    ensures { result ≡ assembly_in_range f s }
{
    s.phase == 2
        && s.look <= line::last_look(f)
        && countdown_in_range(f, s)
        && value_in_range(f, s)
        && wrong_in_range(f, s)
}

// Nothing of a character stands in the receiver.
fn rest_in_range(s: Receiver) -> bool
    ensures { result ≡ rest_in_range s }
{
    s == Receiver {
        phase: s.phase,
        ..Receiver::default()
    }
}

// No character is under way.
pub fn clear(r: ReceiverHalf) -> bool
    ensures { result ≡ Within.clear r }
{
    is_no_format(r.format) & rest_in_range(r.state)
}

// Whether a sending half with no frame under way is one of document 01.
pub fn sender_rests_in_range(s: SenderHalf) -> bool
    ensures { result ≡ sender_rests_in_range s }
{
    holding_in_range(s.full, s.holding) & free_in_range(s)
}

// Whether a receiving half with no character under way is.
pub fn receiver_rests_in_range(r: ReceiverHalf) -> bool
    ensures { result ≡ receiver_rests_in_range r }
{
    (r.unread <= 1) & clear(r)
}

// Whether the receiver of a half and its format are those of document 01.
fn state_in_range(r: ReceiverHalf) -> bool
    ensures { result ≡ Within.state_in_range r.format r.state }
{
    if under_way(r.state) {
        return line::in_range(r.format) && assembly_in_range(r.format, r.state);
    }
    clear(r)
}

// Whether a receiving half is one of document 01.
#[tactic(auto, unfolding(link_rules::specs::Within::receiver_in_range))]
pub fn receiver_in_range(r: ReceiverHalf) -> bool
    ensures { result ≡ receiver_in_range r }
{
    (r.unread <= 1) & state_in_range(r)
}
