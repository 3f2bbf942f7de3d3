// One way of a line: a sending half, the receiving half at the other end, and the flags that they set; and many ticks of it at once where they
// only count. Document 01, "Sending" and "Receiving", by joined ticks.
// Every call takes any number in any field: `way_rules` says what each answers, inside the range and outside.
#![tactic(auto)]

ghost use Rattle.std.specs.Prelude.{◌≡◌, ◌+◌, ◌-◌, ◌*◌, ◌<◌, ◌≤◌, if◌then◌else◌, nat_eq};
ghost use Rattle.line_rules.specs.Sending.{bit, half, level};
ghost use Rattle.way_rules.specs.Along;
ghost use Rattle.way_rules.specs.Along.{sent, received, sent_by, heard_by, way_tick, way_ticks};
ghost use Rattle.way_rules.specs.Calm;
ghost use Rattle.way_rules.specs.Until.{unread, done_until};
ghost use Rattle.way_rules.specs.Leap.{so_far, in_step, fly_at, leap_ticks, looks_ahead, leap_looks, done_at_once, Narrow, Leaps};
ghost use Rattle.way_rules.specs.Calm.{places_left, sender_calm, bit_left, frame_holds, sender_keeps, sender_moved, heard_calm, way_calm, way_skipped, way_later, sender_stands, receiver_stands};

use line_rules::Format;
use link_rules::{Frame, HeardTick, ReceiverHalf, SenderHalf};
use way_rules::{Ends, Faults, Way};

// (w, e) stay two parameters, and these calls functions: `Way` is of `way_rules`, which has no code, so no methods stand there.

// == a tick ==

// What arrives sets flags, and clears none. (Its twin in `ins2651` is over `Flags`, of another type with two fields more.)
fn note(f: &mut Faults, t: HeardTick)
    ensures { f.new ≡ Along.noted f.old t.overrun t.heard }
{
    if let Some(a) = t.heard {
        f.framing = line::or_set(a.framing, f.framing);
        f.overrun = line::or_set(t.overrun, f.overrun);
        f.parity = line::or_set(a.parity, f.parity);
    }
}

// The sender's tick: the level sent. The empty-mark is set where a frame ends with nothing waiting and transmit enabled.
fn send(w: &mut Way, e: &Ends) -> bool
    ensures level { result ≡ (sent e.now w.old).level }
    ensures way { w.new ≡ sent_by e.now w.old (sent e.now w.old) }
{
    let sent = link::transmit(&mut w.sender, e.ready, e.broken, e.send);
    w.empty = line::or_set(sent.drained & e.enabled, w.empty);
    sent.level
}

// The receiver's.
fn hear(w: &mut Way, e: &Ends, x: bool)
    ensures { w.new ≡ heard_by w.old (received e.now w.old x) }
{
    let tick = link::receive(&mut w.receiver, e.live, e.hear, x);
    note(&mut w.faults, tick);
}

// A tick: both ends count it, and the receiver takes what the sender sends.
#[tactic(auto, unfolding(way_rules::specs::Along::way_tick))]
pub fn tick(w: &mut Way, e: &Ends)
    ensures { w.new ≡ way_tick e.now w.old }
{
    let x = send(w, e);
    hear(w, e, x);
}

// == ticks that only count ==

// The same way, k ticks on by both tallies (P4).
fn later(w: &mut Way, k: u16)
    ensures { w.new ≡ way_later k w.old }
{
    link::sender_later(&mut w.sender, k);
    link::receiver_later(&mut w.receiver, k);
}

// What k ticks leave of a countdown or a guard. (The library's `saturating_sub` is over one width, and k is of another.)
fn lowered(c: u8, k: u16) -> u8
    ensures { result ≡ c - k }
{
    c.saturating_sub(u8::try_from(k).unwrap_or(u8::MAX))
}

fn breaks(e: &Ends) -> bool
    ensures { result ≡ Calm.breaks e.now }
{
    e.ready & e.broken
}

// The places of a frame before its last.
fn places_left(g: Frame) -> u16
    ensures { result ≡ places_left g }
{
    let places = line::frame_length(g.format).min(65536);
    u16::try_from(places.saturating_sub(u32::from(g.place) + 1)).unwrap_or(u16::MAX)
}

#[tactic(auto, unfolding(way_rules::specs::Calm::sender_calm))]
fn sender_calm(s: &SenderHalf, e: &Ends) -> u16
    ensures { result ≡ sender_calm e.now s.now }
{
    if 0 < s.frame.place {
        return places_left(s.frame);
    }
    if breaks(e) {
        return only(s.guard == e.send.factor, u16::MAX);
    }
    if 0 < s.guard {
        return u16::from(s.guard);
    }
    only(!(e.ready & (0 < s.full)), u16::MAX)
}

// The frame is in its stop. (Asked apart from the level for speed: a frame in its stop then needs no division.)
fn stopping(g: Frame) -> bool
    ensures { result ≡ Calm.stopping g }
{
    let f = g.format;
    (0 < f.factor) & (line::frame_length(f) <= u32::from(g.place) + u32::from(f.stop))
}

// The ticks of a bit from a place on.
fn bit_left(f: Format, place: u16) -> u16
    ensures { result ≡ bit_left f place }
{
    let ticks = u16::from(f.factor);
    if ticks == 0 {
        return 0;
    }
    ticks - place % ticks
}

// A count where t is so, or none. (No plainer by the library: `t.then_some(n).unwrap_or(0)` is longer than this `if`.)
fn only(t: bool, n: u16) -> u16
    ensures { result ≡ (if t then n else 0) }
{
    if t { n } else { 0 }
}

// For how many ticks a frame holds the level p from its place on. A frame in its stop needs no division.
fn frame_keeps(g: Frame, p: u8) -> u16
    ensures { result ≡ (if nat_eq p (bit (level g.format g.character g.place)) then frame_holds g else 0) }
{
    if stopping(g) {
        return only(p == 1, places_left(g));
    }
    let f = g.format;
    only(
        p == u8::from(line::level(f, g.character, g.place)),
        bit_left(f, g.place),
    )
}

// For how many ticks the line is at the level p: none where it is at the other.
fn sender_keeps(s: &SenderHalf, e: &Ends, p: u8) -> u16
    ensures { result ≡ sender_keeps e.now s.now p }
{
    if 0 < s.frame.place {
        return frame_keeps(s.frame, p);
    }
    if breaks(e) {
        return only(p == 0, u16::MAX);
    }
    if 0 < s.guard {
        return only(p == 1, u16::from(s.guard));
    }
    only(p == u8::from(!(e.ready & (0 < s.full))), u16::MAX)
}

// What k ticks that only count move in a sender, beside its tally.
#[tactic(auto, unfolding(way_rules::specs::Calm::sender_moved))]
fn move_sender(s: &mut SenderHalf, e: &Ends, k: u16)
    ensures { s.new ≡ sender_moved e.now k s.old }
{
    if 0 < s.frame.place {
        s.frame.place = s.frame.place.wrapping_add(k);
    } else if !breaks(e) {
        s.guard = lowered(s.guard, k);
    }
}

// How many ticks of the receiver only count, by the line that it hears.
#[tactic(auto, unfolding(way_rules::specs::Calm::receiver_calm))]
fn heard_calm(w: &Way, e: &Ends) -> u16
    ensures { result ≡ heard_calm e.now w.now }
{
    let phase = w.receiver.state.phase;
    if !e.live {
        return only((phase == 0) & link::clear(w.receiver), u16::MAX);
    }
    if phase == 2 {
        return u16::from(w.receiver.state.countdown);
    }
    if link::clear(w.receiver) {
        return sender_keeps(&w.sender, e, phase);
    }
    0
}

// Whether the receiver looks at the next tick: the quickest sign that this is not calm.
fn looks(w: &Way) -> bool
    ensures { result ≡ Calm.looks w.now }
{
    (w.receiver.state.phase == 2) & (w.receiver.state.countdown == 0)
}

// How many ticks only count.
fn calm(w: &Way, e: &Ends) -> u16
    ensures { result ≡ way_calm e.now w.now }
{
    if looks(w) {
        return 0;
    }
    let sends = sender_calm(&w.sender, e);
    if sends == 0 {
        return 0;
    }
    heard_calm(w, e).min(sends)
}

#[tactic(auto, unfolding(way_rules::specs::Calm::sender_skipped, way_rules::specs::Calm::way_skipped))]
fn count(w: &mut Way, e: &Ends, k: u16)
    ensures { w.new ≡ way_skipped e.now k w.old }
{
    move_sender(&mut w.sender, e, k);
    w.receiver.state.countdown = lowered(w.receiver.state.countdown, k);
    later(w, k);
}

// k of them at once.
fn skip(w: &mut Way, e: &Ends, k: u16)
    requires { k ≤ way_calm e.now w.old }
    ensures { w.new ≡ way_ticks e.now k w.old }
{
    if k == 0 {
        return;
    }
    count(w, e, k);
}

// == a way that stands ==

// The sender is at rest with nothing that may start, or in a break whose guard stands.
// (Its definition, which docs/PROMISES.md names, has these parameters; so has the receiver's, below.)
pub fn sender_stands(s: SenderHalf, ready: bool, broken: bool, factor: u8) -> bool
    ensures { result ≡ sender_stands s ready broken factor }
{
    let free = !(0 < s.frame.place);
    if ready & broken {
        return free & (s.guard == factor);
    }
    free & ((s.guard == 0) & !(ready & (0 < s.full)))
}

// The receiver has no character under way, and is off or stays at the level of the line.
pub fn receiver_stands(r: ReceiverHalf, live: bool, level: bool) -> bool
    ensures { result ≡ receiver_stands r live level }
{
    link::clear(r) & (r.state.phase == u8::from(live & level))
}

// == a frame that is followed ==

// The value of a character before look number m. (That it is a byte is told to the proofs of its callers.)
fn so_far(f: Format, c: u8, m: u16) -> u8
    ensures { (result ≡ so_far f c m) × (c < 256) }
{
    line::low_bits(c, m.saturating_sub(1).min(u16::from(f.length)))
}

// The place of look number m.
fn look_place(f: Format, m: u16) -> u32
    ensures { result ≡ half f + f.factor * m }
{
    u32::from(line::half(f)) + u32::from(f.factor) * u32::from(m)
}

// The receiver is where the frame's place puts it: its format may differ in the stop alone.
#[tactic(auto, unfolding(way_rules::specs::Leap::in_step))]
fn in_step(w: &Way) -> bool
    ensures { (result ≡ in_step w.now) × (w.now.sender.frame.character < 256) }
{
    let f = w.sender.frame.format;
    let g = w.receiver.format;
    let at = u32::from(w.sender.frame.place) + u32::from(w.receiver.state.countdown);
    (f == Format { stop: f.stop, ..g })
        & (at == look_place(g, w.receiver.state.look))
        & (w.receiver.state.wrong == 0)
        & (w.receiver.state.value == so_far(g, w.sender.frame.character, w.receiver.state.look))
}

// How many looks are passed in so many ticks: those that they reach, the stop's at most. Where they reach that one there is no division.
fn looks_ahead(w: &Way, room: u16) -> u16
    ensures { (result ≡ looks_ahead w.now room) × (0 < result → w.now.receiver.state.look + result ≤ 257) }
{
    let look = w.receiver.state.look;
    let wait = u16::from(w.receiver.state.countdown);
    let ticks = u16::from(w.receiver.format.factor);
    let last = line::last_look(w.receiver.format);
    if ticks == 0 {
        return 0;
    }
    if room < wait {
        return 0;
    }
    if last <= look {
        return 0;
    }
    if ticks * (last - look) <= room - wait {
        return last - look;
    }
    (room - wait) / ticks
}

// .. of a receiver in step, before the frame's last place.
fn leap_looks(w: &Way, e: &Ends, room: u16) -> u16
    ensures { (result ≡ leap_looks e.now w.now room) × (0 < result → Narrow w.now result) }
{
    let followed = e.live & ((0 < w.sender.frame.place) & (w.receiver.state.phase == 2));
    if followed {
        let step = in_step(w);
        if step {
            return looks_ahead(w, places_left(w.sender.frame).min(room));
        }
        return 0;
    }
    0
}

// The ticks to the look that is q after the next.
fn leap_ticks(w: &Way, q: u16) -> u16
    requires { leap_ticks w.now q ≤ 65535 }
    ensures { result ≡ leap_ticks w.now q }
{
    u16::from(w.receiver.state.countdown) + u16::from(w.receiver.format.factor) * q
}

// On to that look, so many ticks on.
fn leap(w: &mut Way, q: u16, ticks: u16)
    requires { Leaps w.old q ticks }
    ensures { w.new ≡ fly_at w.old ticks (w.old.receiver.state.look + q) 0 }
{
    let look = w.receiver.state.look + q;
    w.sender.frame.place = w.sender.frame.place + ticks;
    w.receiver.state.countdown = 0;
    w.receiver.state.value = so_far(w.receiver.format, w.sender.frame.character, look);
    w.receiver.state.look = look;
    later(w, ticks);
}

// Many ticks at once, of so many at most: to the last look of a frame that is followed, or those that only count. How many they were; no
// character comes in them.
fn advance(w: &mut Way, e: &Ends, room: u16) -> u16
    ensures ticks { result ≡ (done_at_once e.now w.old room).ticks }
    ensures way { w.new ≡ (done_at_once e.now w.old room).way }
    ensures none { unread w.new ≡ unread w.old }
{
    if room == 0 {
        return 0;
    }
    let q = leap_looks(w, e, room);
    if 0 < q {
        let k = leap_ticks(w, q);
        leap(w, q, k);
        return k;
    }
    let k = calm(w, e).min(room);
    skip(w, e, k);
    k
}

// n ticks, or where it is watched for only those up to the first after which a character is unread: those that pass at once, then one by
// itself, and so on; how many there were. (`watch` stays a bool: two loops, as a closure makes them too, were a third slower on a full line, as
// a function that is called at two places is not put into its callers: docs/DECISIONS.md.)
// (The loop stays a `while`: a turn passes as many ticks as its step tells, so no range counts the turns.)
pub fn along(w: &mut Way, e: &Ends, n: u16, watch: bool) -> u16
    ensures ticks { result ≡ (done_until e.now watch n w.old).ticks }
    ensures way { w.new ≡ (done_until e.now watch n w.old).way }
{
    let mut left = n;
    while (0 < left) & !(watch & (0 < w.receiver.unread)) {
        let k = advance(w, e, left - 1);
        tick(w, e);
        left = left - k - 1;
    }
    n - left
}
