// Two devices joined by a line: document 01, "Receiving, by receive ticks", on joined ticks.
// Every call takes any number in any field. A joined tick is never refused; a run of more than 65535 is, and a wait with a limit above 65535:
// both leave the pair as given. A device out of range is taken as one just reset, but by a run of 0 and a wait that spends none, which change
// nothing; `unread` and `stands` say no of it, and `later` asks for no range.
#![tactic(auto)]

ghost use Rattle.std.specs.Prelude.{◌≡◌, ◌&&◌};
ghost use Rattle.way_rules.specs.Calm.{way_stands};
ghost use Rattle.way_rules.specs.Until.{until_unread};
ghost use Rattle.ins2651_rules.specs.Ranges.{rests_in_range, shown_in_range};
ghost use Rattle.ins2651_ends.specs.OnALine as chip;
ghost use Rattle.joined_rules.specs.Refused.{told};
ghost use Rattle.joined_rules.specs.Joining;
ghost use Rattle.joined_rules.specs.Joining.{settled_pair, joined_tick, levels, ticks};
ghost use Rattle.joined_rules.specs.TwoWays;
ghost use Rattle.joined_rules.specs.TwoWays.{ends_of, way_of, along_way, with_sent, with_heard, with_ends, pair_later};
ghost use Rattle.joined_rules.specs.Waiting;
ghost use Rattle.joined_rules.specs.Waiting.{waited, waited_along};

use ins2651_rules::Device;
use joined_rules::{Levels, Pair, TooLong};
use line_rules::Unit;
use way_rules::{Ends, Faults, Way};

// Each device that is out of range becomes one just reset.
fn settle(p: &mut Pair)
    ensures { p.new ≡ settled_pair p.old }
{
    ins2651::settle(&mut p.a);
    ins2651::settle(&mut p.b);
}

// == a joined tick ==

// Both transmit ticks, then each receiver takes the other's level; of a pair in range.
#[tactic(auto, unfolding(joined_rules::specs::Joining::joined_tick))]
fn joined_tick(p: &mut Pair) -> Levels
    ensures answer { result ≡ levels (joined_tick p.old) }
    ensures pair { p.new ≡ (joined_tick p.old).pair }
{
    let a = ins2651::transmit_tick(&mut p.a);
    let b = ins2651::transmit_tick(&mut p.b);
    ins2651::receive_tick(&mut p.a, 0 < b);
    ins2651::receive_tick(&mut p.b, 0 < a);
    Levels { a, b }
}

// A joined tick of any pair; answers the levels that were sent.
#[tactic(auto, using(joined_rules::proofs::Runs::tick_is))]
pub fn tick(p: &mut Pair) -> Levels
    ensures answer { result ≡ levels (Joining.tick p.old) }
    ensures pair { p.new ≡ (Joining.tick p.old).pair }
{
    settle(p);
    joined_tick(p)
}

// == the two ways ==

// What the ticks of the way from a device to another go by. (The two are no struct: by one each clause would say `self.entry.from.now` for `from.now`.)
fn ends_of(from: &Device, to: &Device) -> Ends
    ensures { result ≡ ends_of from.now to.now }
{
    Ends {
        ready: ins2651::may_start(from),
        broken: ins2651::break_on(from),
        enabled: ins2651::transmit_enabled(from),
        live: ins2651::listening(to),
        send: ins2651::send_format(from.registers),
        hear: ins2651::receive_format(to.registers),
    }
}

// What they move.
fn way_of(from: &Device, to: &Device) -> Way
    ensures { result ≡ way_of from.now to.now }
{
    Way {
        sender: from.sender,
        receiver: to.receiver,
        empty: from.flags.empty,
        faults: Faults {
            framing: to.flags.framing,
            overrun: to.flags.overrun,
            parity: to.flags.parity,
        },
    }
}

// n of them; or, where it is watched for, those up to the first after which a character is unread at its end. Answers how many. (`watch` is a
// switch, as `way` has one loop for both: with two a frame took 303 ns in place of 217, docs/LANDINGS.md.)
fn one_way(from: &mut Device, to: &mut Device, n: u16, watch: bool) -> u16
    ensures count { result ≡ until_unread (ends_of from.old to.old) watch n (way_of from.old to.old) }
    ensures from { from.new ≡ with_sent from.old (along_way result from.old to.old) }
    ensures to { to.new ≡ with_heard to.old (along_way result from.old to.old) }
{
    let mut way = way_of(from, to);
    let count = way::along(&mut way, &ends_of(from, to), n, watch);
    from.sender = way.sender;
    from.flags.empty = way.empty;
    to.receiver = way.receiver;
    to.flags.framing = way.faults.framing;
    to.flags.overrun = way.faults.overrun;
    to.flags.parity = way.faults.parity;
    count
}

// The same, and as many ticks of the way back, and at the end the byte of each: as many joined ticks of a pair in range.
fn both_ways(from: &mut Device, to: &mut Device, n: u16, watch: bool) -> u16
    ensures count { result ≡ until_unread (ends_of from.old to.old) watch n (way_of from.old to.old) }
    ensures from { from.new ≡ with_ends from.old (along_way result from.old to.old) (along_way result to.old from.old) }
    ensures to { to.new ≡ with_ends to.old (along_way result to.old from.old) (along_way result from.old to.old) }
{
    let count = one_way(from, to, n, watch);
    one_way(to, from, count, false);
    ins2651::keep_status(from);
    ins2651::keep_status(to);
    count
}

// == ticks that only count ==

// Whether no tick changes more of the way from a device to another than its tallies.
#[tactic(auto, unfolding(way_rules::specs::Calm::way_stands))]
fn way_stands(from: &Device, to: &Device) -> bool
    ensures { result ≡ way_stands (ends_of from.now to.now) (way_of from.now to.now) }
{
    let ready = ins2651::may_start(from);
    let broken = ins2651::break_on(from);
    let live = ins2651::listening(to);
    let f = ins2651::send_format(from.registers);
    way::sender_stands(from.sender, ready, broken, f.factor)
        & way::receiver_stands(to.receiver, live, !(ready & broken))
}

// Whether a device at rest is in range.
fn rests_in_range(d: &Device) -> bool
    ensures { result ≡ (rests_in_range d.now && shown_in_range d.now) }
{
    ins2651::rests_in_range(d) && ins2651::shown_in_range(d)
}

// Whether no tick changes more of the pair than its tallies, in range on both sides: n ticks of it are `later`. The ranges are asked last.
#[tactic(auto, using(joined_rules::proofs::Standing::stands_in, joined_rules::proofs::Standing::stands_not))]
pub fn stands(p: &Pair) -> bool
    ensures { result ≡ TwoWays.stands p.now }
{
    let ways = way_stands(&p.a, &p.b) & way_stands(&p.b, &p.a);
    ways && (rests_in_range(&p.a) & rests_in_range(&p.b))
}

// n ticks more in the four tallies of a pair (P4).
pub fn later(p: &mut Pair, n: u16)
    ensures { p.new ≡ pair_later n p.old }
{
    ins2651::later(&mut p.a, n);
    ins2651::later(&mut p.b, n);
}

// == runs ==

// n joined ticks. A pair that stands only counts them; of any other the ranges are checked once.
#[tactic(auto, using(joined_rules::proofs::Standing::stands_counts, joined_rules::proofs::TwoWays::until_all, joined_rules::proofs::TwoWays::along_settled), unfolding(joined_rules::specs::TwoWays::along_both))]
fn ticks(p: &mut Pair, n: u16)
    ensures { p.new ≡ ticks n p.old }
{
    if stands(p) {
        later(p, n);
    } else if 0 < n {
        settle(p);
        both_ways(&mut p.a, &mut p.b, n, false);
    }
}

// n joined ticks at once, if there are no more than 65535.
#[tactic(auto, unfolding(joined_rules::specs::Joining::run))]
pub fn run(p: &mut Pair, n: u32) -> Result<(), TooLong>
    ensures answer { result ≡ told (Joining.run p.old n).refusal tt }
    ensures pair { p.new ≡ (Joining.run p.old n).pair }
{
    let n = u16::try_from(n).map_err(|_| TooLong::Run)?;
    ticks(p, n);
    Ok(())
}

// == waits ==

// `wait`, `wait_up_to` and `wait_on` take p, unit and limit apart, as the definitions `wait`, `waited` and `waited_along` do: p alone is lent.

// Whether a device holds an unread character: one that is out of range holds none. The range is asked last.
#[tactic(auto, using(ins2651_ends::proofs::Calls::unread_none, ins2651_ends::proofs::Calls::unread_some))]
fn holds_unread(d: &Device) -> bool
    ensures { result ≡ chip.unread d.now }
{
    0 < d.receiver.unread && ins2651::in_range(d)
}

// Whether a unit does. (A match: a function for a unit's device would have this one caller, as `wait_on` lends both.)
pub fn unread(p: &Pair, unit: Unit) -> bool
    ensures { result ≡ Waiting.unread unit p.now }
{
    match unit {
        Unit::A => holds_unread(&p.a),
        Unit::B => holds_unread(&p.b),
    }
}

// A wait of a pair in range: the way that comes to the unit is run until a character is unread there, and the other one for as long.
#[tactic(auto, unfolding(joined_rules::specs::TwoWays::along_both))]
fn wait_on(p: &mut Pair, unit: Unit, limit: u16) -> u16
    ensures count { result ≡ (waited_along p.old unit limit).count }
    ensures pair { p.new ≡ (waited_along p.old unit limit).pair }
{
    match unit {
        Unit::A => both_ways(&mut p.b, &mut p.a, limit, true),
        Unit::B => both_ways(&mut p.a, &mut p.b, limit, true),
    }
}

// A wait with a limit that is not refused. A pair that stands only counts to it; of any other the ranges are checked once.
#[tactic(auto, using(joined_rules::proofs::Waits::wait_stands, joined_rules::proofs::Waits::some_waited))]
fn wait_up_to(p: &mut Pair, unit: Unit, limit: u16) -> u16
    ensures count { result ≡ (waited p.old unit limit).count }
    ensures pair { p.new ≡ (waited p.old unit limit).pair }
{
    if unread(p, unit) || limit == 0 {
        return 0;
    }
    if stands(p) {
        later(p, limit);
        return limit;
    }
    settle(p);
    wait_on(p, unit, limit)
}

// Joined ticks until a unit holds an unread character, or the limit, 65535 at most, is used up; answers how many.
#[tactic(auto, unfolding(joined_rules::specs::Waiting::wait))]
pub fn wait(p: &mut Pair, unit: Unit, limit: u32) -> Result<u16, TooLong>
    ensures answer { result ≡ told (Waiting.wait p.old unit limit).refusal (Waiting.wait p.old unit limit).count }
    ensures pair { p.new ≡ (Waiting.wait p.old unit limit).pair }
{
    let limit = u16::try_from(limit).map_err(|_| TooLong::Wait)?;
    Ok(wait_up_to(p, unit, limit))
}
