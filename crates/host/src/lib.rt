// The device lent to a C host: each call finds it, advances it in place and answers one number. include/ins2651.h is C's view.
// Whatever bytes the host lends, the call is what `ins2651_rules` says of them; a refused call leaves them as they were.
// A call is the chip's own of that name. The ticks alone go by its acts: one that only counts stores no more than its tally (P4, docs/DECISIONS.md).
#![tactic(auto)]

ghost use Rattle.std.specs.Prelude.{◌≡◌, IfOk, OnOk};
ghost use Rattle.line_rules.specs.Sending.{bit};
ghost use Rattle.ins2651_rules.specs.Shape.{reset_device};
ghost use Rattle.ins2651_rules.specs.Ranges.{in_range, settled};
ghost use Rattle.ins2651_rules.specs.Refusals.{told};
ghost use Rattle.ins2651_rules.specs.RegisterReads;
ghost use Rattle.ins2651_rules.specs.RegisterWrites;
ghost use Rattle.ins2651_rules.specs.Pinning.{set_pins};
ghost use Rattle.ins2651_rules.specs.Ticks;
ghost use Rattle.ins2651_rules.specs.Looks;
ghost use Rattle.ins2651_rules.specs.Stamps;
ghost use Rattle.host.specs.Replies;
ghost use Rattle.host.specs.Replies.{word, levels, heard, ticked};

use ins2651_rules::{Device, OutputPins, Refusal};

// An answer with the device after it. No code makes one: the contract of `tick` speaks of it, by `ticked` of specs/Replies.antt, and so do `ticked_is_both` and
// `meets` of proofs/Lent.antt.
#[repr(C)]
#[derive(Clone, Copy)]
pub struct Reply {
    pub answer: u16,
    pub device: Device,
}

// == what a call answers, as one number ==

// `refusal` and `word` are two, as `refusal_told` and `word_told` of specs are: C has a refusal as it is, and times 256 where a value is beside it.

// The refusal, and 0 of what is done.
fn refusal(done: Result<(), Refusal>) -> u16
    ensures { result ≡ Replies.refusal_told done }
{
    match done {
        Ok(()) => 0,
        Err(refusal) => u16::from(u8::from(refusal)),
    }
}

// The value, or 256 times the refusal.
fn word(answer: Result<u8, Refusal>) -> u16
    ensures { result ≡ Replies.word_told answer }
{
    match answer {
        Ok(value) => u16::from(value),
        Err(refusal) => u16::from(u8::from(refusal)) * 256,
    }
}

// The outputs' levels, each a bit. The five weights stand out, beside their outputs, as in `levels` of specs: a fold over the five would hide them.
fn levels(o: OutputPins) -> u16
    ensures { result ≡ levels o }
{
    u16::from(o.txrdy)
        + u16::from(o.rxrdy) * 2
        + u16::from(o.txemt) * 4
        + u16::from(o.dtr) * 8
        + u16::from(o.rts) * 16
}

// == the ticks, where one that only counts stores its tally alone ==

// Each branches for itself: test, count and answer differ in all three, so that closures for them in one function would be no plainer.

// A device that rests sends 1 and only counts.
#[tactic(auto, using(ins2651_rules::proofs::StaysStill::rests_still), unfolding(ins2651_rules::specs::Ticks::transmit))]
fn transmit(d: &mut Device) -> u8
    ensures answer { result ≡ (Ticks.transmit d.old).level }
    ensures left { d.new ≡ (Ticks.transmit d.old).device }
{
    if ins2651::settle(d) && ins2651::rests(d) {
        ins2651::count_sent(d);
        return 1;
    }
    ins2651::transmit_tick(d)
}

// A device that searches and hears a 1 only counts.
#[tactic(auto, using(crate::proofs::Promises::heard_is_tick, ins2651_rules::proofs::StaysStill::searches_still, ins2651_rules::proofs::Settled::settled_in), unfolding(ins2651_rules::specs::Ticks::receive))]
fn receive(d: &mut Device, level: u8) -> Result<(), Refusal>
    ensures answer { result ≡ told (Ticks.receive d.old level).refusal tt }
    ensures left { d.new ≡ (Ticks.receive d.old level).device }
    ensures heard { OnOk result (d.new ≡ heard (settled d.old) level) }
{
    ins2651::check_level(level)?;
    if ins2651::settle(d) && ins2651::searches(d, level) {
        ins2651::count_heard(d);
    } else {
        ins2651::receive_tick(d, 0 < level);
    }
    Ok(())
}

// Where both ticks only count, one act counts both.
#[tactic(auto, using(crate::proofs::Promises::ticked_is_both, ins2651_rules::proofs::StaysStill::still_stays, ins2651_rules::proofs::Settled::settled_in), unfolding(ins2651_rules::specs::Ticks::tick))]
fn tick(d: &mut Device, level: u8) -> Result<u8, Refusal>
    ensures answer { result ≡ told (Ticks.tick d.old level).refusal (Ticks.tick d.old level).value }
    ensures left { d.new ≡ (Ticks.tick d.old level).device }
    ensures ticked { IfOk result (λ sent. (sent ≡ (ticked (settled d.old) level).answer) × (d.new ≡ (ticked (settled d.old) level).device)) }
{
    ins2651::check_level(level)?;
    if ins2651::settle(d) && ins2651::still(d, level) {
        ins2651::later(d, 1);
        return Ok(1);
    }
    ins2651::receive_tick(d, 0 < level);
    Ok(ins2651::transmit_tick(d))
}

// == the calls on a lent device: names, parameters and numbers are C's (include/ins2651.h), and so is `&mut` where a call only looks ==

// Resets the device; answers 0.
pub fn ins2651_reset(d: &mut Device) -> u16
    ensures answer { result ≡ 0 }
    ensures device { d.new ≡ reset_device }
{
    *d = ins2651::reset();
    0
}

// Reads a register; answers 256 times the refusal, and the value.
#[tactic(auto, using(crate::proofs::Told::read_told))]
pub fn ins2651_read(d: &mut Device, address: u8) -> u16
    ensures answer { result ≡ word (RegisterReads.read d.old address) }
    ensures device { d.new ≡ (RegisterReads.read d.old address).device }
{
    word(ins2651::read(d, address))
}

// Writes a register; answers its refusal.
#[tactic(auto, using(crate::proofs::Told::write_told), unfolding(ins2651_rules::specs::RegisterWrites::write))]
pub fn ins2651_write(d: &mut Device, address: u8, value: u8) -> u16
    ensures answer { result ≡ (RegisterWrites.write d.old address value).refusal }
    ensures device { d.new ≡ (RegisterWrites.write d.old address value).device }
{
    refusal(ins2651::write(d, address, value))
}

// Sets the three modem inputs; answers its refusal.
#[tactic(auto, using(crate::proofs::Told::pins_told))]
pub fn ins2651_pins(d: &mut Device, dsr: u8, dcd: u8, cts: u8) -> u16
    ensures answer { result ≡ (set_pins d.old dsr dcd cts).refusal }
    ensures device { d.new ≡ (set_pins d.old dsr dcd cts).device }
{
    refusal(ins2651::set_pins(d, dsr, dcd, cts))
}

// A transmit tick; answers the level that it sends.
pub fn ins2651_transmit(d: &mut Device) -> u16
    ensures answer { result ≡ (Ticks.transmit d.old).level }
    ensures device { d.new ≡ (Ticks.transmit d.old).device }
{
    u16::from(transmit(d))
}

// A receive tick with the line at a level; answers its refusal.
#[tactic(auto, using(crate::proofs::Told::receive_told))]
pub fn ins2651_receive(d: &mut Device, level: u8) -> u16
    ensures answer { result ≡ (Ticks.receive d.old level).refusal }
    ensures device { d.new ≡ (Ticks.receive d.old level).device }
{
    refusal(receive(d, level))
}

// A receive tick with the line at a level, then a transmit tick; answers 256 times the refusal, and the level that it sends.
#[tactic(auto, using(crate::proofs::Told::tick_told))]
pub fn ins2651_tick(d: &mut Device, level: u8) -> u16
    ensures answer { result ≡ word (Ticks.tick d.old level) }
    ensures device { d.new ≡ (Ticks.tick d.old level).device }
{
    word(tick(d, level))
}

// The levels of the outputs, as the bits of one number; the device stays as it is, in range or not.
pub fn ins2651_outputs(d: &mut Device) -> u16
    ensures answer { result ≡ levels (Looks.outputs d.old) }
    ensures device { d.new ≡ d.old }
{
    levels(ins2651::outputs(d))
}

// The status, which is not read; the device stays as it is, in range or not.
pub fn ins2651_peek(d: &mut Device) -> u16
    ensures answer { result ≡ Looks.peek d.old }
    ensures device { d.new ≡ d.old }
{
    u16::from(ins2651::peek(d))
}

// 1 where the device is in range, else 0; it stays as it is.
pub fn ins2651_in_range(d: &mut Device) -> u16
    ensures answer { result ≡ bit (in_range d.old) }
    ensures device { d.new ≡ d.old }
{
    u16::from(ins2651::in_range(d))
}

// The stamp of the character that a read of address 0 gives (P4). Here and in the next three the device stays as it is, in range or not.
pub fn ins2651_stamp(d: &mut Device) -> u32
    ensures answer { result ≡ (Stamps.stamp d.old).0 }
    ensures device { d.new ≡ d.old }
{
    ins2651::stamp(d).0
}

// The transmit tally after the first tick of the last frame.
pub fn ins2651_start(d: &mut Device) -> u32
    ensures answer { result ≡ (Stamps.start d.old).0 }
    ensures device { d.new ≡ d.old }
{
    ins2651::start(d).0
}

// Transmit ticks since reset.
pub fn ins2651_transmit_tally(d: &mut Device) -> u32
    ensures answer { result ≡ (Stamps.transmit_tally d.old).0 }
    ensures device { d.new ≡ d.old }
{
    ins2651::transmit_tally(d).0
}

// Receive ticks since reset.
pub fn ins2651_receive_tally(d: &mut Device) -> u32
    ensures answer { result ≡ (Stamps.receive_tally d.old).0 }
    ensures device { d.new ≡ d.old }
{
    ins2651::receive_tally(d).0
}
