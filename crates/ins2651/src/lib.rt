// The INS2651 over its two halves: document 01's registers, pins, outputs and ticks.
// Every call takes any number in any field. A device out of range is taken as one just reset; a refused call leaves it as given.
// The acts below the calls (the two ticks and what only counts, the reads and writes of registers, pins, status, outputs), the conditions and the
// refusals check no range: they are for a caller that settles its device once (docs/RANGES.md).
#![tactic(auto)]

ghost use Rattle.std.specs.Prelude.{◌≡◌, ◌^◌, ◌<◌, cond, ◌≤◌, ◌&&◌};
ghost use Rattle.link_rules.specs.Within.{sender_in_range, receiver_in_range};
ghost use Rattle.std.specs.Fn.{FnReturnsAt};
ghost use Rattle.line_rules.specs.Sending.{bit};
ghost use Rattle.ins2651_rules.specs.Shape;
ghost use Rattle.ins2651_rules.specs.Shape.{status_kept, status_if, reset_device, send_counted, hear_counted, device_later};
ghost use Rattle.ins2651_rules.specs.Modes;
ghost use Rattle.ins2651_rules.specs.Modes.{factor_of, stop_of, format_of, send_format, receive_format};
ghost use Rattle.ins2651_rules.specs.Conditions;
ghost use Rattle.ins2651_rules.specs.Conditions.{data_set_ready, clear_to_send, mode_set, may_write};
ghost use Rattle.ins2651_rules.specs.Status;
ghost use Rattle.ins2651_rules.specs.Looks;
ghost use Rattle.ins2651_rules.specs.Status.{modem_bits, error_bits, ready_bits, outputs_of};
ghost use Rattle.ins2651_rules.specs.Ranges.{mode1_in_range, command_in_range, registers_in_range, pins_in_range, flags_in_range, in_range, shown_in_range, rests_in_range, settled};
ghost use Rattle.ins2651_rules.specs.Weights.{level_weights, error_weights, right_by_weights};
ghost use Rattle.ins2651_rules.specs.Refusals.{read_refusal, mode1_refusal, mode_refusal, command_refusal, write_refusal, pins_refusal, level_refusal, told};
ghost use Rattle.ins2651_rules.specs.RegisterReads;
ghost use Rattle.ins2651_rules.specs.RegisterReads.{read_holding, read_status, read_mode, read_command, read_register};
ghost use Rattle.ins2651_rules.specs.RegisterWrites;
ghost use Rattle.ins2651_rules.specs.RegisterWrites.{write_holding, syns_written, write_syn, modes_written, write_mode, flags_commanded, receiver_commanded, write_command, write_register};
ghost use Rattle.ins2651_rules.specs.Pinning.{set_pins};
ghost use Rattle.ins2651_rules.specs.Pinning;
ghost use Rattle.ins2651_rules.specs.Ticks;
ghost use Rattle.ins2651_rules.specs.Still;
ghost use Rattle.ins2651_rules.specs.Stamps;
ghost use Rattle.ins2651_rules.specs.Stamps.{transmit_tally, receive_tally};
ghost use Rattle.ins2651_rules.specs.Ticks.{runs_empty, sent_by, transmit_tick, received_by, receive_tick};

use ins2651_rules::{Device, Flags, OutputPins, Pins, Refusal, Registers};
use line_rules::{Arrival, Format, RxC, TxC};
use link_rules::{ReceiverHalf, SenderHalf};

// == bits ==

// Whether bit k is 1.
#[tactic(auto, using(std::proofs::lemmas::Nat::Bits::shr_and_one))]
fn has(k: u8, v: u8) -> bool
    requires { k < 8 }
    ensures { result ≡ Modes.has (2 ^ k) v }
{
    v >> k & 1 == 1
}

// == modes ==

fn factor_of(m: u8, internal: bool) -> u8
    ensures { (result ≡ factor_of m internal) × (result ≤ 64) }
{
    if internal {
        return 16;
    }
    match m % 4 {
        1 => 1,
        2 => 16,
        _ => 64,
    }
}

// Stop ticks.
fn stop_of(m: u8, ticks: u8) -> u8
    requires { ticks ≤ 64 }
    ensures { result ≡ stop_of m ticks }
{
    match m / 64 {
        1 => ticks,
        2 => 3 * ticks / 2,
        _ => 2 * ticks,
    }
}

#[tactic(auto, unfolding(ins2651_rules::specs::Modes::format_of))]
fn format_of(m: u8, internal: bool) -> Format
    ensures { result ≡ format_of m internal }
{
    let factor = factor_of(m, internal);
    Format {
        factor,
        length: 5 + m / 4 % 4,
        parity: m / 16 % 2,
        even: m / 32 % 2,
        stop: stop_of(m, factor),
    }
}

// Here and in `receive_format` the name says which bit of mode 2 the one `format_of` goes by: a parameter would put a 5 or a 4 at each call.
pub fn send_format(r: Registers) -> Format
    ensures { result ≡ send_format r }
{
    format_of(r.mode1, has(5, r.mode2))
}

pub fn receive_format(r: Registers) -> Format
    ensures { result ≡ receive_format r }
{
    format_of(r.mode1, has(4, r.mode2))
}

// == conditions ==

pub fn transmit_enabled(d: &Device) -> bool
    ensures { result ≡ Conditions.transmit_enabled d.now }
{
    has(0, d.registers.command)
}

fn carrier(d: &Device) -> bool
    ensures { result ≡ Conditions.carrier d.now }
{
    d.pins.dcd == 0
}

fn clear_to_send(d: &Device) -> bool
    ensures { result ≡ clear_to_send d.now }
{
    d.pins.cts == 0
}

fn mode_set(d: &Device) -> bool
    ensures { result ≡ mode_set d.now }
{
    0 < d.registers.accepted
}

// A frame or a break may start.
pub fn may_start(d: &Device) -> bool
    ensures { result ≡ Conditions.may_start d.now }
{
    transmit_enabled(d) & clear_to_send(d) & mode_set(d)
}

pub fn break_on(d: &Device) -> bool
    ensures { result ≡ Conditions.break_on d.now }
{
    has(3, d.registers.command)
}

// A receive tick looks at its sample.
pub fn listening(d: &Device) -> bool
    ensures { result ≡ Conditions.listening d.now }
{
    has(2, d.registers.command) & carrier(d) & mode_set(d)
}

fn unread(d: &Device) -> bool
    ensures { result ≡ Conditions.unread d.now }
{
    0 < d.receiver.unread
}

// Transmit is enabled and THR empty.
fn may_write(d: &Device) -> bool
    ensures { result ≡ may_write d.now }
{
    transmit_enabled(d) & (d.sender.full == 0)
}

fn either_mark(d: &Device) -> bool
    ensures { result ≡ Conditions.either_mark d.now }
{
    (0 < d.flags.empty) | (0 < d.flags.change)
}

// == status and outputs ==

// A choice, and no product with `u8::from(b)`, which says less plainly what a bit of the status is.
fn weigh(b: bool, w: u8) -> u8
    ensures { (result ≡ Status.weigh b w) × (result ≤ w) }
{
    if b { w } else { 0 }
}

fn data_set_ready(d: &Device) -> bool
    ensures { result ≡ data_set_ready d.now }
{
    d.pins.dsr == 0
}

fn modem_bits(d: &Device) -> u8
    ensures { (result ≡ modem_bits d.now) × (result ≤ 192) }
{
    weigh(data_set_ready(d), 128) + weigh(carrier(d), 64)
}

fn error_bits(f: Flags) -> u8
    ensures { (result ≡ error_bits f) × (result ≤ 56) }
{
    weigh(0 < f.framing, 32) + weigh(0 < f.overrun, 16) + weigh(0 < f.parity, 8)
}

fn ready_bits(d: &Device) -> u8
    ensures { (result ≡ ready_bits d.now) × (result ≤ 7) }
{
    weigh(either_mark(d), 4) + weigh(unread(d), 2) + weigh(may_write(d), 1)
}

// What the stored status byte of a device must be (P7): of any byte that is stored, as no bit goes by that.
#[tactic(auto, unfolding(ins2651_rules::specs::Status::status_byte))]
fn status_byte(d: &Device) -> u8
    ensures { result ≡ (status_kept d.now).status }
{
    modem_bits(d) + error_bits(d.flags) + ready_bits(d)
}

// The status byte becomes what the other fields mean; what else the device is stays.
pub fn keep_status(d: &mut Device)
    ensures { d.new ≡ status_kept d.old }
{
    d.status = status_byte(d);
}

// The byte is put together where something happened that a bit goes by, and else stays. (A flag, since six callers would repeat the `if`.)
fn keep_status_if(d: &mut Device, happened: bool)
    ensures { d.new ≡ cond happened (status_kept d.old) d.old }
{
    if happened {
        keep_status(d);
    }
}

// The levels of the outputs, of a device in range.
#[tactic(auto, unfolding(ins2651_rules::specs::Status::outputs_of))]
pub fn outputs_of(d: &Device) -> OutputPins
    ensures { result ≡ outputs_of d.now }
{
    let dtr = has(1, d.registers.command);
    let rts = has(5, d.registers.command);
    OutputPins {
        txrdy: u8::from(!may_write(d)),
        rxrdy: u8::from(!unread(d)),
        txemt: u8::from(!either_mark(d)),
        dtr: u8::from(!dtr),
        rts: u8::from(!rts),
    }
}

// The levels of the outputs.
#[tactic(auto, unfolding(ins2651_rules::specs::Looks::outputs))]
pub fn outputs(d: &Device) -> OutputPins
    ensures { result ≡ Looks.outputs d.now }
{
    look(d, outputs_of)
}

// The status, looked at and not read: the change-mark stays.
#[tactic(auto, unfolding(ins2651_rules::specs::Looks::peek))]
pub fn peek(d: &Device) -> u8
    ensures { result ≡ Looks.peek d.now }
{
    look(d, |s| s.status)
}

// == ranges and reset ==

fn mode1_in_range(accepted: u8, m: u8) -> bool
    ensures { result ≡ mode1_in_range accepted m }
{
    match accepted {
        0 => m == 0,
        1 => check_mode1(m).is_ok(),
        _ => false,
    }
}

fn command_in_range(v: u8) -> bool
    ensures { result ≡ command_in_range v }
{
    check_command(v).is_ok() & !has(4, v)
}

fn registers_in_range(r: Registers) -> bool
    ensures { result ≡ registers_in_range r }
{
    mode1_in_range(r.accepted, r.mode1)
        & command_in_range(r.command)
        & (r.modes <= 1)
        & (r.syns <= 2)
}

fn pins_in_range(p: Pins) -> bool
    ensures { result ≡ pins_in_range p }
{
    (p.dsr <= 1) & (p.dcd <= 1) & (p.cts <= 1)
}

fn flags_in_range(f: Flags) -> bool
    ensures { result ≡ flags_in_range f }
{
    (f.framing <= 1) & (f.overrun <= 1) & (f.parity <= 1) & (f.empty <= 1) & (f.change <= 1)
}

// Levels and flags that are 0 or 1 are their own bits of the status: the two levels, ..
fn level_weights(p: Pins) -> u32
    ensures { (result ≡ level_weights p) × (result ≤ 48960) }
{
    128 * u32::from(p.dsr) + 64 * u32::from(p.dcd)
}

// .. and the three error flags.
fn error_weights(f: Flags) -> u32
    ensures { (result ≡ error_weights f) × (result ≤ 14280) }
{
    32 * u32::from(f.framing) + 16 * u32::from(f.overrun) + 8 * u32::from(f.parity)
}

// The stored byte is what the other fields mean, where the pins and flags are in range: a low level is a 1 of the status (P7).
fn status_in_range(d: &Device) -> bool
    ensures { result ≡ right_by_weights d.now }
{
    u32::from(d.status) + level_weights(d.pins)
        == 192 + error_weights(d.flags) + u32::from(ready_bits(d))
}

// What the status shows, and the byte itself.
#[tactic(auto, using(crate::proofs::Weights::shown_by_weights))]
pub fn shown_in_range(d: &Device) -> bool
    ensures { result ≡ shown_in_range d.now }
{
    pins_in_range(d.pins) & flags_in_range(d.flags) & status_in_range(d)
}

// The registers and the two halves.
fn parts_in_range(d: &Device) -> bool
    ensures { result ≡ (registers_in_range d.now.registers && sender_in_range d.now.sender && receiver_in_range d.now.receiver) }
{
    registers_in_range(d.registers)
        && link::sender_in_range(d.sender)
        && link::receiver_in_range(d.receiver)
}

// Whether a device is one of document 01.
#[tactic(auto, using(crate::proofs::Branches::shown_out, crate::proofs::Branches::shown_in))]
pub fn in_range(d: &Device) -> bool
    ensures { result ≡ in_range d.now }
{
    shown_in_range(d) && parts_in_range(d)
}

// The rest, of a device with no frame and no character under way, where that is known.
#[tactic(auto, unfolding(ins2651_rules::specs::Ranges::rests_in_range))]
pub fn rests_in_range(d: &Device) -> bool
    ensures { result ≡ rests_in_range d.now }
{
    registers_in_range(d.registers)
        & link::sender_rests_in_range(d.sender)
        & link::receiver_rests_in_range(d.receiver)
}

// A device just reset: nothing set, nothing under way, the three inputs high.
pub fn reset() -> Device
    ensures { result ≡ reset_device }
{
    Device {
        registers: Registers::default(),
        pins: Pins {
            dsr: 1,
            dcd: 1,
            cts: 1,
        },
        sender: link::idle_sender(),
        receiver: link::idle_receiver(),
        flags: Flags::default(),
        status: 0,
    }
}

// A device out of range becomes one just reset. Whether it was in range.
#[tactic(auto, unfolding(ins2651_rules::specs::Ranges::settled))]
pub fn settle(d: &mut Device) -> bool
    ensures answer { result ≡ in_range d.old }
    ensures device { d.new ≡ settled d.old }
{
    let sound = in_range(d);
    if !sound {
        *d = reset();
    }
    sound
}

// What f sees of the device, or of one just reset where it is out of range.
#[tactic(auto, unfolding(ins2651_rules::specs::Ranges::settled))]
fn look<T, F: Fn(&Device) -> T>(d: &Device, f: F) -> T
    requires { F.IsAlwaysCallable f }
    ensures { FnReturnsAt F.Fn f (settled d.now) result }
{
    if in_range(d) {
        return f(d);
    }
    f(&reset())
}

// == reads ==

// What is refused of a read, of a write, of levels: document 01, "Refusal numbers".
pub fn check_read(address: u8) -> Result<(), Refusal>
    ensures { result ≡ told (read_refusal address) tt }
{
    if 3 < address {
        return Err(Refusal::NoSuchAddress);
    }
    Ok(())
}

// RHR of a device in range: it gives again what it last held.
pub fn read_holding(d: &mut Device) -> u8
    ensures answer { result ≡ (read_holding d.old).value }
    ensures device { d.new ≡ (read_holding d.old).device }
{
    let held = unread(d);
    d.receiver.unread = 0;
    keep_status_if(d, held); // bit 1
    d.receiver.holding
}

// A status read of a device in range gives the stored byte, and clears the change-mark; where there is none it puts no bits together (P7).
pub fn read_status(d: &mut Device) -> u8
    ensures answer { result ≡ (read_status d.old).value }
    ensures device { d.new ≡ (read_status d.old).device }
{
    let value = d.status;
    let marked = 0 < d.flags.change;
    d.flags.change = 0;
    keep_status_if(d, marked); // bit 2
    value
}

fn read_mode(d: &mut Device) -> u8
    ensures answer { result ≡ (read_mode d.old).value }
    ensures device { d.new ≡ (read_mode d.old).device }
{
    let r = &mut d.registers;
    if r.modes == 0 {
        r.modes = 1;
        return r.mode1;
    }
    r.modes = 0;
    r.mode2
}

// A command read puts both pointers back.
fn read_command(d: &mut Device) -> u8
    ensures answer { result ≡ (read_command d.old).value }
    ensures device { d.new ≡ (read_command d.old).device }
{
    let r = &mut d.registers;
    r.modes = 0;
    r.syns = 0;
    r.command
}

// A read of a device in range, where nothing is refused.
#[tactic(auto, unfolding(ins2651_rules::specs::RegisterReads::read_register))]
pub fn read_register(d: &mut Device, address: u8) -> u8
    ensures answer { result ≡ (read_register d.old address).value }
    ensures device { d.new ≡ (read_register d.old address).device }
{
    match address {
        0 => read_holding(d),
        1 => read_status(d),
        2 => read_mode(d),
        _ => read_command(d),
    }
}

// A register read.
#[tactic(auto, unfolding(ins2651_rules::specs::RegisterReads::read, ins2651_rules::specs::RegisterReads::read_register))]
pub fn read(d: &mut Device, address: u8) -> Result<u8, Refusal>
    ensures answer { result ≡ told (RegisterReads.read d.old address).refusal (RegisterReads.read d.old address).value }
    ensures device { d.new ≡ (RegisterReads.read d.old address).device }
{
    check_read(address)?;
    settle(d);
    Ok(read_register(d, address))
}

// == writes ==

fn check_mode1(v: u8) -> Result<(), Refusal>
    ensures { result ≡ told (mode1_refusal v) tt }
{
    match (v % 4, v / 64) {
        (0, _) => Err(Refusal::Synchronous),
        (_, 0) => Err(Refusal::NoStopLength),
        _ => Ok(()),
    }
}

fn check_mode(r: Registers, v: u8) -> Result<(), Refusal>
    ensures { result ≡ told (mode_refusal r v) tt }
{
    if r.modes == 0 {
        return check_mode1(v);
    }
    Ok(())
}

fn check_command(v: u8) -> Result<(), Refusal>
    ensures { result ≡ told (command_refusal v) tt }
{
    if v < 64 {
        return Ok(());
    }
    Err(Refusal::NotNormalOperation)
}

// By the registers of a device in range.
#[tactic(auto, unfolding(ins2651_rules::specs::Refusals::write_refusal))]
pub fn check_write(r: Registers, address: u8, v: u8) -> Result<(), Refusal>
    ensures { result ≡ told (write_refusal r address v) tt }
{
    match address {
        0 | 1 => Ok(()),
        2 => check_mode(r, v),
        3 => check_command(v),
        _ => Err(Refusal::NoSuchAddress),
    }
}

// THR of a device in range.
pub fn write_holding(d: &mut Device, v: u8)
    ensures { d.new ≡ write_holding d.old v }
{
    let happened = (d.sender.full == 0) | (0 < d.flags.empty);
    link::load(&mut d.sender, v);
    d.flags.empty = 0;
    keep_status_if(d, happened); // bits 2 and 0
}

// SYN1, SYN2 and DLE in turn.
fn write_syn(d: &mut Device, v: u8)
    ensures { d.new ≡ write_syn d.old v }
{
    let r = &mut d.registers;
    match r.syns {
        0 => {
            r.syn1 = v;
            r.syns = 1;
        }
        1 => {
            r.syn2 = v;
            r.syns = 2;
        }
        _ => {
            r.dle = v;
            r.syns = 0;
        }
    }
}

// Mode 1 and mode 2 in turn.
fn write_mode(d: &mut Device, v: u8)
    ensures { d.new ≡ write_mode d.old v }
{
    let r = &mut d.registers;
    if r.modes == 0 {
        r.mode1 = v;
        r.accepted = 1;
        r.modes = 1;
    } else {
        r.mode2 = v;
        r.modes = 0;
    }
}

// A command with its bit 4 at 0.
#[tactic(auto, using(crate::proofs::Masks::without_bit_4))]
fn stored(v: u8) -> u8
    ensures { result ≡ RegisterWrites.stored v }
{
    v & !16
}

// Reset error, or receive left off (P1).
fn command_clears(v: u8) -> bool
    ensures { result ≡ Modes.command_clears v }
{
    has(4, v) | !has(2, v)
}

fn command_flags(f: &mut Flags, v: u8)
    ensures { f.new ≡ flags_commanded f.old v }
{
    if command_clears(v) {
        f.framing = 0;
        f.overrun = 0;
        f.parity = 0;
    }
    if !has(0, v) {
        f.empty = 0;
    }
}

fn command_receiver(r: &mut ReceiverHalf, v: u8)
    ensures { r.new ≡ receiver_commanded r.old v }
{
    if !has(2, v) {
        link::drop_character(r);
        link::empty(r);
    }
}

fn write_command(d: &mut Device, v: u8)
    ensures { d.new ≡ write_command d.old v }
{
    d.registers.command = stored(v);
    command_receiver(&mut d.receiver, v);
    command_flags(&mut d.flags, v);
    keep_status(d); // bits 5 to 0
}

// A write of a device in range, where nothing is refused.
#[tactic(auto, unfolding(ins2651_rules::specs::RegisterWrites::write_register))]
pub fn write_register(d: &mut Device, address: u8, v: u8)
    ensures { d.new ≡ write_register d.old address v }
{
    match address {
        0 => write_holding(d, v),
        1 => write_syn(d, v),
        2 => write_mode(d, v),
        _ => write_command(d, v),
    }
}

// A register write. What is refused is judged before the device is made sound, so that a refused one stores nothing.
// (`settle` in two halves: the refusal comes between them, and goes by the registers of a device just reset where this one is out of range.)
#[tactic(auto, unfolding(ins2651_rules::specs::RegisterWrites::write, ins2651_rules::specs::Ranges::settled))]
pub fn write(d: &mut Device, address: u8, value: u8) -> Result<(), Refusal>
    ensures answer { result ≡ told (RegisterWrites.write d.old address value).refusal tt }
    ensures device { d.new ≡ (RegisterWrites.write d.old address value).device }
{
    let sound = in_range(d);
    let registers = if sound {
        d.registers
    } else {
        Registers::default()
    };
    check_write(registers, address, value)?;
    if !sound {
        *d = reset();
    }
    write_register(d, address, value);
    Ok(())
}

// == pins ==

// `check_pins`, `pinned` and `set_pins` take three levels and no `Pins`: C's `ins2651_pins` and the definitions of these names take three.

pub fn check_level(level: u8) -> Result<(), Refusal>
    ensures { result ≡ told (level_refusal level) tt }
{
    if 1 < level {
        return Err(Refusal::NoSuchLevel);
    }
    Ok(())
}

pub fn check_pins(dsr: u8, dcd: u8, cts: u8) -> Result<(), Refusal>
    ensures { result ≡ told (pins_refusal dsr dcd cts) tt }
{
    check_level(dsr)?;
    check_level(dcd)?;
    check_level(cts)
}

fn changes(p: Pins, dsr: u8, dcd: u8) -> bool
    ensures { result ≡ Pinning.changes p dsr dcd }
{
    (p.dsr != dsr) | (p.dcd != dcd)
}

// New levels of a device in range, where none is refused.
#[tactic(auto, unfolding(ins2651_rules::specs::Pinning::pinned))]
pub fn pinned(d: &mut Device, dsr: u8, dcd: u8, cts: u8)
    ensures { d.new ≡ Pinning.pinned d.old dsr dcd cts }
{
    let happened = changes(d.pins, dsr, dcd);
    d.pins = Pins { dsr, dcd, cts };
    if happened {
        d.flags.change = 1;
    }
    keep_status_if(d, happened); // bits 7, 6 and 2
}

// The three modem inputs take new levels.
#[tactic(auto, unfolding(ins2651_rules::specs::Pinning::set_pins))]
pub fn set_pins(d: &mut Device, dsr: u8, dcd: u8, cts: u8) -> Result<(), Refusal>
    ensures answer { result ≡ told (set_pins d.old dsr dcd cts).refusal tt }
    ensures device { d.new ≡ (set_pins d.old dsr dcd cts).device }
{
    check_pins(dsr, dcd, cts)?;
    settle(d);
    pinned(d, dsr, dcd, cts);
    Ok(())
}

// == ticks ==

// A transmit tick of a device in range: the level sent (a number and no `bool`, as `Ticked.level` of specs is one). The empty-mark is set where a
// frame ends with THR empty and transmit enabled; the status is put together where that is so or a frame begins. A run settles its device once.
#[tactic(auto, unfolding(ins2651_rules::specs::Ticks::transmit_tick))]
pub fn transmit_tick(d: &mut Device) -> u8
    ensures answer { result ≡ (transmit_tick d.old).level }
    ensures device { d.new ≡ (transmit_tick d.old).device }
{
    let (ready, broken) = (may_start(d), break_on(d));
    let format = send_format(d.registers);
    let sent = link::transmit(&mut d.sender, ready, broken, format);
    let empties = sent.drained & transmit_enabled(d);
    if empties {
        d.flags.empty = 1;
    }
    keep_status_if(d, sent.began | empties); // bits 2 and 0
    u8::from(sent.level)
}

// A transmit tick: the level sent.
#[tactic(auto, unfolding(ins2651_rules::specs::Ticks::transmit))]
pub fn transmit(d: &mut Device) -> u8
    ensures answer { result ≡ (Ticks.transmit d.old).level }
    ensures device { d.new ≡ (Ticks.transmit d.old).device }
{
    settle(d); // it is never refused
    transmit_tick(d)
}

// What arrives sets flags, and clears none. (Its twin in `way` is over `Faults`, of another type.)
fn note(f: &mut Flags, overrun: bool, heard: Option<Arrival>)
    ensures { f.new ≡ Ticks.noted f.old overrun heard }
{
    if let Some(a) = heard {
        if a.framing {
            f.framing = 1;
        }
        if overrun {
            f.overrun = 1;
        }
        if a.parity {
            f.parity = 1;
        }
    }
}

// A receive tick of a device in range; the status is put together where a character arrives.
#[tactic(auto, unfolding(ins2651_rules::specs::Ticks::receive_tick))]
pub fn receive_tick(d: &mut Device, x: bool)
    ensures { d.new ≡ receive_tick d.old x }
{
    let live = listening(d);
    let format = receive_format(d.registers);
    let tick = link::receive(&mut d.receiver, live, format, x);
    note(&mut d.flags, tick.overrun, tick.heard);
    keep_status_if(d, tick.heard.is_some()); // bits 5, 4, 3 and 1
}

// A receive tick: the level on the line.
#[tactic(auto, unfolding(ins2651_rules::specs::Ticks::receive))]
pub fn receive(d: &mut Device, level: u8) -> Result<(), Refusal>
    ensures answer { result ≡ told (Ticks.receive d.old level).refusal tt }
    ensures device { d.new ≡ (Ticks.receive d.old level).device }
{
    check_level(level)?;
    settle(d);
    receive_tick(d, 0 < level);
    Ok(())
}

// == tallies and stamps (P4): of a device out of range those of one just reset ==

// The receive tally after the stop sample's tick of the character that RHR holds; 0 where none has come since reset.
#[tactic(auto, unfolding(ins2651_rules::specs::Stamps::stamp))]
pub fn stamp(d: &Device) -> RxC
    ensures { result ≡ Stamps.stamp d.now }
{
    look(d, |s| s.receiver.stamp)
}

// The transmit tally after the first tick of the last frame; 0 where none has begun since reset.
#[tactic(auto, unfolding(ins2651_rules::specs::Stamps::start))]
pub fn start(d: &Device) -> TxC
    ensures { result ≡ Stamps.start d.now }
{
    look(d, |s| s.sender.start)
}

// Transmit ticks since reset.
#[tactic(auto, unfolding(ins2651_rules::specs::Stamps::transmit_tally))]
pub fn transmit_tally(d: &Device) -> TxC
    ensures { result ≡ transmit_tally d.now }
{
    look(d, |s| s.sender.tally)
}

// Receive ticks since reset: those that were done.
#[tactic(auto, unfolding(ins2651_rules::specs::Stamps::receive_tally))]
pub fn receive_tally(d: &Device) -> RxC
    ensures { result ≡ receive_tally d.now }
{
    look(d, |s| s.receiver.tally)
}

// == ticks that only count ==

// What such a transmit tick leaves. (Here and in `count_heard` the name says which half: `link` has a `later` for each, as the clocks are two.)
pub fn count_sent(d: &mut Device)
    ensures { d.new ≡ send_counted d.old }
{
    link::sender_later(&mut d.sender, 1);
}

// What such a receive tick leaves.
pub fn count_heard(d: &mut Device)
    ensures { d.new ≡ hear_counted d.old }
{
    link::receiver_later(&mut d.receiver, 1);
}

// What n of both leave.
pub fn later(d: &mut Device, n: u16)
    ensures { d.new ≡ device_later n d.old }
{
    link::sender_later(&mut d.sender, n);
    link::receiver_later(&mut d.receiver, n);
}

// Nothing may start. (Beside `sender_stands` of `way`, which a break may pass: docs/DECISIONS.md says why `rests` and `stands` are two tests.)
fn idle(s: SenderHalf, ready: bool, broken: bool) -> bool
    ensures { result ≡ Still.idle s ready broken }
{
    !(ready & broken) & (s.guard == 0) & !(ready & (0 < s.full))
}

// A transmit tick of it sends 1 and only counts.
#[tactic(auto, unfolding(ins2651_rules::specs::Still::rests))]
pub fn rests(d: &Device) -> bool
    ensures { result ≡ Still.rests d.now }
{
    (d.sender.frame.place == 0) & idle(d.sender, may_start(d), break_on(d))
}

// A receive tick of it with this level only counts, where it is in range.
#[tactic(auto, unfolding(ins2651_rules::specs::Still::searches))]
pub fn searches(d: &Device, x: u8) -> bool
    ensures { result ≡ Still.searches d.now x }
{
    (0 < x) & listening(d) & (d.receiver.state.phase == 1)
}

// Both do.
#[tactic(auto, unfolding(ins2651_rules::specs::Still::still))]
pub fn still(d: &Device, x: u8) -> bool
    ensures { result ≡ Still.still d.now x }
{
    searches(d, x) & rests(d)
}
