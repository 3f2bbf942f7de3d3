// The C archive of `host`: each export is the call of that name there, with its contract again, since C knows it by this name.
// include/ins2651.h is C's view.
#![tactic(auto)]

ghost use Rattle.std.specs.Prelude.{◌≡◌};
ghost use Rattle.line_rules.specs.Sending.{bit};
ghost use Rattle.ins2651_rules.specs.Shape.{reset_device};
ghost use Rattle.ins2651_rules.specs.Ranges.{in_range};
ghost use Rattle.ins2651_rules.specs.RegisterReads;
ghost use Rattle.ins2651_rules.specs.RegisterWrites;
ghost use Rattle.ins2651_rules.specs.Pinning.{set_pins};
ghost use Rattle.ins2651_rules.specs.Ticks;
ghost use Rattle.ins2651_rules.specs.Looks;
ghost use Rattle.ins2651_rules.specs.Stamps;
ghost use Rattle.host.specs.Replies.{word, levels};

use ins2651_rules::Device;

// Resets the device; answers 0.
#[unsafe(no_mangle)]
pub extern "C" fn ins2651_reset(d: &mut Device) -> u16
    ensures answer { result ≡ 0 }
    ensures device { d.new ≡ reset_device }
{
    host::ins2651_reset(d)
}

// Reads a register; answers 256 times the refusal, and the value.
#[unsafe(no_mangle)]
pub extern "C" fn ins2651_read(d: &mut Device, address: u8) -> u16
    ensures answer { result ≡ word (RegisterReads.read d.old address) }
    ensures device { d.new ≡ (RegisterReads.read d.old address).device }
{
    host::ins2651_read(d, address)
}

// Writes a register; answers its refusal.
#[unsafe(no_mangle)]
pub extern "C" fn ins2651_write(d: &mut Device, address: u8, value: u8) -> u16
    ensures answer { result ≡ (RegisterWrites.write d.old address value).refusal }
    ensures device { d.new ≡ (RegisterWrites.write d.old address value).device }
{
    host::ins2651_write(d, address, value)
}

// Sets the three modem inputs; answers its refusal.
#[unsafe(no_mangle)]
pub extern "C" fn ins2651_pins(d: &mut Device, dsr: u8, dcd: u8, cts: u8) -> u16
    ensures answer { result ≡ (set_pins d.old dsr dcd cts).refusal }
    ensures device { d.new ≡ (set_pins d.old dsr dcd cts).device }
{
    host::ins2651_pins(d, dsr, dcd, cts)
}

// A transmit tick; answers the level that it sends.
#[unsafe(no_mangle)]
pub extern "C" fn ins2651_transmit(d: &mut Device) -> u16
    ensures answer { result ≡ (Ticks.transmit d.old).level }
    ensures device { d.new ≡ (Ticks.transmit d.old).device }
{
    host::ins2651_transmit(d)
}

// A receive tick with the line at a level; answers its refusal.
#[unsafe(no_mangle)]
pub extern "C" fn ins2651_receive(d: &mut Device, level: u8) -> u16
    ensures answer { result ≡ (Ticks.receive d.old level).refusal }
    ensures device { d.new ≡ (Ticks.receive d.old level).device }
{
    host::ins2651_receive(d, level)
}

// A receive tick with the line at a level, then a transmit tick; answers 256 times the refusal, and the level that it sends.
#[unsafe(no_mangle)]
pub extern "C" fn ins2651_tick(d: &mut Device, level: u8) -> u16
    ensures answer { result ≡ word (Ticks.tick d.old level) }
    ensures device { d.new ≡ (Ticks.tick d.old level).device }
{
    host::ins2651_tick(d, level)
}

// The levels of the outputs, as the bits of one number; the device stays as it is, in range or not.
#[unsafe(no_mangle)]
pub extern "C" fn ins2651_outputs(d: &mut Device) -> u16
    ensures answer { result ≡ levels (Looks.outputs d.old) }
    ensures device { d.new ≡ d.old }
{
    host::ins2651_outputs(d)
}

// The status, which is not read; the device stays as it is, in range or not.
#[unsafe(no_mangle)]
pub extern "C" fn ins2651_peek(d: &mut Device) -> u16
    ensures answer { result ≡ Looks.peek d.old }
    ensures device { d.new ≡ d.old }
{
    host::ins2651_peek(d)
}

// 1 where the device is in range, else 0; it stays as it is.
#[unsafe(no_mangle)]
pub extern "C" fn ins2651_in_range(d: &mut Device) -> u16
    ensures answer { result ≡ bit (in_range d.old) }
    ensures device { d.new ≡ d.old }
{
    host::ins2651_in_range(d)
}

// The stamp of the character that a read of address 0 gives (P4). Here and in the next three the device stays as it is, in range or not.
#[unsafe(no_mangle)]
pub extern "C" fn ins2651_stamp(d: &mut Device) -> u32
    ensures answer { result ≡ (Stamps.stamp d.old).0 }
    ensures device { d.new ≡ d.old }
{
    host::ins2651_stamp(d)
}

// The transmit tally after the first tick of the last frame.
#[unsafe(no_mangle)]
pub extern "C" fn ins2651_start(d: &mut Device) -> u32
    ensures answer { result ≡ (Stamps.start d.old).0 }
    ensures device { d.new ≡ d.old }
{
    host::ins2651_start(d)
}

// Transmit ticks since reset.
#[unsafe(no_mangle)]
pub extern "C" fn ins2651_transmit_tally(d: &mut Device) -> u32
    ensures answer { result ≡ (Stamps.transmit_tally d.old).0 }
    ensures device { d.new ≡ d.old }
{
    host::ins2651_transmit_tally(d)
}

// Receive ticks since reset.
#[unsafe(no_mangle)]
pub extern "C" fn ins2651_receive_tally(d: &mut Device) -> u32
    ensures answer { result ≡ (Stamps.receive_tally d.old).0 }
    ensures device { d.new ≡ d.old }
{
    host::ins2651_receive_tally(d)
}
