// Document 01's bench cases that are run, on one device and on two joined, and recordings drawn at random, read by the receiver; all
// written out for comparison.
#![tactic(auto)]

use failed::Failed;
use line_rules::Format;
use std::io;

mod chip;
mod failed;
mod joined_chips;
mod recordings;

// A format with no parity and one stop bit.
fn plain(factor: u8) -> Format {
    Format {
        factor,
        length: 8,
        parity: 0,
        even: 0,
        stop: factor,
    }
}

fn cases(rt: &impl Print) -> Result<(), Failed> {
    recordings::pulses(rt, plain(64), &[32])?;
    recordings::pulses(rt, plain(64), &[33])?;
    recordings::pulses(rt, plain(16), &[8, 9])?;
    recordings::sweeps(rt)?;
    chip::cases(rt)?;
    joined_chips::cases(rt)
}

fn main(rt: HostRuntime) -> io::Result<()> {
    match cases(&rt) {
        Ok(()) => Ok(()),
        Err(Failed::Unwritten(error)) => Err(error),
        Err(refused) => println!(rt; "{refused}"),
    }
}
