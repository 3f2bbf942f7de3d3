// Two chips joined, to copy: a character goes from unit a to unit b. README.md shows these lines from `use` on.
#![tactic(auto)]

use ins2651_rules::Refusal;
use joined_rules::{Pair, TooLong, Unit};
use std::io;
use thiserror::Error;

#[derive(Debug, Drop, Error)]
enum Refused {
    #[error("a call is refused: {0:?}")]
    Call(#[from] Refusal),
    #[error("a run is refused: {0:?}")]
    Run(#[from] TooLong),
}

fn pass(character: u8) -> Result<u8, Refused> {
    let mut chip = ins2651::reset();
    ins2651::write(&mut chip, 2, 77)?; // mode 1: 8 bits, no parity, 1 stop bit, one tick a bit
    ins2651::write(&mut chip, 3, 5)?; // transmit and receive enabled
    ins2651::set_pins(&mut chip, 0, 0, 0)?; // DSR, DCD and CTS low
    let mut pair = Pair { a: chip, b: chip };
    joined::run(&mut pair, 1)?; // a tick of mark comes first
    ins2651::write(&mut pair.a, 0, character)?; // a character to send
    joined::wait(&mut pair, Unit::B, 65535)?; // until it has come: 1+D joined ticks
    Ok(ins2651::read(&mut pair.b, 0)?)
}

fn main(rt: HostRuntime) -> io::Result<()> {
    match pass(65) {
        Ok(got) => println!(rt; "{got}"), // 65
        Err(refused) => println!(rt; "{refused}"),
    }
}
