// Calls of the chip drawn at random, and what each answered in one sum, for comparison with the independent model.
#![tactic(auto)]

use draws::{Draws, Sum};
use ins2651_rules::{Device, Refusal};
use std::io;

// A run of calls: the device, what is drawn, how many calls, how many of them refused, and a sum over the answers.
#[derive(Drop)]
struct Calls {
    device: Device,
    draws: Draws,
    calls: u32,
    refused: u32,
    sum: Sum,
}

impl Calls {
    fn begun(seed: u32) -> Calls {
        Calls {
            device: ins2651::reset(),
            draws: Draws { last: seed },
            calls: 0,
            refused: 0,
            sum: Sum::default(),
        }
    }

    fn mix(&mut self, answer: u8) {
        self.sum.mix(u32::from(answer));
    }

    // == the calls ==

    // One that is never refused.
    fn taken(&mut self) {
        self.calls = self.calls.wrapping_add(1);
    }

    // One that may be: its refusal's number goes into the sum, 0 where it was taken.
    fn answered<T: Drop>(&mut self, answer: &Result<T, Refusal>) {
        self.taken();
        match answer {
            Ok(_) => self.mix(0),
            Err(refusal) => {
                self.refused = self.refused.wrapping_add(1);
                self.mix(u8::from(*refusal));
            }
        }
    }

    // A read of address 0 answers the stamps of the held character and of the last frame too (P4).
    fn read(&mut self, address: u8) {
        let answer = ins2651::read(&mut self.device, address);
        self.answered(&answer);
        self.mix(answer.unwrap_or(0));
        if address == 0 {
            self.sum.mix(ins2651::stamp(&self.device).0);
            self.sum.mix(ins2651::start(&self.device).0);
        }
    }

    fn write(&mut self, address: u8, value: u8) {
        let answer = ins2651::write(&mut self.device, address, value);
        self.answered(&answer);
    }

    fn set_pins(&mut self, dsr: u8, dcd: u8, cts: u8) {
        let answer = ins2651::set_pins(&mut self.device, dsr, dcd, cts);
        self.answered(&answer);
    }

    fn receive(&mut self, level: u8) {
        let answer = ins2651::receive(&mut self.device, level);
        self.answered(&answer);
    }

    fn transmit(&mut self) -> u8 {
        let level = ins2651::transmit(&mut self.device);
        self.taken();
        self.mix(level);
        level
    }

    fn reset(&mut self) {
        self.device = ins2651::reset();
        self.taken();
    }

    // The five outputs, and the status byte that the device keeps (P7).
    fn outputs(&mut self) {
        let o = ins2651::outputs(&self.device);
        self.taken();
        for answer in [o.txrdy, o.rxrdy, o.txemt, o.dtr, o.rts, self.device.status] {
            self.mix(answer);
        }
    }

    // == what is drawn ==

    // At most `most` transmit ticks whose levels go back to the receiver, at least one.
    fn burst(&mut self, most: u32) {
        for _ in 0..=self.draws.below(most) {
            let level = self.transmit();
            self.receive(level);
        }
    }

    fn transmits(&mut self) {
        for _ in 0..=self.draws.below(200) {
            self.transmit();
        }
    }

    fn receives(&mut self) {
        let more = self.draws.below(200);
        let level = self.draws.byte(2);
        for _ in 0..=more {
            self.receive(level);
        }
    }

    fn maybe_reset(&mut self) {
        if self.draws.below(4) == 0 {
            self.reset();
        }
    }

    fn any_read(&mut self) {
        let address = self.draws.byte(5);
        self.read(address);
    }

    fn any_write(&mut self) {
        let address = self.draws.byte(5);
        self.any_value(address);
    }

    fn any_value(&mut self, address: u8) {
        let value = self.draws.byte(256);
        self.write(address, value);
    }

    fn any_level(&mut self) {
        let level = self.draws.byte(4);
        self.receive(level);
    }

    fn command(&mut self) {
        match self.draws.below(4) {
            0 => self.any_value(3),
            _ => self.write(3, 39),
        }
    }

    fn pins(&mut self) {
        if self.draws.below(4) == 0 {
            let dsr = self.draws.byte(3);
            let dcd = self.draws.byte(3);
            let cts = self.draws.byte(3);
            self.set_pins(dsr, dcd, cts);
        } else {
            self.set_pins(0, 0, 0);
        }
    }

    // Both modes from the first on, mode 1 one that is accepted.
    fn modes(&mut self) {
        self.read(3);
        let stop = self.draws.byte(3);
        let middle = self.draws.byte(16);
        let factor = self.draws.byte(3);
        self.write(2, 64 * stop + 4 * middle + factor + 65);
        self.any_value(2);
    }

    // A break, a character that waits behind it, and its end.
    fn broken(&mut self) {
        self.write(3, 47);
        self.burst(40);
        self.any_value(0);
        self.write(3, 39);
        self.burst(40);
    }

    // Receive off, DCD high or CTS high for a few ticks.
    fn disturbed(&mut self) {
        match self.draws.below(3) {
            0 => self.write(3, 35),
            1 => self.set_pins(0, 1, 0),
            _ => self.set_pins(0, 0, 1),
        }
        self.burst(3);
        self.write(3, 39);
        self.set_pins(0, 0, 0);
    }

    // By number and not from a table of closures: the steps differ in what they are called with.
    fn step(&mut self) {
        match self.draws.below(64) {
            0 => self.maybe_reset(),
            1..=3 => self.any_read(),
            4..=5 => self.any_value(0),
            6 => self.any_write(),
            7 => self.any_value(2),
            8 => self.command(),
            9 => self.pins(),
            10 => self.modes(),
            11 => self.transmits(),
            12 => self.receives(),
            13 => self.any_level(),
            14 => self.broken(),
            15 => self.disturbed(),
            16 => self.burst(900),
            _ => self.burst(40),
        }
    }
}

// Both stamps, both tallies and the status byte.
fn show_kept(rt: &impl Print, d: &Device) -> io::Result<()> {
    let held = ins2651::stamp(d).0;
    let sent = ins2651::start(d).0;
    let transmitted = ins2651::transmit_tally(d).0;
    let received = ins2651::receive_tally(d).0;
    let status = d.status;
    println!(rt; "T\t{held}\t{sent}\t{transmitted}\t{received}\t{status}")
}

fn run(rt: &impl Print, number: u32) -> io::Result<()> {
    let mut c = Calls::begun(number.wrapping_add(1));
    for _ in 0..500 {
        c.step();
        c.outputs();
    }
    c.read(1);
    c.read(0);
    println!(rt; "Q\t{number}\t{}\t{}\t{}", c.calls, c.refused, c.sum.value)?;
    show_kept(rt, &c.device)
}

fn main(rt: HostRuntime) -> io::Result<()> {
    for number in 0..64 {
        run(&rt, number)?;
    }
    Ok(())
}
