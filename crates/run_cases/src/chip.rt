// The bench cases on one device.
use super::failed::Failed;
use ins2651_rules::{Device, Refusal};
use line_rules::Format;

pub(crate) fn show(rt: &impl Print, d: &mut Device, address: u8) -> Result<(), Failed> {
    match ins2651::read(d, address) {
        Ok(value) => print!(rt; "R\t{address}\t0\t{value}")?,
        Err(refusal) => print!(rt; "R\t{address}\t{}\t0", u8::from(refusal))?,
    }
    if address == 0 {
        print!(rt; "\t{}", ins2651::stamp(d).0)?;
    }
    println!(rt; "")?;
    Ok(())
}

// The start of the last frame, and both tallies.
pub(crate) fn clocks(rt: &impl Print, d: &Device) -> Result<(), Failed> {
    let start = ins2651::start(d).0;
    let transmitted = ins2651::transmit_tally(d).0;
    let received = ins2651::receive_tally(d).0;
    println!(rt; "S\t{start}\t{transmitted}\t{received}")?;
    Ok(())
}

// Document 01's set-up: reset, both modes, a command, pins low.
pub(crate) fn set_up(mode1: u8, mode2: u8, command: u8) -> Result<Device, Refusal> {
    let mut d = ins2651::reset();
    ins2651::write(&mut d, 2, mode1)?;
    ins2651::write(&mut d, 2, mode2)?;
    ins2651::write(&mut d, 3, command)?;
    ins2651::set_pins(&mut d, 0, 0, 0)?;
    Ok(d)
}

// The same to receive only, with both clocks external, and then some ticks at mark.
fn set_up_to_hear(mode1: u8, marks: u32) -> Result<Device, Refusal> {
    let mut d = set_up(mode1, 0, 4)?;
    hear(&mut d, 1, marks)?;
    Ok(d)
}

fn hear(d: &mut Device, level: u8, n: u32) -> Result<(), Refusal> {
    for _ in 0..n {
        ins2651::receive(d, level)?;
    }
    Ok(())
}

// A frame of eight bits at one tick a bit.
fn hear_frame(d: &mut Device, c: u8) -> Result<(), Refusal> {
    let f = Format {
        factor: 1,
        length: 8,
        parity: 0,
        even: 0,
        stop: 1,
    };
    for place in 0..10 {
        ins2651::receive(d, u8::from(line::level(f, c, place)))?;
    }
    Ok(())
}

fn send(d: &mut Device, n: u32) {
    for _ in 0..n {
        ins2651::transmit(d);
    }
}

fn two_unread(rt: &impl Print) -> Result<(), Failed> {
    println!(rt; "K\tunread")?;
    let mut d = set_up_to_hear(77, 1)?;
    hear_frame(&mut d, 65)?;
    hear_frame(&mut d, 66)?;
    for address in [1, 0, 1] {
        show(rt, &mut d, address)?;
    }
    Ok(())
}

fn addresses_3_and_4(rt: &impl Print) -> Result<(), Failed> {
    println!(rt; "K\taddresses")?;
    let mut d = ins2651::reset();
    show(rt, &mut d, 3)?;
    show(rt, &mut d, 4)
}

fn zeros(rt: &impl Print, n: u32) -> Result<(), Failed> {
    println!(rt; "K\tzeros{n}")?;
    let mut d = set_up_to_hear(79, 1)?;
    hear(&mut d, 0, n)?;
    hear(&mut d, 1, 1000)?;
    for address in [1, 0, 1] {
        show(rt, &mut d, address)?;
    }
    Ok(())
}

fn short_pulse(rt: &impl Print) -> Result<(), Failed> {
    println!(rt; "K\tpulse")?;
    let mut d = set_up_to_hear(78, 100)?;
    hear(&mut d, 0, 3)?;
    hear(&mut d, 1, 1000)?;
    show(rt, &mut d, 1)?;
    show(rt, &mut d, 0)
}

// A stamp stays with its character, read twice, emptied and while receive is off; a refused tick counts nothing.
fn stamps(rt: &impl Print) -> Result<(), Failed> {
    println!(rt; "K\tstamps")?;
    let mut d = set_up_to_hear(77, 1)?;
    hear_frame(&mut d, 65)?;
    show(rt, &mut d, 0)?;
    show(rt, &mut d, 0)?;
    hear_frame(&mut d, 66)?;
    ins2651::write(&mut d, 3, 0)?;
    hear(&mut d, 0, 5)?;
    show(rt, &mut d, 0)?;
    ins2651::write(&mut d, 3, 4)?;
    hear(&mut d, 1, 1)?;
    hear_frame(&mut d, 67)?;
    let _ = ins2651::receive(&mut d, 2); // refused, as 2 is no level
    show(rt, &mut d, 0)?;
    clocks(rt, &d)
}

// A frame's start stays to the next one's; a break begins none, and a reset drops it.
fn starts(rt: &impl Print) -> Result<(), Failed> {
    println!(rt; "K\tstarts")?;
    let mut d = set_up(77, 0, 13)?;
    send(&mut d, 3);
    ins2651::write(&mut d, 3, 5)?;
    ins2651::write(&mut d, 0, 65)?;
    for n in [1, 1, 12] {
        send(&mut d, n);
        clocks(rt, &d)?;
    }
    ins2651::write(&mut d, 0, 66)?;
    send(&mut d, 1);
    clocks(rt, &d)?;
    let mut fresh = ins2651::reset();
    clocks(rt, &fresh)?;
    show(rt, &mut fresh, 0)
}

pub(crate) fn cases(rt: &impl Print) -> Result<(), Failed> {
    two_unread(rt)?;
    addresses_3_and_4(rt)?;
    zeros(rt, 32)?;
    zeros(rt, 33)?;
    short_pulse(rt)?;
    stamps(rt)?;
    starts(rt)
}
