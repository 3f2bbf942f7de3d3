// The bench cases on two devices joined.
use super::chip::{clocks, set_up, show};
use super::failed::Failed;
use ins2651_rules::Device;
use joined_rules::Pair;

// Two devices that send and hear, after the one joined tick of document 01's set-up.
fn marked(a: Device, b: Device) -> Result<Pair, Failed> {
    let mut p = Pair { a, b };
    joined::run(&mut p, 1)?;
    Ok(p)
}

fn show_each(rt: &impl Print, d: &mut Device, addresses: &[u8]) -> Result<(), Failed> {
    for address in addresses {
        show(rt, d, *address)?;
    }
    Ok(())
}

fn show_clocks(rt: &impl Print, p: &Pair) -> Result<(), Failed> {
    clocks(rt, &p.a)?;
    clocks(rt, &p.b)
}

// Document 01's session: the character is not there after 152 ticks, and is there after 153.
fn worked_session(rt: &impl Print) -> Result<(), Failed> {
    println!(rt; "K\tsession")?;
    let mut p = marked(set_up(206, 126, 39)?, set_up(206, 126, 39)?)?;
    ins2651::write(&mut p.a, 0, 255)?;
    joined::run(&mut p, 152)?;
    show(rt, &mut p.b, 1)?;
    joined::run(&mut p, 1)?;
    show_each(rt, &mut p.b, &[1, 0, 1])?;
    show_clocks(rt, &p)
}

// The fault code 255 sent with even parity (126) and received with odd (94); a good weight after it, with the mode mended.
// The good weight leaves the parity flag, reset error clears it.
fn fault_code(rt: &impl Print) -> Result<(), Failed> {
    println!(rt; "K\tfault")?;
    let mut p = marked(set_up(126, 0, 5)?, set_up(94, 0, 5)?)?;
    ins2651::write(&mut p.a, 0, 255)?;
    joined::run(&mut p, 176)?;
    show_each(rt, &mut p.b, &[1, 0])?;
    ins2651::write(&mut p.a, 2, 94)?;
    ins2651::write(&mut p.a, 0, 100)?;
    joined::run(&mut p, 176)?;
    show_each(rt, &mut p.b, &[1, 0, 1])?;
    ins2651::write(&mut p.b, 3, 21)?;
    show(rt, &mut p.b, 1)?;
    show_clocks(rt, &p)
}

pub(crate) fn cases(rt: &impl Print) -> Result<(), Failed> {
    worked_session(rt)?;
    fault_code(rt)
}
