// Polls of the status of settled devices: 65,536 for each byte of the input, spread over sixteen devices. It writes the sum of what they
// answered. tests/speed/polls/run measures it.
#![tactic(auto)]

ghost use Rattle.std.specs.Prelude.{◌≤◌, IfOk};

use draws::Draws;
use ins2651_rules::{Device, Refusal};
use std::io;
use std::io::Read;

// A device in range, whose status depends on n.
fn set_up(n: u8) -> Result<Device, Refusal> {
    let mut d = ins2651::reset();
    ins2651::set_pins(&mut d, n % 2, n / 2 % 2, 0)?;
    ins2651::read(&mut d, 1)?; // the change-mark is read, so that a poll changes nothing
    ins2651::write(&mut d, 2, 77)?;
    ins2651::write(&mut d, 3, 4 + n / 4 % 2)?;
    if n < 8 {
        ins2651::write(&mut d, 0, n)?;
    }
    Ok(d)
}

fn polls(devices: &[Device; 16], n: u64) -> u32 {
    let mut draws = Draws { last: 615934122 }; // 1 comes next
    let mut sum = 0u32;
    for _ in 0..n {
        let mut d = devices[usize::from(draws.byte(16))]; // a copy: in place each poll would store the mark
        sum = sum.wrapping_add(u32::from(ins2651::read_status(&mut d)));
    }
    sum
}

// How many bytes the input has, of which no more than 65,536 are read.
fn batches<R: Read>(input: &mut R) -> io::Result<usize>
    ensures { IfOk result (λ n. n ≤ 65536) }
{
    let mut space = [0u8; 65536];
    let mut room = &mut space[..];
    while !room.is_empty() {
        let n = input.read(room)?;
        if n == 0 {
            break;
        }
        room = &mut room[n..];
    }
    let count = 65536 - room.len();
    Ok(count)
}

fn main(rt: HostRuntime) -> io::Result<()> {
    let batches = batches(&mut rt.stdin())?;
    // written out: `array::from_fn` gives places of `usize`, each of which would be cast
    let numbers: [u8; 16] = [0, 1, 2, 3, 4, 5, 6, 7, 8, 9, 10, 11, 12, 13, 14, 15];
    match numbers.try_map(set_up) {
        Ok(devices) => {
            let sum = polls(&devices, (batches % 65536) as u64 * 65536); // so that the count fits; no `u64` is `From<usize>`
            println!(rt; "{sum}")
        }
        Err(refusal) => println!(rt; "refused: {refusal:?}"),
    }
}
