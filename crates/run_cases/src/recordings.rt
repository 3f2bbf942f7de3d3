// Recordings of a line, read by the receiver: pulses around what a stop sample sees, and pieces of line drawn at random.
use draws::{Draws, Sum};
use line_rules::{Arrival, Format, Receiver, RxC};
use std::{fmt, io};

// A format by its fields, as a line of the output has them.
#[derive(Drop)]
struct Columns(Format);

impl fmt::Display for Columns {
    fn fmt<W: fmt::Write>(&self, out: &mut fmt::Formatter<W>) -> fmt::Result {
        let f = self.0;
        write!(
            out,
            "{}\t{}\t{}\t{}\t{}",
            f.factor, f.length, f.parity, f.even, f.stop
        )
    }
}

// The flags at their places in the status register: framing 5, parity 3.
fn flags(a: Arrival) -> u8 {
    u8::from(a.framing) << 5 | u8::from(a.parity) << 3
}

// What becomes of the characters that a recording brings.
trait Hears {
    fn hear(&mut self, a: Arrival) -> io::Result<()>;
}

// Each is written out.
#[derive(Drop)]
struct Listing<'a, P> {
    rt: &'a P,
}

impl<P: Print> Hears for Listing<'_, P> {
    fn hear(&mut self, a: Arrival) -> io::Result<()> {
        println!(self.rt; "C\t{}\t{}\t{}", a.stamp.0, a.value, flags(a))
    }
}

// They are counted, with a sum over them.
#[derive(Drop)]
struct Counting {
    characters: u32,
    sum: Sum,
}

impl Hears for Counting {
    fn hear(&mut self, a: Arrival) -> io::Result<()> {
        self.characters = self.characters.wrapping_add(1);
        self.sum.mix(a.stamp.0);
        self.sum.mix(u32::from(a.value));
        self.sum.mix(u32::from(flags(a)));
        Ok(())
    }
}

// A recording while it is read in a format: the receiver, the samples so far, which are the receive tally, and what hears the characters.
#[derive(Drop)]
struct Recording<H> {
    format: Format,
    receiver: Receiver,
    samples: RxC,
    ear: H,
}

impl<H: Hears> Recording<H> {
    fn begun(format: Format, ear: H) -> Recording<H> {
        Recording {
            format,
            receiver: line::waiting(),
            samples: RxC(0),
            ear,
        }
    }

    fn take(&mut self, level: bool) -> io::Result<()> {
        self.samples = line::rx_later(self.samples, 1);
        let s = line::sample(self.format, self.receiver, level, self.samples);
        self.receiver = s.next;
        match s.heard {
            Some(a) => self.ear.hear(a),
            None => Ok(()),
        }
    }

    fn hold(&mut self, level: bool, n: u32) -> io::Result<()> {
        for _ in 0..n {
            self.take(level)?;
        }
        Ok(())
    }

    // The first n levels of a frame of c in the format g.
    fn frame(&mut self, g: Format, c: u8, n: u32) -> io::Result<()> {
        for (place, _) in (0..=u16::MAX).zip(0..n) {
            self.take(line::level(g, c, place))?;
        }
        Ok(())
    }
}

// Mark, pulses of so many zeros with a 1 between them, which may serve as the mark for the next one, then ones.
pub(crate) fn pulses(rt: &impl Print, f: Format, zeros: &[u8]) -> io::Result<()> {
    print!(rt; "R\t{}", Columns(f))?;
    for n in zeros {
        print!(rt; "\t{n}")?;
    }
    println!(rt; "")?;
    let mut line = Recording::begun(f, Listing { rt });
    line.take(true)?;
    for n in zeros {
        line.hold(false, u32::from(*n))?;
        line.take(true)?;
    }
    line.hold(true, 999)
}

// == drawn ==

fn other_parity(f: Format) -> Format {
    Format {
        even: u8::from(f.even != 1),
        ..f
    }
}

// A recording of pieces that are drawn.
#[derive(Drop)]
struct Sweep<'a> {
    line: Recording<Counting>,
    draws: &'a mut Draws,
}

impl Sweep<'_> {
    fn frame(&mut self, g: Format) -> io::Result<()> {
        let c = self.draws.byte(256);
        self.line.frame(g, c, line::frame_length(g))
    }

    fn cut_frame(&mut self) -> io::Result<()> {
        let f = self.line.format;
        let c = self.draws.byte(256);
        let n = self.draws.below(line::frame_length(f));
        self.line.frame(f, c, n)
    }

    fn noise(&mut self) -> io::Result<()> {
        let level = self.draws.below(2) == 1;
        let n = self.draws.below(u32::from(self.line.format.factor));
        self.line.hold(level, n + 1)
    }

    fn mark(&mut self) -> io::Result<()> {
        let n = self.draws.below(u32::from(self.line.format.factor) * 3);
        self.line.hold(true, n + 1)
    }

    // Half a start bit, and the single 1 that makes it a false start.
    fn false_start(&mut self) -> io::Result<()> {
        let n = line::half(self.line.format);
        self.line.hold(false, u32::from(n))?;
        self.line.take(true)
    }

    // By number and not from a table of closures: the pieces differ in what they are called with.
    fn piece(&mut self) -> io::Result<()> {
        let f = self.line.format;
        match self.draws.below(6) {
            0 => self.mark(),
            1 => self.frame(f),
            2 => self.frame(other_parity(f)),
            3 => self.cut_frame(),
            4 => self.noise(),
            _ => self.false_start(),
        }
    }
}

// Forty pieces of line, drawn and read.
fn read_drawn(rt: &impl Print, f: Format, draws: &mut Draws) -> io::Result<()> {
    let nothing = Counting {
        characters: 0,
        sum: Sum::default(),
    };
    let mut s = Sweep {
        line: Recording::begun(f, nothing),
        draws,
    };
    for _ in 0..40 {
        s.piece()?;
    }
    let heard = &s.line.ear;
    println!(rt;
        "V\t{}\t{}\t{}",
        Columns(f),
        heard.characters,
        heard.sum.value
    )
}

// The stop lengths with a factor; one and a half stop bits come where a bit has half of its ticks.
fn stops(factor: u8) -> &'static [u8] {
    match factor {
        1 => &[1, 2],
        16 => &[16, 24, 32],
        _ => &[64, 96, 128],
    }
}

// A recording in each format.
pub(crate) fn sweeps(rt: &impl Print) -> io::Result<()> {
    let mut draws = Draws { last: 1 };
    for factor in [1, 16, 64] {
        for length in 5..=8 {
            for (parity, even) in [(0, 0), (0, 1), (1, 0), (1, 1)] {
                for stop in stops(factor) {
                    let f = Format {
                        factor,
                        length,
                        parity,
                        even,
                        stop: *stop,
                    };
                    read_drawn(rt, f, &mut draws)?;
                }
            }
        }
    }
    Ok(())
}
