// Two devices joined by a line, by document 01, "Receiving, by receive ticks", and requests P9 and P12. specs/ says what a joined tick, a run
// and a wait are and what demand 3 promises, proofs/ that it holds; the calls themselves are `joined`'s. No code stands here but that of the
// types, so that a wrong definition or statement is refused without proving the calls again.
#![tactic(auto)]

ghost use Rattle.std.specs.Prelude.{◌≡◌};
ghost use Rattle.joined_rules.specs.Refused.{number};

use ins2651_rules::Device;
pub use line_rules::Unit;

// The device `a` at one end of the line and `b` at the other.
#[repr(C)]
#[derive(Clone, Copy)]
pub struct Pair {
    pub a: Device,
    pub b: Device,
}

// The levels that both devices sent. (Numbers and no `bool`s: `levels` of specs/Joining.antt gives each as a level, 0 or 1.)
#[derive(Clone, Copy, Debug, PartialEq, Eq)]
pub struct Levels {
    pub a: u8,
    pub b: u8,
}

// Why a call is refused: it is to do more than 65535 joined ticks.
#[derive(Clone, Copy, Debug, PartialEq, Eq)]
pub enum TooLong {
    Run,
    Wait,
}

// Document 01's number.
impl From<TooLong> for u8 {
    ghost from_gives = { λ call n. n ≡ number call };

    fn from(call: TooLong) -> u8 {
        match call {
            TooLong::Run => 16,
            TooLong::Wait => 21,
        }
    }
}
