// The INS2651 by its sheet: the device and its parts. specs/ says what each call does to it, proofs/ what that comes to over runs of calls;
// the calls themselves are `ins2651`'s. No code of theirs stands here, so that a wrong definition is refused without proving the calls again.
#![tactic(auto)]

ghost use Rattle.std.specs.Prelude.{◌≡◌};
ghost use Rattle.ins2651_rules.specs.Refusals;

use link_rules::{ReceiverHalf, SenderHalf};

// Pointers, levels, flags and marks stay bytes in all that C lends (include/ins2651.h), where every call takes any number: no enums, no bools.

// `accepted` is 1 once a mode 1 was accepted since reset; `modes` and `syns` are the two pointers.
#[repr(C)]
#[derive(Clone, Copy, Default)]
pub struct Registers {
    pub mode1: u8,
    pub mode2: u8,
    pub accepted: u8,
    pub command: u8,
    pub syn1: u8,
    pub syn2: u8,
    pub dle: u8,
    pub modes: u8,
    pub syns: u8,
}

// The levels of the three modem inputs.
#[repr(C)]
#[derive(Clone, Copy)]
pub struct Pins {
    pub dsr: u8,
    pub dcd: u8,
    pub cts: u8,
}

// The three error flags, the empty-mark and the change-mark.
#[repr(C)]
#[derive(Clone, Copy, Default)]
pub struct Flags {
    pub framing: u8,
    pub overrun: u8,
    pub parity: u8,
    pub empty: u8,
    pub change: u8,
}

// `status` is the status byte, which every call keeps (P7).
#[repr(C)]
#[derive(Clone, Copy)]
pub struct Device {
    pub registers: Registers,
    pub pins: Pins,
    pub sender: SenderHalf,
    pub receiver: ReceiverHalf,
    pub flags: Flags,
    pub status: u8,
}

// Why a call is refused: the rows of document 01, "Refusal numbers".
#[derive(Clone, Copy, Debug, PartialEq, Eq)]
pub enum Refusal {
    NoSuchAddress,
    NoSuchLevel,
    NoStopLength,
    Synchronous,
    NotNormalOperation,
}

impl From<Refusal> for u8 {
    ghost from_gives = { λ refusal n. n ≡ Refusals.number refusal };

    fn from(refusal: Refusal) -> u8 {
        match refusal {
            Refusal::NoSuchAddress => 1,
            Refusal::NoSuchLevel => 2,
            Refusal::NoStopLength => 3,
            Refusal::Synchronous => 4,
            Refusal::NotNormalOperation => 5,
        }
    }
}

// The levels of the five outputs. (Numbers and no `bool`s: `outputs_of` of specs/Status.antt gives each as a level, 0 or 1.)
#[repr(C)]
#[derive(Clone, Copy)]
pub struct OutputPins {
    pub txrdy: u8,
    pub rxrdy: u8,
    pub txemt: u8,
    pub dtr: u8,
    pub rts: u8,
}
