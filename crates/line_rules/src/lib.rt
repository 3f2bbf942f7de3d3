// The line by document 01, "Sending" and "Receiving": a character's format, the receiver and what arrives. specs/ says what a frame is and what
// a sample does, proofs/ what that comes to; the calls themselves are `line`'s. No code stands here, so that a wrong definition is refused
// without proving the calls again.
#![tactic(auto)]

// The unit at one end of the line, by its name.
#[derive(Clone, Copy, Debug, PartialEq, Eq)]
pub enum Unit {
    A,
    B,
}

// How a character is sent: factor F, length n, parity (0: none), even (0: odd), stop ticks S.
// Bytes, and no bools or enums, here and in what follows: C lends any bytes in a device (include/*.h), and every call takes any number.
#[repr(C)]
#[derive(Clone, Copy, Default, PartialEq, Eq)]
pub struct Format {
    pub factor: u8,
    pub length: u8,
    pub parity: u8,
    pub even: u8,
    pub stop: u8,
}

// The receiver between two samples: phase 0 waits for a 1, 1 searches for a 0, 2 has a character under way. That one has
// `countdown` ticks before its next look, that look's number, the value so far and 1 where its parity was wrong.
#[repr(C)]
#[derive(Clone, Copy, Default, PartialEq, Eq)]
pub struct Receiver {
    pub phase: u8,
    pub countdown: u8,
    pub value: u8,
    pub wrong: u8,
    pub look: u16,
}

// The tallies of request P4, by the sheet's names of the two clocks: ticks of the transmit clock since reset ..
#[repr(C)]
#[derive(Clone, Copy, Default, PartialEq, Eq)]
pub struct TxC(pub u32);

// .. and ticks of the receive clock. Two types, so that one is never handed over as the other.
#[repr(C)]
#[derive(Clone, Copy, Default, PartialEq, Eq)]
pub struct RxC(pub u32);

// A character as it arrives: whether its parity was wrong, whether its stop sample was 0, and the receive tally after that sample's tick.
#[derive(Clone, Copy)]
pub struct Arrival {
    pub value: u8,
    pub parity: bool,
    pub framing: bool,
    pub stamp: RxC,
}

// What one sample leaves, and the character that arrived with it, if one did.
#[derive(Clone, Copy)]
pub struct Sampled {
    pub next: Receiver,
    pub heard: Option<Arrival>,
}
