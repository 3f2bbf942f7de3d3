// The Interfacer 3 by its manual and request P2: eight INS2651 behind eight ports. specs/ says what each call does to the board and to the
// room of its channels, proofs/ what that comes to over runs of calls; the calls themselves are `board`'s. No code stands here, so that a
// wrong definition or statement is refused without proving the calls again.
#![tactic(auto)]

// What a board has besides its channels: its number, as its switches are set, the user select and the two interrupt masks. Four bytes, for C
// lends any (include/interfacer3.h).
#[repr(C)]
#[derive(Clone, Copy)]
pub struct Board {
    pub number: u8,
    pub select: u8,
    pub transmit_mask: u8,
    pub receive_mask: u8,
}
