// Calls on a lent board and room that plan first, by their code: what each comes to is decided by value, the board stored, and a channel or all of
// them lent. The theorems (docs/PROMISES.md, "`board_walks`") are of any code of this form, any plan and any call of the chip; `board` itself plans no more.
// No code stands here.
#![tactic(auto)]

use board_rules::Board;

// What a call comes to before a channel is looked at: the board after it, and its answer where it ends there; else the channel that it is
// about, where it is about one alone. The theorems `begins`, `in_single`, `in_whole` and those beside them are of plans with these fields.
#[repr(C)]
#[derive(Clone, Copy)]
pub struct Plan {
    pub answer: u16,
    pub channel: usize,
    pub board: Board,
    pub ends: bool,
    pub single: bool,
}
