// The INS2651 as an end of a line: what a bench sees of it through its calls, which calls leave its sending or its receiving alone, and the proof
// that it shows what `delivery` asks of an end of either kind. No code stands here, and no second device: a bench of any make joins it.
#![tactic(auto)]
