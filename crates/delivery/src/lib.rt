// One way of the line, from an end that sends to an end that receives, on a bench of any kind: what document 01's demand 3 promises of it, what
// an end has to show for that, and the proof. No code stands here: a chip, a pair of chips or a board joins by showing specs/Ends.antt.
#![tactic(auto)]
