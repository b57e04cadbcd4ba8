// Links: the block list and its checks, the block of an instruction, lower links, and the lower-cost split point.
//
// Here: `check_blocks` (refusals 2 and 3), `block_of`, `block_near`, `step_forward` and `step_back` (the block of an instruction, searched
// for or stepped to), `prepare` (both columns of lower links), `find_optimal_split_point` (13).
// Proved: each equals a definition of specs/ that only looks: no stack, no cursor. The laws are in proofs/: a block list is refused
// exactly if it breaks a line, by its first bad block; a link names the nearest lower block and nothing between is lower.
// A caller should know: `check_blocks`, `count` and `find_optimal_split_point` have no `requires`. The other public functions serve
// the layers above and rely on a block list that `check_blocks` has passed.
#![tactic(auto)]

pub mod blocks;
pub mod lower;
pub mod split;
