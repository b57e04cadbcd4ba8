// Use checks: document 01's line 7, of the uses.
//
// Here: `first_bad_use`, the first use that breaks line 7, or the number of uses.
// Proved: it equals its definition in `jobs` (specs/Lines). All uses are asked at once by counting (`all_uses`); proofs/AllUses says why
// no use is bad where the counts fit. Only where they do not the first bad use is looked for.
// A caller should know: it relies on the use lists that line 5 has passed.
#![tactic(auto)]

mod all_uses;
pub mod lines;
