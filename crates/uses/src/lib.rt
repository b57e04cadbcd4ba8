// Uses: the use table of a checked job.
//
// Here: `collect_uses`, which fills the use table.
// Proved: it equals the definition of `use_rows`, without a cursor, and the rows past those used stay. The use table of a checked job rises
// from its first to its last instruction (proofs/UseTable).
// A caller should know: it serves the layer above. Its `requires` are named predicates of specs/ that the checks of `jobs` establish.
#![tactic(auto)]

pub mod collect;
