// Use rows: the rows of the use table, and the best use.
//
// Here: a row with its three weights, stored and read (`UseTable`, `UseRows`, `added_to`), the weight that a use adds to (`part_of`), and
// `find_best_use`.
// Proved: each equals its definition. specs/Uses says what a job's use table and best use are.
// A caller should know: these functions serve the layer above. Each `requires` is a bound on a row, or a column of weights.
#![tactic(auto)]

pub mod row;
