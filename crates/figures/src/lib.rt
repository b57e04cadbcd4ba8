// Figures: what a job is answered, in the figures of a sheet's answer.
//
// Here: `shown_of`, an answer of `proposer` as one of `sheet`.
// Proved: it equals specs/Figures for every input: the answer's numbers, and with a proposal its H figure.
#![tactic(auto)]

pub mod figures;
