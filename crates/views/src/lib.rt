// Views: what growth sees of a job.
//
// Here: no code. specs/View says what growth sees of a job's gaps, specs/Met what its gap segments meet in the job's own rows.
// Proved: of an accepted job the gaps are sound and the gap segments in order, as growth and the walkers rely on (proofs/JobView), and so
// are the columns that `fill_tables` leaves (proofs/FilledView); the best use's own gap is its instruction alone (proofs/OwnGap).
#![tactic(auto)]
