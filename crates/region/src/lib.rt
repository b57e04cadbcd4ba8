// Region: growth from the best use's gap, over the tables.
//
// Here: `find_in_tables`, and in it `find_split_region`, which grows the region try by try, each a walk over the gap segments of one gap; the
// table of gaps (`rows`).
// Proved: what is found is the region of `growth`'s definition, for what growth sees of the lent columns.
#![tactic(auto)]

pub mod find;
mod one_try;
pub mod rows;
