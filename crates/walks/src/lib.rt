// Walks: what gap segments meet among one physical register's reservations, to the right and to the left.
//
// Here: the tables that walks read (`reserved`, `gap_rows`), a register, a gap segment and the tests on one reservation (`meeting`), and one
// walk for both sides (`walk`), which takes all gap segments of one gap. `Walkers` (`both`) has one walk to each side, and each call hands back
// its new self. `Walkers::new` makes both at one point: a search by halves finds the place in each unit.
// Proved: whether something met counts as fixed, and the heaviest weight met, are those of specs/Meeting, which looks at all rows.
// Both are exact in every case, the heaviest also where something is fixed. Each law is one for both sides (specs/Ways, proofs/Ways).
// A caller should know: a walk traps on nothing if its places lie within the rows (`Fits`). It is exact if the rows and fixed uses are as lines
// 10 and 11 leave them (proofs/Checked), gap segments are in order, and it stands at the gap's near edge (specs/Standing, specs/Gaps).
#![tactic(auto)]

pub mod both;
pub mod gap_rows;
pub mod meeting;
mod places;
pub mod reserved;
mod units;
pub mod walk;
