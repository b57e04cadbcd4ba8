// The rows of the use table, and the best use.
ghost use Rattle.std.specs.Prelude.{◌≡◌, ◌<◌, length, get_or};
ghost use Rattle.numbers.specs.Weight.{zero_weight};
ghost use Rattle.jobs.specs.Checked.{plain_segment};
ghost use Rattle.use_rows.specs.Uses.{AllWeights, best_use, part_of, no_weights, added_to_row};
ghost use Rattle.use_rows.specs.UseColumns.{UseColumns, use_columns, Inside, with_use, use_in};
ghost use Rattle.use_rows.specs.Lent.{columns_in, lenders};

use jobs::checked::LiveSegment;
use jobs::rows::cell;
use numbers::Inst;
use std::marker::Model;

// Which of a row's weights a use adds to.
#[derive(Clone, Copy)]
pub enum Part {
    Main,
    Left,
    Right,
}

// A row of the use table: an instruction, the weight of its uses, and what counts only if a region extends to its left or right.
#[derive(Clone, Copy)]
pub struct SplitUse {
    pub inst: Inst,
    pub weight: f32,
    pub left_weight: f32,
    pub right_weight: f32,
}

// The weight to which a use at an instruction adds. A use outside its segment's live range counts only on the side where that lies.
#[tactic(auto, unfolding(crate::specs::Uses::part_of))]
pub fn part_of(s: LiveSegment, inst: Inst) -> Part
    ensures { result ≡ part_of (plain_segment s) inst.0 }
{
    let p = inst.0 as u64;
    if 4 * (p + 1) == (s.start.0 as u64) {
        return Part::Right;
    }
    if 4 * p == (s.end.0 as u64) {
        return Part::Left;
    }
    Part::Main
}

// The row of an instruction at which nothing counts yet.
pub fn no_weights(inst: Inst) -> SplitUse
    ensures { result ≡ no_weights inst.0 }
{
    SplitUse {
        inst,
        weight: 0.0,
        left_weight: 0.0,
        right_weight: 0.0,
    }
}

// The row with a use's weight added to one of its three.
#[tactic(auto, unfolding(crate::specs::Uses::added_to_row))]
pub fn added_to(u: SplitUse, part: Part, weight: f32) -> SplitUse
    ensures { result ≡ added_to_row u part weight }
{
    match part {
        Part::Main => SplitUse {
            weight: u.weight + weight,
            ..u
        },
        Part::Left => SplitUse {
            left_weight: u.left_weight + weight,
            ..u
        },
        Part::Right => SplitUse {
            right_weight: u.right_weight + weight,
            ..u
        },
    }
}

// The use table's columns, lent to be filled.
#[derive(Drop)]
pub struct UseTable<'a> {
    pub inst: &'a mut [u32],
    pub weight: &'a mut [f32],
    pub left_weight: &'a mut [f32],
    pub right_weight: &'a mut [f32],
}

impl<'a> UseTable<'a> {
    // Stores a row.
    pub fn put(&mut self, at: usize, u: SplitUse)
        requires { Inside at (columns_in self.old) }
        ensures same { lenders self.new ≡ lenders self.old }
        ensures value { columns_in self.new ≡ with_use (columns_in self.old) at u }
    {
        self.inst[at] = u.inst.0;
        self.weight[at] = u.weight;
        self.left_weight[at] = u.left_weight;
        self.right_weight[at] = u.right_weight;
    }

    // A row.
    pub fn at(&self, at: usize) -> SplitUse
        requires { Inside at (columns_in self.now) }
        ensures { result ≡ use_in (columns_in self.now) at }
    {
        SplitUse {
            inst: Inst(self.inst[at]),
            weight: self.weight[at],
            left_weight: self.left_weight[at],
            right_weight: self.right_weight[at],
        }
    }
}

// A weight of a column.
#[tactic(auto, using(columns::proofs::Tables::row_any))]
fn weight_in(col: &[f32], i: usize) -> f32
    requires { i < length col.now }
    ensures { result ≡ get_or col.now i zero_weight }
{
    col[i]
}

// The use table, lent as one slice a column. A contract sees its columns.
#[derive(Drop)]
pub struct UseRows<'a> {
    pub inst: &'a [u32],
    pub weight: &'a [f32],
    pub left_weight: &'a [f32],
    pub right_weight: &'a [f32],
}

impl<'a> Model for UseRows<'a> {
    ghost Value = { UseColumns };

    ghost view = { λ t. use_columns t.inst.now t.weight.now t.left_weight.now t.right_weight.now };
}

impl<'a> UseRows<'a> {
    // How many instructions there are.
    pub fn len(&self) -> usize
        ensures { result ≡ length self.now.insts }
    {
        self.inst.len()
    }

    // A row.
    pub fn at(&self, i: usize) -> SplitUse
        requires { Inside i self.now }
        ensures { result ≡ use_in self.now i }
    {
        SplitUse {
            inst: Inst(cell(self.inst, i)),
            weight: weight_in(self.weight, i),
            left_weight: weight_in(self.left_weight, i),
            right_weight: weight_in(self.right_weight, i),
        }
    }
}

// The best use of a table with these main weights. A table of one row has none: nothing could be cut off.
pub fn find_best_use(weight: &[f32]) -> Option<usize>
    requires { AllWeights weight.now }
    ensures { result ≡ best_use weight.now }
{
    if weight.len() <= 1 {
        return None;
    }
    let mut best = 0;
    let mut top = 0.0;
    for (i, &w) in weight.iter().enumerate() {
        if top < w {
            best = i;
            top = w;
        }
    }
    if 0.0 < top {
        return Some(best);
    }
    None
}
