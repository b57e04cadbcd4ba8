// Numbers: indices and points, weights, use costs, the normalised weight, the weight test and the H figure.
//
// Here: tuple structs for each kind of index, and small functions on one number or weight each.
// Proved: every function equals a definition of specs/, for all inputs; floats are IEEE 754 binary32. The laws of weights are in
// proofs/ and are cited by the layers above: weights stay weights, their order is that of whole numbers of units of 2 to the
// power -149, and a chain of weights above zero that each pass the weight test over the one before has at most 9,495 members.
// A caller should know: no public function has a `requires` and none traps. What no accepted job holds (bits above the limits, a use
// kind above 9) has an answer all the same, which the definition states.
#![tactic(auto)]

ghost use Rattle.std.specs.Prelude.{◌≡◌};
ghost use Rattle.numbers.specs.Point.{inst_of, slot_of, round_up, slot_number};

pub mod costs;
pub mod normal;
pub mod pick;
pub mod weights;

// An instruction, by its place in the function.
#[derive(Clone, Copy)]
pub struct Inst(pub u32);

// A block, by its place in the block list.
#[derive(Clone, Copy)]
pub struct Block(pub u32);

// A value, by its place in the list of rematerialisation codes.
#[derive(Clone, Copy)]
pub struct Value(pub u32);

// A unit of the physical register.
#[derive(Clone, Copy)]
pub struct Unit(pub u32);

// A point, 4 times an instruction and a slot.
#[derive(Clone, Copy)]
pub struct Point(pub u32);

// A slot within an instruction. No sound point has the last one.
#[derive(Clone, Copy)]
pub enum Slot {
    Boundary,
    Early,
    Normal,
    Unused,
}

impl Point {
    // The instruction that this point is in: of a Boundary, the one after it.
    pub fn inst(self) -> Inst
        ensures { result.0 ≡ inst_of self.0 }
    {
        Inst(self.0 / 4)
    }

    pub fn slot(self) -> Slot
        ensures { slot_number result ≡ slot_of self.0 }
    {
        match self.0 % 4 {
            0 => Slot::Boundary,
            1 => Slot::Early,
            2 => Slot::Normal,
            _ => Slot::Unused,
        }
    }

    // The instruction at this point's next Boundary, this point itself included. It is an instruction and no point, since the
    // last Boundary above the largest point is no 32-bit number.
    pub fn round_to_next_inst(self) -> Inst
        ensures { result.0 ≡ round_up self.0 }
    {
        Inst(self.0.div_ceil(4))
    }

    // The instruction at this point's last Boundary, this point itself included: a name of the source beside `inst`.
    pub fn round_to_prev_inst(self) -> Inst
        ensures { result.0 ≡ inst_of self.0 }
    {
        self.inst()
    }
}
