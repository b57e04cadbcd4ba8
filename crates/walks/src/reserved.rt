// What walks meet: the reservations, the fixed uses, and the spill weights by index.
use jobs::rows::{FixedUses, Reservations};
use std::marker::Model;

#[derive(Drop)]
pub struct Reserved<'b> {
    pub reservations: &'b Reservations<'b>,
    pub fixed_uses: &'b FixedUses<'b>,
    pub weight: &'b [u32],
}

impl<'b> Model for Reserved<'b> {
    ghost use Rattle.walks.specs.Meeting.{Reserved};

    ghost Value = { Reserved };

    ghost view = { λ t. record { rows = t.reservations.now; fixed_uses = t.fixed_uses.now; weights = t.weight.now } };
}
