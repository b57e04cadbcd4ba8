// The gap table's columns, lent to be filled.

#[derive(Drop)]
pub struct GapTable<'a> {
    pub from: &'a mut [u32],
    pub to: &'a mut [u32],
    pub weight: &'a mut [f32],
    pub live: &'a mut [u32],
    pub min_freq: &'a mut [f32],
    pub block: &'a mut [u32],
}
