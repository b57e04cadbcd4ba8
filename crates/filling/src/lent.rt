// How many rows are lent.

// How many rows each lent work table has: as many as its shortest column.
#[derive(Clone, Copy)]
pub struct Rooms {
    pub uses: usize,
    pub gaps: usize,
    pub gap_segments: usize,
    pub links: usize,
}
