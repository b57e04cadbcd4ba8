// The lower links of the blocks and the use table of a checked job, and its best use.
ghost use Rattle.std.specs.Prelude.{◌≡◌, ◌+◌, ◌≤◌, length, take};
ghost use Rattle.links.specs.Blocks.{blocks_of, SoundColumns};
ghost use Rattle.use_rows.specs.Uses.{AllWeights, best_use, source_of};
ghost use Rattle.uses.specs.CheckedUses.{CheckedUses};
ghost use Rattle.use_rows.specs.UseColumns.{Inside};
ghost use Rattle.use_rows.specs.Lent.{columns_in, lenders};
ghost use Rattle.filling.specs.UseTables.{FromBits, UsesFilled};

use jobs::rows::{Segments, Uses};
use links::lower::prepare;
use numbers::costs::RematScales;
use use_rows::row::{UseTable, find_best_use};
use uses::collect::collect_uses;

// How many rows the use table has, and its best use.
#[derive(Clone, Copy)]
pub struct UseTables {
    pub rows: usize,
    pub best: Option<usize>,
}

// The best use of a table's first rows. It is lent the table whole: where `fill_uses` lends one column, the proof that it comes back stays open.
fn best_of_first(table: &UseTable, rows: usize) -> Option<usize>
    requires inside { rows ≤ length table.now.weight.now }
    requires weights { AllWeights (take rows table.now.weight.now) }
    ensures { result ≡ best_use (take rows table.now.weight.now) }
{
    find_best_use(&table.weight[..rows])
}

// Fills the links and the use table, and answers the best use. The rows past those used stay.
pub fn fill_uses(
    freq: &[u32],
    first: &[u32],
    end: &[u32],
    segments: &Segments,
    code: &[u32],
    uses: &Uses,
    scales: RematScales,
    prev_lower_freq: &mut [u32],
    next_lower_freq: &mut [u32],
    table: &mut UseTable,
) -> UseTables
    requires checked { let source = source_of uses.now segments.now code.now scales (blocks_of freq.now first.now end.now) in
        SoundColumns freq.now first.now end.now × CheckedUses source × FromBits scales }
    requires room { (length freq.now ≤ length prev_lower_freq.old) × (length freq.now ≤ length next_lower_freq.old)
        × Inside (length uses.now + 1) (columns_in table.old) }
    ensures same { lenders table.new ≡ lenders table.old }
    ensures value { let source = source_of uses.now segments.now code.now scales (blocks_of freq.now first.now end.now) in
        UsesFilled source freq.now
        prev_lower_freq.old next_lower_freq.old (columns_in table.old)
        prev_lower_freq.new next_lower_freq.new (columns_in table.new) result.rows result.best }
{
    prepare(freq, prev_lower_freq, next_lower_freq);
    let rows = collect_uses(segments, code, uses, freq, first, end, scales, table);
    let best = best_of_first(table, rows);
    UseTables { rows, best }
}
