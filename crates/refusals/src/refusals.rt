// Document 01's lines 1 to 11 in order, of a whole job.
ghost use Rattle.std.specs.Prelude.{◌≡◌};
ghost use Rattle.refusals.specs.Refusals.{table_refusal_of};

use crate::job::Job;
use crate::lines;
use links::blocks;
use links::blocks::Refusal;

// The first of lines 1 to 11 that a job breaks, or none.
pub fn check_tables(job: &Job) -> Result<(), Refusal>
    ensures { result ≡ table_refusal_of job.now }
{
    let t = job.sizes();
    lines::check_sizes(job.parameters, t)?;
    blocks::check_blocks(job.freq, job.first, job.end)?;
    lines::check_values(job.code)?;
    let limits = lines::limits_of(job.end, job.parameters.units, t);
    lines::check_segments(&job.segments, &job.uses, limits)?;
    lines::check_reservations(job.weight, &job.reservations, &job.fixed_uses, limits)
}
