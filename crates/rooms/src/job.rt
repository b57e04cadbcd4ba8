// Document 01's lines 1 to 12 in order, of a whole job and the tables that are lent with it.
ghost use Rattle.std.specs.Prelude.{◌≡◌};
ghost use Rattle.rooms.specs.Rooms.{refusal_of};

use crate::rooms::check_rooms;
use filling::lent::Rooms;
use links::blocks::Refusal;
use refusals::job::Job;
use refusals::refusals::check_tables;

// The first of lines 1 to 12 that a job and the tables lent with it break, or none.
pub fn check_job(job: &Job, rooms: Rooms) -> Result<(), Refusal>
    ensures { result ≡ refusal_of job.now rooms }
{
    check_tables(job)?;
    check_rooms(job.sizes(), rooms)
}
