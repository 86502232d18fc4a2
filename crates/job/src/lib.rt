// The calls of document 01: a single read, and a batch.
#![tactic(auto)]

ghost use Rattle.std.specs.Prelude.{[], ◌∷◌, length};
ghost use Rattle.rules.specs.Set.{set_of, offering};
ghost use Rattle.rules.specs.Job.{entries_of, lines};
ghost use Rattle.rules.specs.Calls.{corrected, correct_read, correct_batch};
ghost use Rattle.input.specs.Input.{Within};
ghost use Rattle.turn.specs.Turn.{offered};
ghost use Rattle.report.specs.Answer.{Exact, Ceiling, given};

use entries::Job;
use refusal::Refusal;
use report::Report;
use set::{KmerSet, STARTS};

// The single read of an opened set.
fn correct_one(
    set: &KmerSet,
    job: &Job,
    read: &[u8],
    output: &mut [u8],
    work: &mut [u8],
) -> Result<Report, Refusal>
    requires { Within job.now.bytes.now (length read.now) (length output.old) (length work.old) }
    ensures { Exact (corrected (offered set.now) (entries_of job.now.bytes.now) []
        (given set.now.bytes.now [] set.now.counts.now job.now.bytes.now read.now output.old work.old)
        (read.now ∷ []))
        result output.new work.new }
{
    let room = output.len();
    let corrected = through::through(set, job, read, output, &mut work[..room]);
    let Ok(done) = corrected else {
        return Err(report::no_room(0, output, work));
    };
    let has_counts = !set.counts.is_empty();
    Ok(report::accept(done, has_counts, output, work))
}

// The single-read call: corrects a read by the entries of the job, into the output. It and the batch call share no opening function: the
// table of starts lies in the caller's frame, and what is left of an opening is two lines.
pub fn correct_read(
    set: &[u8],
    index: &[u8],
    counts: &[u32],
    job: &[u8],
    read: &[u8],
    output: &mut [u8],
    work: &mut [u8],
) -> Result<Report, Refusal>
    ensures exact { Exact (correct_read (given set.now index.now counts.now job.now read.now output.old work.old))
        result output.new work.new }
    ensures ceiling { Ceiling (offering index.now counts.now (set_of set.now)) (entries_of job.now) (read.now ∷ []) result }
{
    let checked = input::check_input(read.len(), job, output.len(), work.len())?;
    let mut starts = [0u32; STARTS];
    let opened = offered::open(set, index, counts, read.len(), &mut starts)?;
    correct_one(&opened, &checked, read, output, work)
}

// The batch call: corrects the lines of a batch by the entries of the job, into the output.
pub fn correct_batch(
    set: &[u8],
    index: &[u8],
    counts: &[u32],
    job: &[u8],
    batch: &[u8],
    output: &mut [u8],
    work: &mut [u8],
) -> Result<Report, Refusal>
    ensures exact { Exact (correct_batch (given set.now index.now counts.now job.now batch.now output.old work.old))
        result output.new work.new }
    ensures ceiling { Ceiling (offering index.now counts.now (set_of set.now)) (entries_of job.now) (lines batch.now) result }
{
    let checked = input::check_input(batch.len(), job, output.len(), work.len())?;
    input::check_batch(batch)?;
    let mut starts = [0u32; STARTS];
    let opened = offered::open(set, index, counts, batch.len(), &mut starts)?;
    lines::correct_lines(&opened, &checked, batch, output, work)
}
