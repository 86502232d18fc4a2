// The lines of a batch, corrected in turn.
#![tactic(auto)]

ghost use Rattle.std.specs.Prelude.{◌≡◌, true, [], ◌∷◌, ◌≤◌, length};
ghost use Rattle.rules.specs.Job.{entries_of, lines};
ghost use Rattle.rules.specs.Calls.{batch_right, corrected};
ghost use Rattle.input.specs.Input.{Within};
ghost use Rattle.turn.specs.Turn.{offered};
ghost use Rattle.report.specs.Answer.{Exact, given};
ghost use Rattle.lines.specs.Lines.{LineIs};

use correct::{Counts, Full};
use entries::Job;
use refusal::Refusal;
use report::Report;
use set::KmerSet;

// A line is corrected where it lies, into what is left of the output less 1, and byte 10 put behind it.
fn correct_line(
    set: &KmerSet,
    job: &Job,
    line: &[u8],
    at: usize,
    output: &mut [u8],
    work: &mut [u8],
) -> Result<Counts, Full>
    requires { Within job.now.bytes.now (length line.now) (length output.old) (length work.old) × (at ≤ length output.old) }
    ensures { LineIs (offered set.now) (entries_of job.now.bytes.now) line.now
        at output.old output.new result }
{
    if output.len() <= at {
        return Err(Full);
    }
    let end = output.len() - 1;
    let done = through::through(set, job, line, &mut output[at..end], &mut work[..end - at])?;
    output[at + done.written] = b'\n';
    Ok(Counts {
        written: done.written + 1,
        ..done
    })
}

// The lines of a batch in turn.
pub fn correct_lines(
    set: &KmerSet,
    job: &Job,
    batch: &[u8],
    output: &mut [u8],
    work: &mut [u8],
) -> Result<Report, Refusal>
    requires { Within job.now.bytes.now (length batch.now) (length output.old) (length work.old)
        × (batch_right batch.now ≡ true) }
    ensures { Exact (corrected (offered set.now) (entries_of job.now.bytes.now) (10 ∷ [])
        (given set.now.bytes.now [] set.now.counts.now job.now.bytes.now batch.now output.old work.old)
        (lines batch.now))
        result output.new work.new }
{
    let mut done = Counts::default();
    for (i, line) in input::lines(batch).enumerate() {
        let corrected = correct_line(set, job, line, done.written, output, work);
        let Ok(more) = corrected else {
            return Err(report::no_room(i, output, work));
        };
        done = done.plus(more);
    }
    let has_counts = !set.counts.is_empty();
    Ok(report::accept(done, has_counts, output, work))
}
