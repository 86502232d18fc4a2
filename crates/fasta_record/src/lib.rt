// A record of a FASTA file corrected: its read through the entries of a job, and its text put into the output. Document 02, W11.
#![tactic(auto)]

ghost use Rattle.std.specs.Prelude.{◌≤◌, ◌<◌, length, take};
ghost use Rattle.rules.specs.Job.{entry_count, entries_of};
ghost use Rattle.rules.specs.Calls.{max_read, max_methods, max_output};
ghost use Rattle.input.specs.Input.{Within};
ghost use Rattle.turn.specs.Turn.{offered};
ghost use Rattle.correct.specs.Pass.{tally_of, Small};
ghost use Rattle.through.specs.Through.{GoneOn, ThroughIs};
ghost use Rattle.fasta_record.specs.Record.{RecordIs};

use correct::{Counts, Full};
use entries::Job;
use set::KmerSet;

// The passes behind the first, whose bytes stand in the output, and the result at the front of the work buffer. By an even number of
// passes the last one ends there; by an odd one it ends in the output, and its result is copied.
fn back_to_work(
    set: &KmerSet,
    job: &Job,
    first: Counts,
    output: &mut [u8],
    work: &mut [u8],
) -> Result<Counts, Full>
    requires ready { (0 < entry_count job.now.bytes.now) × (entry_count job.now.bytes.now ≤ max_methods)
        × (first.written ≤ length output.old) × Small 1 (tally_of first output.old) }
    requires output_len_bound { (length output.old ≤ max_output) × (length output.old ≤ length work.old) }
    ensures { GoneOn (offered set.now) job.now.bytes.now (tally_of first output.old)
        (length output.old) work.new result }
{
    let room = output.len();
    if job.count() % 2 == 0 {
        return through::go_on(set, job, first, &mut work[..room], output);
    }
    let done = through::go_on(set, job, first, output, &mut work[..room])?;
    correct::copy(&output[..done.written], work);
    Ok(done)
}

// A read at the front of the work buffer through the entries of a job, and its result there again. Two parts of one buffer cannot be lent at
// once, so the first pass goes from work to the output, and then to and fro. Each has just the room that 11 compares with.
fn through_work(
    set: &KmerSet,
    job: &Job,
    read: usize,
    output: &mut [u8],
    work: &mut [u8],
) -> Result<Counts, Full>
    requires { Within job.now.bytes.now read (length output.old) (length work.old) }
    ensures { ThroughIs (offered set.now) (entries_of job.now.bytes.now) (take read work.old)
        (length output.old) work.new result }
{
    if job.count() == 0 {
        if output.len() < read {
            return Err(Full);
        }
        return Ok(correct::unchanged(read));
    }
    let first = through::entry_pass(set, job, 0, &work[..read], output)?;
    back_to_work(set, job, first, output, work)
}

// A record with its read, of that length, at the front of the work buffer: corrected, and its text put into the output at `at`. Full where a
// pass result or the text is longer than what is left before its name line (11).
pub fn correct_record(
    set: &KmerSet,
    job: &Job,
    name: &[u8],
    read: usize,
    at: usize,
    output: &mut [u8],
    work: &mut [u8],
) -> Result<Counts, Full>
    requires { Within job.now.bytes.now read (length output.old) (length work.old)
        × (length name.now ≤ max_read) × (at ≤ length output.old) }
    ensures { RecordIs (offered set.now) (entries_of job.now.bytes.now) name.now (take read work.old)
        at output.old output.new result }
{
    let done = through_work(set, job, read, &mut output[at..], work)?;
    let text = record_text::text_length(name.len(), done.written);
    if output.len() - at < text {
        return Err(Full);
    }
    record_text::put_record(name, &work[..done.written], output, at);
    Ok(Counts {
        written: text,
        ..done
    })
}
