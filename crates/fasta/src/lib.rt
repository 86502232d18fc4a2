// FASTA in and out: the records of a file corrected in turn, and the call. Document 02, W11.
#![tactic(auto)]

ghost use Rattle.std.specs.Prelude.{◌≡◌, true, [], length};
ghost use Rattle.rules.specs.Set.{set_of, offering};
ghost use Rattle.rules.specs.Job.{entries_of};
ghost use Rattle.rules_fasta.specs.Fasta.{records, reads_of, file_right, corrected_records, correct_fasta};
ghost use Rattle.input.specs.Input.{Within};
ghost use Rattle.turn.specs.Turn.{offered};
ghost use Rattle.report.specs.Answer.{Exact, Ceiling, given};

use correct::Counts;
use entries::Job;
use refusal::Refusal;
use report::Report;
use set::{KmerSet, STARTS};

// The records of a file in turn. A record's read is joined into the work buffer, which has room for twice the file; an iterator of records would
// have to hold that buffer, and one loop for this and lines::correct_lines both steps' contracts: neither is plainer.
fn correct_records(
    set: &KmerSet,
    job: &Job,
    file: &[u8],
    output: &mut [u8],
    work: &mut [u8],
) -> Result<Report, Refusal>
    requires { Within job.now.bytes.now (length file.now) (length output.old) (length work.old)
        × (file_right file.now ≡ true) }
    ensures { Exact (corrected_records (offered set.now) (entries_of job.now.bytes.now)
        (given set.now.bytes.now [] set.now.counts.now job.now.bytes.now file.now output.old work.old)
        (records file.now))
        result output.new work.new }
{
    let mut done = Counts::default();
    let mut place = 0;
    let mut lines = input::lines(file);
    let mut next = records::join(&mut lines, work).name;
    while let Some(name) = next {
        let joined = records::join(&mut lines, work);
        let corrected = fasta_record::correct_record(
            set,
            job,
            name,
            joined.read,
            done.written,
            output,
            work,
        );
        let Ok(more) = corrected else {
            return Err(report::no_room(place, output, work));
        };
        done = done.plus(more);
        place += 1;
        next = joined.name;
    }
    let has_counts = !set.counts.is_empty();
    Ok(report::accept(done, has_counts, output, work))
}

// The FASTA call: corrects the reads of a file's records by the entries of the job, and puts the records into the output.
pub fn correct_fasta(
    set: &[u8],
    index: &[u8],
    counts: &[u32],
    job: &[u8],
    file: &[u8],
    output: &mut [u8],
    work: &mut [u8],
) -> Result<Report, Refusal>
    ensures exact { Exact (correct_fasta (given set.now index.now counts.now job.now file.now output.old work.old))
        result output.new work.new }
    ensures ceiling { Ceiling (offering index.now counts.now (set_of set.now)) (entries_of job.now)
        (reads_of (records file.now)) result }
{
    let checked = input::check_input(file.len(), job, output.len(), work.len())?;
    records::check_file(file)?;
    let mut starts = [0u32; STARTS];
    let opened = offered::open(set, index, counts, file.len(), &mut starts)?;
    correct_records(&opened, &checked, file, output, work)
}
