// What will this job need? Document 02, W9: the bytes, turns and lookups of a batch for a job of one entry, without an output buffer.
#![tactic(auto)]

ghost use Rattle.std.specs.Prelude.{◌≡◌, true, ◌+◌, ◌≤◌, ◌<◌, ◌^◌, length, Ok};
ghost use Rattle.rules.specs.Set.{set_of, offering};
ghost use Rattle.rules.specs.Job.{entries_of, lines};
ghost use Rattle.rules.specs.Calls.{batch_right};
ghost use Rattle.rules_needs.specs.Needs as rules;
ghost use Rattle.turn.specs.Turn.{offered};
ghost use Rattle.needs.specs.Needs.{plus_line, counted, asked, Bookable, Exact, Ceiling};

use correct::Counts;
use entries::Job;
use refusal::Refusal;
use set::{KmerSet, STARTS};

// The bytes that the batch's output will be, its turns and its lookups.
#[derive(Clone, Copy, Default)]
pub struct Need {
    pub bytes: usize,
    pub turns: u64,
    pub lookups: u64,
}

impl Need {
    // A line more, with its byte 10.
    fn plus_line(self, line: Counts) -> Need
        requires { (self.bytes + line.written + 1 < 2 ^ 64) × (self.turns + line.turns < 2 ^ 64) × (self.lookups + line.lookups < 2 ^ 64) }
        ensures { result ≡ plus_line self line }
    {
        Need {
            bytes: self.bytes + line.written + 1,
            turns: self.turns + line.turns,
            lookups: self.lookups + line.lookups,
        }
    }
}

// The lines of a batch in turn.
fn count_lines(set: &KmerSet, job: &Job, batch: &[u8], work: &mut [u8]) -> Need
    requires { Bookable job.now.bytes.now (length batch.now) (length work.old) × (batch_right batch.now ≡ true) }
    ensures { Exact (counted (offered set.now) job.now.bytes.now batch.now work.old)
        (Ok result) work.new }
{
    let entry = job.entry(0);
    let mut done = Need::default();
    for line in input::lines(batch) {
        let counted = count::count(set, entry, line, work);
        // Work is as long as the batch (check 5), so Full never comes.
        let Ok(more) = counted else { unreachable!() };
        done = done.plus_line(more);
    }
    work.fill(0);
    done
}

// The call: what a batch call with the same set, job and batch would report, if its output were long enough.
pub fn needs(
    set: &[u8],
    index: &[u8],
    counts: &[u32],
    job: &[u8],
    batch: &[u8],
    work: &mut [u8],
) -> Result<Need, Refusal>
    ensures exact { Exact (rules.needs (asked set.now index.now counts.now job.now batch.now work.old))
        result work.new }
    ensures ceiling { Ceiling (offering index.now counts.now (set_of set.now)) (entries_of job.now) (lines batch.now) result }
{
    let checked = input::check_needs(batch.len(), job, work.len())?;
    input::check_batch(batch)?;
    let mut starts = [0u32; STARTS];
    let opened = offered::open(set, index, counts, batch.len(), &mut starts)?;
    Ok(count_lines(&opened, &checked, batch, work))
}
