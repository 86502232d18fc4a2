// The calls of documents 01 and 02 for C and Rust: a slice passes as pointer and length, and what a call answers stands as numbers in a lent slice.
// corrector.h says the same for a host.
#![tactic(auto)]

ghost use Rattle.std.specs.Prelude.{◌≡◌, [], ◌∷◌};
ghost use Rattle.rules.specs.Set.{set_of, offering, opened};
ghost use Rattle.rules.specs.Job.{entries_of, lines};
ghost use Rattle.rules.specs.Calls.{correct_read, correct_batch};
ghost use Rattle.rules_needs.specs.Needs.{needs};
ghost use Rattle.rules_fasta.specs.Fasta.{records, reads_of, correct_fasta};
ghost use Rattle.rules.specs.Solid.{count_solid};
ghost use Rattle.rules_make.specs.MakeSet.{make_set};
ghost use Rattle.rules.specs.Index.{make_index};
ghost use Rattle.rules_edits.specs.Edits.{sheet, check_edits};
ghost use Rattle.report.specs.Answer.{given, answer_of};
ghost use Rattle.needs.specs.Needs.{asked};
ghost use Rattle.answer_numbers.specs.Numbers.{numbers_of, open_numbers, solid_numbers, check_numbers, OpensWith, Told};
ghost use Rattle.rules_bridge.specs.Bridge.{find_bridge, told_of};
ghost use Rattle.bridge_numbers.specs.Numbers.{bridge_numbers};
ghost use Rattle.exports.specs.Calls.{Exact, NeedsExact, Ceiling, MadeExact, SetMadeExact};

use refusal::Refusal;
use report::Report;

// What a call that corrects tells.
fn tell_answer(done: Result<Report, Refusal>, answer: &mut [u64]) -> u64
    ensures { Told (numbers_of (answer_of done)) answer.old result answer.new }
{
    let numbers = answer_numbers::numbers_of(done);
    answer_numbers::tell(&numbers, answer)
}

// k and n of the set, or why it does not open.
fn header_of(set: &[u8]) -> Result<(usize, usize), Refusal>
    ensures { OpensWith set.now result }
{
    let open = opening::open(set)?;
    Ok((open.k, open.n))
}

// Refusals 7 to 10, or k and n.
#[unsafe(no_mangle)]
pub extern "C" fn corrector_open(set: &[u8], answer: &mut [u64]) -> u64
    ensures { Told (open_numbers (opened set.now)) answer.old result answer.new }
{
    let numbers = answer_numbers::open_numbers(header_of(set));
    answer_numbers::tell(&numbers, answer)
}

// The single-read call.
#[unsafe(no_mangle)]
pub extern "C" fn corrector_read(
    set: &[u8],
    index: &[u8],
    counts: &[u32],
    job: &[u8],
    read: &[u8],
    output: &mut [u8],
    work: &mut [u8],
    answer: &mut [u64],
) -> u64
    ensures exact { Exact (correct_read (given set.now index.now counts.now job.now read.now output.old work.old))
        answer.old result output.new work.new answer.new }
    ensures ceiling { Ceiling (offering index.now counts.now (set_of set.now)) (entries_of job.now) (read.now ∷ []) result answer.new }
{
    tell_answer(
        job::correct_read(set, index, counts, job, read, output, work),
        answer,
    )
}

// The batch call.
#[unsafe(no_mangle)]
pub extern "C" fn corrector_batch(
    set: &[u8],
    index: &[u8],
    counts: &[u32],
    job: &[u8],
    batch: &[u8],
    output: &mut [u8],
    work: &mut [u8],
    answer: &mut [u64],
) -> u64
    ensures exact { Exact (correct_batch (given set.now index.now counts.now job.now batch.now output.old work.old))
        answer.old result output.new work.new answer.new }
    ensures ceiling { Ceiling (offering index.now counts.now (set_of set.now)) (entries_of job.now) (lines batch.now) result answer.new }
{
    tell_answer(
        job::correct_batch(set, index, counts, job, batch, output, work),
        answer,
    )
}

// The FASTA call.
#[unsafe(no_mangle)]
pub extern "C" fn corrector_fasta(
    set: &[u8],
    index: &[u8],
    counts: &[u32],
    job: &[u8],
    file: &[u8],
    output: &mut [u8],
    work: &mut [u8],
    answer: &mut [u64],
) -> u64
    ensures exact { Exact (correct_fasta (given set.now index.now counts.now job.now file.now output.old work.old))
        answer.old result output.new work.new answer.new }
    ensures ceiling { Ceiling (offering index.now counts.now (set_of set.now)) (entries_of job.now)
        (reads_of (records file.now)) result answer.new }
{
    tell_answer(
        fasta::correct_fasta(set, index, counts, job, file, output, work),
        answer,
    )
}

// What a batch call would need and report, without an output. Refusals 1 to 10, 15, 16 and 17, which leave work as it is.
#[unsafe(no_mangle)]
pub extern "C" fn corrector_needs(
    set: &[u8],
    index: &[u8],
    counts: &[u32],
    job: &[u8],
    batch: &[u8],
    work: &mut [u8],
    answer: &mut [u64],
) -> u64
    ensures exact { NeedsExact (needs (asked set.now index.now counts.now job.now batch.now work.old))
        answer.old result work.new answer.new }
    ensures ceiling { Ceiling (offering index.now counts.now (set_of set.now)) (entries_of job.now) (lines batch.now) result answer.new }
{
    let numbers = answer_numbers::needs_numbers(needs::needs(set, index, counts, job, batch, work));
    answer_numbers::tell(&numbers, answer)
}

// The k-mers of a read, and the solid ones among them. Refusals 1 and 7 to 10.
#[unsafe(no_mangle)]
pub extern "C" fn corrector_count_solid(set: &[u8], read: &[u8], answer: &mut [u64]) -> u64
    ensures { Told (solid_numbers (count_solid set.now read.now)) answer.old result answer.new }
{
    let numbers = answer_numbers::solid_numbers(solid::count_solid(set, read));
    answer_numbers::tell(&numbers, answer)
}

// The set file and the list of its keys' counts made from k-mer counts as text. Refusals 9 and 12 to 14, which leave blocks and counts as they are.
#[unsafe(no_mangle)]
pub extern "C" fn corrector_make_set(
    text: &[u8],
    k: u64,
    least: u64,
    blocks: &mut [u8],
    counts: &mut [u32],
    answer: &mut [u64],
) -> u64
    ensures { SetMadeExact (make_set text.now k least blocks.old counts.old)
        answer.old result blocks.new counts.new answer.new }
{
    let numbers = answer_numbers::made_numbers(make_set::make_set(text, k, least, blocks, counts));
    answer_numbers::tell(&numbers, answer)
}

// The index by first letters made from a set. Refusals 7 to 10 of the set, then 14, which leave the blocks as they are.
#[unsafe(no_mangle)]
pub extern "C" fn corrector_make_index(set: &[u8], blocks: &mut [u8], answer: &mut [u64]) -> u64
    ensures { MadeExact (make_index set.now blocks.old) answer.old result blocks.new answer.new }
{
    let numbers = answer_numbers::made_numbers(make_index::make_index(set, blocks));
    answer_numbers::tell(&numbers, answer)
}

// Whether another program's edits turn a read into its corrected read, with solid k-mers around them. Refusals 1 for either read, 7 to 10, and 19.
#[unsafe(no_mangle)]
pub extern "C" fn corrector_check_edits(
    set: &[u8],
    read: &[u8],
    mended: &[u8],
    edits: &[u64],
    letters: &[u8],
    answer: &mut [u64],
) -> u64
    ensures { Told (check_numbers (check_edits set.now (sheet read.now mended.now edits.now letters.now)))
        answer.old result answer.new }
{
    let numbers = answer_numbers::check_numbers(edits::check_edits(
        set, read, mended, edits, letters,
    ));
    answer_numbers::tell(&numbers, answer)
}

// The shortest bridge between two solid k-mers, as far as lookups last. Refusals 7 to 10 and 20.
#[unsafe(no_mangle)]
pub extern "C" fn corrector_bridge(
    set: &[u8],
    from: u64,
    to: u64,
    budget: u64,
    answer: &mut [u64],
) -> u64
    ensures { Told (bridge_numbers (told_of (find_bridge set.now from to budget))) answer.old result answer.new }
{
    let numbers = bridge_numbers::numbers_of(bridge::find_bridge(set, from, to, budget));
    answer_numbers::tell(&numbers, answer)
}
