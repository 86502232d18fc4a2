// What a call is given, looked at before any set: checks 1 to 6 of documents 01 and 02, and the lines of a batch.
#![tactic(auto)]

ghost use Rattle.std.specs.Prelude.{◌≡◌, ◌≤◌, length, leb, ltb};
ghost use Rattle.rules.specs.Refusal.{unless, ◌or_else◌, at_place, first_failing};
ghost use Rattle.rules.specs.Job.{known, method_byte, confirm_byte, entry_count, lines};
ghost use Rattle.rules.specs.Calls.{max_read, buffers_right, job_check, input_check, batch_right};
ghost use Rattle.rules_needs.specs.Needs.{needs_check};
ghost use Rattle.std.specs.Iterator.{item_count};
ghost use Rattle.input.specs.Input.{check_of, GivesJob, bytes_left, lines_left, GivesLine};

use entries::Job;
use refusal::Refusal;

const MAX_READ: usize = 1048576;

const MAX_METHODS: usize = 8;

const MAX_OUTPUT: usize = 1048576;

const MAX_WORK: usize = 2097152;

const MAX_LINES: usize = 1024;

// Check 1, by the length.
#[tactic(auto, unfolding(rules::specs::Refusal::unless))]
pub fn check_length(input: usize) -> Result<(), Refusal>
    ensures { check_of result ≡ unless (leb input max_read) 1 }
{
    if MAX_READ < input {
        return Err(Refusal::Long);
    }
    Ok(())
}

#[tactic(auto, unfolding(rules::specs::Job::known))]
fn is_known(method: u8) -> bool
    ensures { result ≡ known method }
{
    matches!(method, 1..=4)
}

// Check 3. A loop, for the index is what a refusal tells: `find` would give it in an Option that is to be taken apart again.
fn check_methods(job: &[u8]) -> Result<(), Refusal>
    ensures { check_of result ≡ at_place 3 (first_failing (λ i. known (method_byte job.now i)) 0 (entry_count job.now)) }
{
    for i in 0..entries::count(job) {
        if !is_known(entries::method_of(job, i)) {
            return Err(Refusal::Method(i));
        }
    }
    Ok(())
}

// Check 4, as 3. Another test and another refusal: one function of both would be no plainer.
fn check_confirms(job: &[u8]) -> Result<(), Refusal>
    ensures { check_of result ≡ at_place 4 (first_failing (λ i. ltb 0 (confirm_byte job.now i)) 0 (entry_count job.now)) }
{
    for i in 0..entries::count(job) {
        if entries::confirm_of(job, i) == 0 {
            return Err(Refusal::Confirm(i));
        }
    }
    Ok(())
}

#[tactic(auto, unfolding(rules::specs::Calls::buffers_right))]
fn buffers_right(input: usize, output: usize, work: usize) -> bool
    requires { input ≤ max_read }
    ensures { result ≡ buffers_right input output work }
{
    output <= MAX_OUTPUT && work <= MAX_WORK && 2 * output.max(input) <= work
}

// Checks 2 to 4, upward. All methods are looked at before any confirm.
fn check_job(job: &[u8]) -> Result<Job<'_>, Refusal>
    ensures { (check_of result ≡ job_check job.now) × GivesJob job.now result }
{
    if MAX_METHODS < entries::count(job) {
        return Err(Refusal::Methods);
    }
    check_methods(job)?;
    check_confirms(job)?;
    Ok(Job { bytes: job })
}

// Checks 1 to 4, upward.
fn check_start(input: usize, job: &[u8]) -> Result<Job<'_>, Refusal>
    ensures { (check_of result ≡ (unless (leb input max_read) 1 or_else job_check job.now)) × GivesJob job.now result }
{
    check_length(input)?;
    check_job(job)
}

// Checks 1 to 5, upward, by the job and the lengths of input, output and work: the job, checked.
pub fn check_input(input: usize, job: &[u8], output: usize, work: usize) -> Result<Job<'_>, Refusal>
    ensures { (check_of result ≡ input_check input job.now output work) × GivesJob job.now result }
{
    let checked = check_start(input, job)?;
    if !buffers_right(input, output, work) {
        return Err(Refusal::Buffers);
    }
    Ok(checked)
}

// The same for a call without output, which takes a job of one method: 17 after 4, and 5 by the work buffer alone.
pub fn check_needs(batch: usize, job: &[u8], work: usize) -> Result<Job<'_>, Refusal>
    ensures { (check_of result ≡ needs_check batch job.now work) × GivesJob job.now result }
{
    let checked = check_start(batch, job)?;
    if entries::count(job) != 1 {
        return Err(Refusal::NotOne);
    }
    if batch <= work {
        Ok(checked)
    } else {
        Err(Refusal::Buffers)
    }
}

fn count_lines(batch: &[u8]) -> usize
    ensures { result ≡ length (lines batch.now) }
{
    memchr::memchr_iter(b'\n', batch).count()
}

fn batch_right(batch: &[u8]) -> bool
    ensures { result ≡ batch_right batch.now }
{
    match batch {
        [] => true,
        [.., last] => *last == 10 && count_lines(batch) <= MAX_LINES,
    }
}

// Check 6.
#[tactic(auto, unfolding(rules::specs::Refusal::unless))]
pub fn check_batch(batch: &[u8]) -> Result<(), Refusal>
    ensures { check_of result ≡ unless (batch_right batch.now) 6 }
{
    if !batch_right(batch) {
        return Err(Refusal::Batch);
    }
    Ok(())
}

// The lines of a batch in turn, each without the byte 10 that ends it.
#[derive(Drop)]
pub struct BatchLines<'a> {
    rest: &'a [u8],
}

pub fn lines(batch: &[u8]) -> BatchLines<'_>
    ensures { bytes_left result ≡ batch.now }
{
    BatchLines { rest: batch }
}

impl<'a> Iterator for BatchLines<'a> {
    type Item = &'a [u8];

    ghost next_gives = { GivesLine };

    ghost remaining = { item_count lines_left };

    fn next(&mut self) -> Option<&'a [u8]> {
        let rest = self.rest;
        let end = rest.iter().position(|byte| *byte == 10)?;
        self.rest = &rest[end + 1..];
        Some(&rest[..end])
    }
}
