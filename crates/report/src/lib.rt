// How a call ends: with a report or a refusal, and what it leaves in the lent buffers.
#![tactic(auto)]

ghost use Rattle.std.specs.Prelude.{◌≡◌, ◌≤◌, ◌<◌, ◌^◌, length};
ghost use Rattle.rules.specs.Report.{yield_of, quotient_of, remainder_of};
ghost use Rattle.report.specs.Ending.{Cleared, report_on};

use correct::Counts;
use refusal::Refusal;
use std::cmp::Ordering;

// Document 01, "Report", and document 02, W8 and W10.
#[derive(Clone, Copy)]
pub struct Report {
    pub written: usize,
    pub turns: u64,
    pub lookups: u64,
    pub attempts: u64,
    pub accepted: u64,
    pub yield_: u64,
    // The smallest count behind the accepted corrections. None where no counts are offered or nothing was accepted.
    pub support: Option<u32>,
    // Lookups for each base, and the bases: the sum of W over all passes.
    pub quotient: u64,
    pub remainder: u64,
    pub bases: u64,
}

// Zeros behind the bytes written, and in the whole work buffer.
fn clear_rest(written: usize, output: &mut [u8], work: &mut [u8])
    requires { written ≤ length output.old }
    ensures { Cleared written output.old (length work.old) output.new work.new }
{
    output[written..].fill(0);
    work.fill(0);
}

// Refusal 11.
pub fn no_room(line: usize, output: &mut [u8], work: &mut [u8]) -> Refusal
    ensures { (result ≡ Refusal.NoRoom line)
        × Cleared 0 output.old (length work.old) output.new work.new }
{
    clear_rest(0, output, work);
    Refusal::NoRoom(line)
}

// accepted × 1000 / attempts to the nearest whole, an exact half to the even neighbour (document 02, W4).
#[tactic(auto, unfolding(rules::specs::Report::yield_of, rules::specs::Report::nearest))]
fn yield_of(accepted: u64, attempts: u64) -> u64
    requires { accepted < 2 ^ 54 }
    ensures { result ≡ yield_of accepted attempts }
{
    if attempts == 0 {
        return 0;
    }
    let whole = accepted * 1000 / attempts;
    let rest = accepted * 1000 % attempts;
    match rest.cmp(&(attempts - rest)) {
        Ordering::Less => whole,
        Ordering::Greater => whole + 1,
        Ordering::Equal => whole + whole % 2,
    }
}

// Accepted: the report on what was done. A support is told where the set has counts (document 02, W8). Lookups for each base are a whole
// quotient and what is left; without bases both are 0 (document 02, W10).
#[tactic(auto, unfolding(rules::specs::Report::quotient_of, rules::specs::Report::remainder_of))]
pub fn accept(done: Counts, has_counts: bool, output: &mut [u8], work: &mut [u8]) -> Report
    requires { (done.written ≤ length output.old) × (done.accepted < 2 ^ 54) }
    ensures { (result ≡ report_on has_counts done)
        × Cleared done.written output.old (length work.old) output.new work.new }
{
    clear_rest(done.written, output, work);
    Report {
        written: done.written,
        turns: done.turns,
        lookups: done.lookups,
        attempts: done.attempts,
        accepted: done.accepted,
        yield_: yield_of(done.accepted, done.attempts),
        support: if has_counts { done.support } else { None },
        quotient: done.lookups.checked_div(done.bases).unwrap_or(0),
        remainder: done.lookups.checked_rem(done.bases).unwrap_or(0),
        bases: done.bases,
    }
}
