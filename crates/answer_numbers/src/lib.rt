// A call's answer as numbers, and numbers told in a slice that the host lends.
#![tactic(auto)]

ghost use Rattle.std.specs.Prelude.{◌≡◌, ◌<◌, length};
ghost use Rattle.refusal.specs.Refusal.{check_of};
ghost use Rattle.report.specs.Answer.{answer_of};
ghost use Rattle.solid.specs.Solid.{count_of};
ghost use Rattle.lay.specs.Made.{outcome_of};
ghost use Rattle.needs.specs.Needs.{answer_of as needs_told};
ghost use Rattle.answer_numbers.specs.Numbers.{numbers_of, OpenNumbers, solid_numbers, made_numbers, needs_numbers, check_numbers, Told};

use needs::Need;
use refusal::Refusal;
use report::Report;
use solid::Count;

// The numbers of a call.
#[tactic(auto, unfolding(crate::specs::Numbers::numbers_of))]
pub fn numbers_of(answer: Result<Report, Refusal>) -> [u64; 13]
    ensures { result ≡ numbers_of (answer_of answer) }
{
    match answer {
        Ok(report) => [
            0,
            0,
            report.written as u64,
            report.turns,
            report.lookups,
            report.attempts,
            report.accepted,
            report.yield_,
            report.support.is_some() as u64,
            u64::from(report.support.unwrap_or(0)),
            report.quotient,
            report.remainder,
            report.bases,
        ],
        Err(refusal) => refusal.numbers(),
    }
}

// The numbers of opening: of k and n, whatever they are, or of the refusal.
pub fn open_numbers(opened: Result<(usize, usize), Refusal>) -> [u64; 4]
    ensures { OpenNumbers opened result }
{
    match opened {
        Ok((k, n)) => [0, 0, k as u64, n as u64],
        Err(wrong) => wrong.numbers(),
    }
}

// The numbers of counting.
#[tactic(auto, unfolding(crate::specs::Numbers::solid_numbers))]
pub fn solid_numbers(count: Result<Count, Refusal>) -> [u64; 4]
    ensures { result ≡ solid_numbers (count_of count) }
{
    match count {
        Ok(count) => [0, 0, count.kmers, count.solid],
        Err(refusal) => refusal.numbers(),
    }
}

// The numbers of a maker of blocks.
#[tactic(auto, unfolding(crate::specs::Numbers::made_numbers))]
pub fn made_numbers(made: Result<usize, Refusal>) -> [u64; 3]
    ensures { result ≡ made_numbers (outcome_of made) }
{
    match made {
        Ok(length) => [0, 0, length as u64],
        Err(refusal) => refusal.numbers(),
    }
}

// The numbers of what a job needs.
#[tactic(auto, unfolding(crate::specs::Numbers::needs_numbers))]
pub fn needs_numbers(answer: Result<Need, Refusal>) -> [u64; 5]
    ensures { result ≡ needs_numbers (needs_told answer) }
{
    match answer {
        Ok(need) => [0, 0, need.bytes as u64, need.turns, need.lookups],
        Err(refusal) => refusal.numbers(),
    }
}

// The numbers of a call that only checks.
#[tactic(auto, unfolding(crate::specs::Numbers::check_numbers))]
pub fn check_numbers(checked: Result<(), Refusal>) -> [u64; 2]
    ensures { result ≡ check_numbers (check_of checked) }
{
    match checked {
        Ok(()) => [0, 0],
        Err(refusal) => refusal.numbers(),
    }
}

// Writes as many numbers as there is room for, and returns the first.
pub fn tell(numbers: &[u64], answer: &mut [u64]) -> u64
    requires { 0 < length numbers.now }
    ensures { Told numbers.now answer.old result answer.new }
{
    let end = numbers.len().min(answer.len());
    answer[..end].copy_from_slice(&numbers[..end]);
    numbers[0]
}
