// Words, numbers and lines, put on a page behind those that stand there.
#![tactic(auto)]

ghost use Rattle.std.specs.Prelude.{◌++◌, ◌≡◌, ◌+◌, ◌≤◌, length};
ghost use Rattle.rules_program.specs.Program.{decimal, refusal_line, counts_line};
ghost use Rattle.refusal.specs.Refusal.{refusal_of};
ghost use Rattle.report.specs.Answer.{report_of};
ghost use Rattle.page.specs.Page.{Puts};

use refusal::Refusal;
use report::Report;

// Puts bytes behind the `at` bytes of a page, and answers how many it then has.
pub fn put(page: &mut [u8], at: usize, bytes: &[u8]) -> usize
    requires { at + length bytes.now ≤ length page.old }
    ensures { (result ≡ at + length bytes.now)
        × Puts page.old at bytes.now result page.new }
{
    let end = at + bytes.len();
    page[at..end].copy_from_slice(bytes);
    end
}

// A word and a number, which has at most 20 digits. By io::decimal, whose digits a proof knows, as it does not those of Display.
fn put_number(page: &mut [u8], at: usize, word: &[u8], number: u64) -> usize
    requires { at + length word.now + 20 ≤ length page.old }
    ensures { (result ≤ at + length word.now + 20)
        × Puts page.old at (word.now ++ decimal number) result page.new }
{
    let mut digits = [0u8; 20];
    let count = io::decimal(number, &mut digits);
    let after = put(page, at, word);
    put(page, after, &digits[..count])
}

// The counts, behind the corrected lines.
pub fn put_report(page: &mut [u8], report: Report) -> usize
    requires { report.written + 128 ≤ length page.old }
    ensures { Puts page.old report.written (counts_line (report_of report)) result page.new }
{
    let lines = report.written;
    let turns = put_number(page, lines, b"turns ", report.turns);
    let lookups = put_number(page, turns, b" lookups ", report.lookups);
    let written = put_number(page, lookups, b" written ", lines as u64);
    put(page, written, b"\n")
}

pub fn put_refusal(page: &mut [u8], refusal: Refusal) -> usize
    requires { 128 ≤ length page.old }
    ensures { Puts page.old 0 (refusal_line (refusal_of refusal)) result page.new }
{
    let number = refusal.number();
    let place = refusal.place();
    let middle = put_number(page, 0, b"refused ", number);
    let end = put_number(page, middle, b" place ", place);
    put(page, end, b"\n")
}
