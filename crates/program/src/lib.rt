// The program of document 01, "Sample reads": what it prints for its files, as bytes on a page.
#![tactic(auto)]

ghost use Rattle.std.specs.Prelude.{[], ◌≡◌, length};
ghost use Rattle.rules.specs.Calls.{correct_batch};
ghost use Rattle.rules_program.specs.Program.{up_to, printed_for, zeros};
ghost use Rattle.rules_program.specs.Program.{printed as Program·printed};
ghost use Rattle.report.specs.Answer.{given};
ghost use Rattle.page.specs.Page.{Page};
ghost use Rattle.program.specs.Given.{file_of, files_of};
ghost use Rattle.program.specs.Answered.{Answered};

use refusal::Refusal;
use report::Report;

// The output, and 128 bytes more for a line of three numbers.
pub const PAGE: usize = 32896;

const OUTPUT: usize = 32768;

const WORK: usize = 65536;

const MAX_SET: usize = 65536;

const MAX_JOB: usize = 64;

const MAX_BATCH: usize = 16384;

const BAD_FILE: &[u8] = b"bad file\n";

// The files' bytes; none of a file that is missing or was not read to its end.
#[derive(Clone, Copy)]
pub struct Files<'a> {
    pub set: Option<&'a [u8]>,
    pub job: Option<&'a [u8]>,
    pub batch: Option<&'a [u8]>,
}

// A file's bytes, unless they are too many.
fn taken(file: Option<&[u8]>, most: usize) -> Option<&[u8]>
    ensures { file_of result ≡ up_to most (file_of file.entry) }
{
    let bytes = file?;
    if bytes.len() <= most {
        Some(bytes)
    } else {
        None
    }
}

// The call. The page is empty, and its first bytes are the call's output.
fn call_on(set: &[u8], job: &[u8], batch: &[u8], page: &mut [u8]) -> Result<Report, Refusal>
    requires { Page [] 0 page.old }
    ensures { Answered (correct_batch (given set.now [] [] job.now batch.now (zeros 32768) (zeros 65536)))
        result page.new }
{
    let mut work = [0u8; WORK];
    job::correct_batch(set, b"", &[], job, batch, &mut page[..OUTPUT], &mut work)
}

// The call's answer, behind its output.
fn put_answer(set: &[u8], job: &[u8], batch: &[u8], page: &mut [u8]) -> usize
    requires { Page [] 0 page.old }
    ensures { Page (printed_for (correct_batch (given set.now [] [] job.now batch.now (zeros 32768) (zeros 65536))))
        result page.new }
{
    match call_on(set, job, batch, page) {
        Ok(report) => page::put_report(page, report),
        Err(refusal) => page::put_refusal(page, refusal),
    }
}

// Puts on the page what the program prints, zeros behind it, and answers how many bytes that is.
pub fn printed(files: Files, page: &mut [u8; PAGE]) -> usize
    ensures { Page (Program·printed (files_of files.entry)) result page.new }
{
    page.fill(0);
    let Some(set) = taken(files.set, MAX_SET) else {
        return page::put(page, 0, BAD_FILE);
    };
    let Some(job) = taken(files.job, MAX_JOB) else {
        return page::put(page, 0, BAD_FILE);
    };
    let Some(batch) = taken(files.batch, MAX_BATCH) else {
        return page::put(page, 0, BAD_FILE);
    };
    if job.len() % 2 != 0 {
        return page::put(page, 0, BAD_FILE);
    }
    put_answer(set, job, batch, page)
}
