// The records of a FASTA file: checks 6 and 18, and a record's sequence lines joined. Document 02, W11.
#![tactic(auto)]

ghost use Rattle.std.specs.Prelude.{◌≡◌, ◌≤◌, ◌<◌, ◌^◌, [], length};
ghost use Rattle.rules_fasta.specs.Fasta.{is_name, line_right};
ghost use Rattle.input.specs.Input.{check_of, bytes_left};
ghost use Rattle.records.specs.Records.{file_check, line_of, SeenWith, SeenIn, JoinedIs};

use input::BatchLines;
use refusal::Refusal;

const MAX_RECORDS: usize = 1024;

const MARK: u8 = b'>';

// A name line starts with `>`.
fn is_name(line: &[u8]) -> bool
    ensures { result ≡ is_name line.now }
{
    line.first() == Some(&MARK)
}

// A sequence line stands behind a name line and holds no `>`; a line of no bytes is skipped.
fn line_right(named: bool, line: &[u8]) -> bool
    ensures { result ≡ line_right named line.now }
{
    if line.is_empty() || is_name(line) {
        return true;
    }
    named && !line.contains(&MARK)
}

// What is seen of a file's first lines: their records, and their number, or the first of them that 18 does not let pass.
#[derive(Clone, Copy)]
struct Seen {
    records: usize,
    lines: Result<usize, usize>,
}

// A line more.
fn see(seen: Seen, line: &[u8]) -> Seen
    requires { (seen.records < 2 ^ 32) × (line_of seen.lines < 2 ^ 32) }
    ensures { SeenWith seen line.now result }
{
    let named = 0 < seen.records;
    Seen {
        records: seen.records + usize::from(is_name(line)),
        lines: match seen.lines {
            Ok(i) if line_right(named, line) => Ok(i + 1),
            Ok(i) => Err(i),
            Err(i) => Err(i),
        },
    }
}

// All lines, looked at once for both checks.
fn see_all(file: &[u8]) -> Seen
    requires { length file.now < 2 ^ 32 }
    ensures { SeenIn file.now [] result }
{
    let mut seen = Seen {
        records: 0,
        lines: Ok(0),
    };
    for line in input::lines(file) {
        seen = see(seen, line);
    }
    seen
}

// Checks 6 and 18.
pub fn check_file(file: &[u8]) -> Result<(), Refusal>
    requires { length file.now < 2 ^ 32 }
    ensures { check_of result ≡ file_check file.now }
{
    if file.is_empty() {
        return Ok(());
    }
    if file[file.len() - 1] != b'\n' {
        return Err(Refusal::Batch);
    }
    let seen = see_all(file);
    if MAX_RECORDS < seen.records {
        return Err(Refusal::Batch);
    }
    match seen.lines {
        Ok(_) => Ok(()),
        Err(line) => Err(Refusal::Sequence(line)),
    }
}

// How long a joined read is, and the name line behind it, if any.
#[derive(Clone, Copy)]
pub struct Joined<'a> {
    pub read: usize,
    pub name: Option<&'a [u8]>,
}

// The lines up to the next name line, joined at the front of the work buffer without their ends.
pub fn join<'a>(lines: &mut BatchLines<'a>, work: &mut [u8]) -> Joined<'a>
    requires { length (bytes_left lines.old) ≤ length work.old }
    ensures { JoinedIs lines.old lines.new work.new result }
{
    let mut read = 0;
    // Tried: `for line in lines.by_ref()`; a proof can't say there what is left of the lines behind it.
    while let Some(line) = lines.next() {
        if is_name(line) {
            return Joined {
                read,
                name: Some(line),
            };
        }
        correct::copy(line, &mut work[read..read + line.len()]);
        read += line.len();
    }
    Joined { read, name: None }
}
