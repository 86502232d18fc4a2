// Cases that the list of replay lacks: inputs too long for it, the limit of lines, and each refusal of a set by the batch call. A line for
// each: the answer, and how many lent bytes are as they were and how many are zero.
#![tactic(auto)]

use needs::Need;
use refusal::Refusal;
use report::Report;
use std::alloc::Global;
use std::{fmt, io};

// What the lent bytes are before a call.
const FILL: u8 = 170;

const ONE: &[u8] = b"\x01\x01";

const GRAPH: &[u8] = b"\x03\x01";

// What a call tells.
#[derive(Drop)]
struct Told<T>(Result<T, Refusal>);

impl fmt::Display for Told<Report> {
    fn fmt<W: fmt::Write>(&self, f: &mut fmt::Formatter<W>) -> fmt::Result {
        match self.0 {
            Ok(report) => write!(
                f,
                "written {} turns {} lookups {} bases {} quotient {} remainder {}",
                report.written,
                report.turns,
                report.lookups,
                report.bases,
                report.quotient,
                report.remainder
            ),
            Err(refusal) => write!(f, "{refusal}"),
        }
    }
}

impl fmt::Display for Told<Need> {
    fn fmt<W: fmt::Write>(&self, f: &mut fmt::Formatter<W>) -> fmt::Result {
        match self.0 {
            Ok(need) => write!(
                f,
                "bytes {} turns {} lookups {}",
                need.bytes, need.turns, need.lookups
            ),
            Err(refusal) => write!(f, "{refusal}"),
        }
    }
}

// How many lent bytes are as they were, and how many are zero.
#[derive(Drop)]
struct Lent<'a>(&'a [u8]);

impl fmt::Display for Lent<'_> {
    fn fmt<W: fmt::Write>(&self, f: &mut fmt::Formatter<W>) -> fmt::Result {
        let kept = self.0.iter().filter(|byte| **byte == FILL).count();
        let zero = self.0.iter().filter(|byte| **byte == 0).count();
        write!(f, "kept {kept} zero {zero}")
    }
}

fn print_case(
    rt: &impl Print,
    name: &str,
    answer: Result<Report, Refusal>,
    output: &[u8],
    work: &[u8],
) -> io::Result<()> {
    println!(rt;
        "{name}: {}; output {}, work {}",
        Told(answer),
        Lent(output),
        Lent(work)
    )
}

// A single read, with output and work buffer of these lengths.
fn read_case(
    rt: &impl Print,
    alloc: Global,
    name: &str,
    set: &[u8],
    job: &[u8],
    read: &[u8],
    room: usize,
    rest: usize,
) -> io::Result<()> {
    let mut output = vec![in alloc; FILL; room]?;
    let mut work = vec![in alloc; FILL; rest]?;
    let answer = job::correct_read(set, b"", &[], job, read, &mut output, &mut work);
    print_case(rt, name, answer, &output, &work)
}

fn batch_case(
    rt: &impl Print,
    alloc: Global,
    name: &str,
    set: &[u8],
    batch: &[u8],
    room: usize,
    rest: usize,
) -> io::Result<()> {
    let mut output = vec![in alloc; FILL; room]?;
    let mut work = vec![in alloc; FILL; rest]?;
    let answer = job::correct_batch(set, b"", &[], ONE, batch, &mut output, &mut work);
    print_case(rt, name, answer, &output, &work)
}

fn needs_case(
    rt: &impl Print,
    alloc: Global,
    name: &str,
    set: &[u8],
    batch: &[u8],
    rest: usize,
) -> io::Result<()> {
    let mut work = vec![in alloc; FILL; rest]?;
    let need = needs::needs(set, b"", &[], GRAPH, batch, &mut work);
    println!(rt; "{name}: {}; work {}", Told(need), Lent(&work))
}

// The sample set: k = 3, keys 6, 23, 51, 58, 60.
fn sample_set() -> [u8; 1024] {
    let mut set = [0u8; 1024];
    set[0] = 3;
    set[8] = 5;
    set[504] = 9;
    set[512] = 6;
    set[520] = 23;
    set[528] = 51;
    set[536] = 58;
    set[544] = 60;
    set[1016] = 200;
    set
}

// Refusal 1.
fn long_cases(rt: &impl Print, alloc: Global, set: &[u8]) -> io::Result<()> {
    let long = vec![in alloc; b'A'; 1048577]?;
    batch_case(
        rt,
        alloc,
        "batch of 1048577 bytes",
        set,
        &long,
        1048577,
        2097153,
    )?;
    read_case(
        rt,
        alloc,
        "read of 1048577 bytes",
        set,
        ONE,
        &long,
        1048576,
        2097152,
    )?;
    needs_case(rt, alloc, "needs of 1048577 bytes", set, &long, 2097153)
}

// Refusal 5 by the longest buffers.
fn buffer_cases(rt: &impl Print, alloc: Global, set: &[u8]) -> io::Result<()> {
    read_case(
        rt,
        alloc,
        "output of 1048577 bytes",
        set,
        ONE,
        b"AAA",
        1048577,
        2097152,
    )?;
    read_case(
        rt,
        alloc,
        "work of 2097153 bytes",
        set,
        ONE,
        b"AAA",
        1048576,
        2097153,
    )
}

// Accepted with the longest read and buffers; for needs there is no work buffer too long.
fn longest_cases(rt: &impl Print, alloc: Global, set: &[u8]) -> io::Result<()> {
    let longest = vec![in alloc; b'A'; 1048576]?;
    read_case(
        rt,
        alloc,
        "read of 1048576 bytes",
        set,
        ONE,
        &longest,
        1048576,
        2097152,
    )?;
    let batch = b"AACGCCG\nAA\n";
    needs_case(
        rt,
        alloc,
        "needs, work of 2097153 bytes",
        set,
        batch,
        2097153,
    )
}

// Refusal 5, work against twice the longer of output and read.
fn work_cases(rt: &impl Print, alloc: Global, set: &[u8]) -> io::Result<()> {
    let read = b"AACAACAAC";
    read_case(
        rt,
        alloc,
        "work of 15, output of 8",
        set,
        ONE,
        b"AAC",
        8,
        15,
    )?;
    read_case(rt, alloc, "work of 17, read of 9", set, ONE, read, 8, 17)?;
    read_case(rt, alloc, "work of 18, read of 9", set, ONE, read, 8, 18)?;
    read_case(
        rt,
        alloc,
        "work of 16, output of 8",
        set,
        ONE,
        b"AAC",
        8,
        16,
    )
}

// Refusal 2; the second job has eight entries and half of one.
fn entry_cases(rt: &impl Print, alloc: Global, set: &[u8]) -> io::Result<()> {
    read_case(rt, alloc, "9 entries", set, &[1; 18], b"AACC", 8, 16)?;
    read_case(rt, alloc, "job of 17 bytes", set, &[1; 17], b"AACC", 8, 16)?;
    read_case(rt, alloc, "8 entries", set, &[1; 16], b"AACC", 8, 16)
}

fn line_cases(rt: &impl Print, alloc: Global, set: &[u8]) -> io::Result<()> {
    batch_case(rt, alloc, "1025 lines", set, &[b'\n'; 1025], 1024, 2050)?;
    batch_case(rt, alloc, "1024 lines", set, &[b'\n'; 1024], 1024, 2050)
}

fn set_case(rt: &impl Print, alloc: Global, name: &str, set: &[u8]) -> io::Result<()> {
    batch_case(rt, alloc, name, set, b"AAC\n", 8, 16)
}

fn header_cases(rt: &impl Print, alloc: Global, sample: [u8; 1024]) -> io::Result<()> {
    let mut set = sample;
    set[0] = 4;
    set_case(rt, alloc, "wrong check of block 0", &set)?;
    set[504] = 10;
    set_case(rt, alloc, "even k", &set)
}

fn key_cases(rt: &impl Print, alloc: Global, sample: [u8; 1024]) -> io::Result<()> {
    let mut set = sample;
    set[512] = 7;
    set_case(rt, alloc, "wrong check of block 1", &set)?;
    set[1016] = 201;
    set_case(rt, alloc, "first key not canonical", &set)
}

fn main(rt: HostRuntime) -> io::Result<()> {
    let alloc = rt.alloc();
    let set = sample_set();
    long_cases(&rt, alloc, &set)?;
    buffer_cases(&rt, alloc, &set)?;
    longest_cases(&rt, alloc, &set)?;
    work_cases(&rt, alloc, &set)?;
    entry_cases(&rt, alloc, &set)?;
    line_cases(&rt, alloc, &set)?;
    set_case(&rt, alloc, "no set", b"")?;
    set_case(&rt, alloc, "set of 513 bytes", &[0; 513])?;
    header_cases(&rt, alloc, set)?;
    key_cases(&rt, alloc, set)
}
