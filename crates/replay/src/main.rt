// Replays the list of cases on standard input, as `compare/run --list` writes it (compare/README.md has its format), and prints how many
// agree in the answer, the report and every byte of the lent buffers.
#![tactic(auto)]

mod agree;
mod list;

use agree::{lent_is, rest_of};
use list::{Kind, ListError, Record, counts_of, number_at, read_bytes};
use refusal::Refusal;
use report::Report;
use std::alloc::Global;
use std::io;
use std::io::Read;

// The most bytes of each part that the list may have.
const MAX_SET: usize = 8192;

const MAX_INDEX: usize = 34304;

const MAX_COUNTS: usize = 4096;

const MAX_JOB: usize = 64;

const MAX_INPUT: usize = 2048;

const MAX_OUTPUT: usize = 4096;

const MAX_WORK: usize = 8192;

// What is offered with the cases that follow: a set, an index and counts, empty where none are offered.
#[derive(Drop)]
struct Offered {
    set: Vec<u8>,
    index: Vec<u8>,
    counts: Vec<u32>,
}

impl Offered {
    fn nothing(alloc: Global) -> Self {
        Offered {
            set: Vec::new(alloc),
            index: Vec::new(alloc),
            counts: Vec::new(alloc),
        }
    }

    // Takes what a record that is no case offers; an index and counts are offered until the next set.
    fn take<L: Read>(
        &mut self,
        list: &mut L,
        alloc: Global,
        kind: Kind,
        record: &Record,
    ) -> Result<(), ListError> {
        match kind {
            Kind::Set => {
                self.set = read_bytes(list, alloc, record.length(), MAX_SET)?;
                self.index = Vec::new(alloc);
                self.counts = Vec::new(alloc);
            }
            Kind::Index => self.index = read_bytes(list, alloc, record.length(), MAX_INDEX)?,
            _ => {
                let bytes = read_bytes(list, alloc, record.length(), MAX_COUNTS)?;
                self.counts = counts_of(alloc, &bytes)?;
            }
        }
        Ok(())
    }
}

// A lent buffer as it is before a call.
fn lent(alloc: Global, length: usize, most: usize, fill: u8) -> Result<Vec<u8>, ListError> {
    if most < length {
        return Err(ListError::Malformed);
    }
    Ok(vec![in alloc; fill; length]?)
}

// The call that a record is about.
fn call(
    kind: Kind,
    offered: &Offered,
    job: &[u8],
    input: &[u8],
    output: &mut [u8],
    work: &mut [u8],
) -> Result<Report, Refusal> {
    let Offered { set, index, counts } = offered;
    match kind {
        Kind::Read => job::correct_read(set, index, counts, job, input, output, work),
        Kind::Fasta => fasta::correct_fasta(set, index, counts, job, input, output, work),
        _ => job::correct_batch(set, index, counts, job, input, output, work),
    }
}

// Its job and input follow, and the result that is expected.
fn call_agrees<L: Read>(
    list: &mut L,
    alloc: Global,
    offered: &Offered,
    kind: Kind,
    record: &Record,
    fill: u8,
) -> Result<bool, ListError> {
    let job = read_bytes(list, alloc, record.job(), MAX_JOB)?;
    let input = read_bytes(list, alloc, record.input(), MAX_INPUT)?;
    let expected = read_bytes(list, alloc, record.expected(), MAX_OUTPUT)?;
    let mut output = lent(alloc, record.output(), MAX_OUTPUT, fill)?;
    let mut work = lent(alloc, record.work(), MAX_WORK, fill)?;
    let answer = call(kind, offered, &job, &input, &mut output, &mut work);
    let told = match answer {
        Ok(_) => answer_numbers::numbers_of(answer) == record.answer(),
        Err(refusal) => record.refused(refusal),
    };
    let rest = rest_of(record, fill);
    Ok(told && lent_is(&output, &expected, rest) && lent_is(&work, b"", rest))
}

// The same of a call that has no output. A result of no bytes is expected; what a list holds in its place is passed over.
fn needs_agree<L: Read>(
    list: &mut L,
    alloc: Global,
    offered: &Offered,
    record: &Record,
    fill: u8,
) -> Result<bool, ListError> {
    let job = read_bytes(list, alloc, record.job(), MAX_JOB)?;
    let batch = read_bytes(list, alloc, record.input(), MAX_INPUT)?;
    read_bytes(list, alloc, record.expected(), MAX_OUTPUT)?;
    let mut work = lent(alloc, record.work(), MAX_WORK, fill)?;
    let Offered { set, index, counts } = offered;
    let need = needs::needs(set, index, counts, &job, &batch, &mut work);
    let told = match need {
        Ok(_) => answer_numbers::needs_numbers(need) == record.need(),
        Err(refusal) => record.refused(refusal),
    };
    Ok(told && lent_is(&work, b"", rest_of(record, fill)))
}

fn open_agrees(offered: &Offered, record: &Record) -> bool {
    let header = opening::open(&offered.set).map(|open| (open.k, open.n));
    match header {
        Ok(_) => answer_numbers::open_numbers(header) == record.opened(),
        Err(refusal) => record.refused(refusal),
    }
}

// Whether the next case agrees. Before it at most a set, an index and counts are offered, in this order.
fn case_agrees<L: Read>(
    list: &mut L,
    alloc: Global,
    offered: &mut Offered,
    fill: u8,
) -> Result<bool, ListError> {
    let mut record = Record::read(list)?;
    for kind in [Kind::Set, Kind::Index, Kind::Counts] {
        if record.kind()? == kind {
            offered.take(list, alloc, kind, &record)?;
            record = Record::read(list)?;
        }
    }
    match record.kind()? {
        Kind::Open => Ok(open_agrees(offered, &record)),
        Kind::Needs => needs_agree(list, alloc, offered, &record, fill),
        Kind::Set | Kind::Index | Kind::Counts => Err(ListError::Malformed),
        kind => call_agrees(list, alloc, offered, kind, &record, fill),
    }
}

// A record of zeros, and nothing behind it.
fn ends<L: Read>(list: &mut L) -> bool {
    let Ok(last) = Record::read(list) else {
        return false;
    };
    let mut more = [0u8; 1];
    last == Record::LAST && matches!(list.read(&mut more), Ok(0))
}

fn malformed(rt: &impl Print, case: u32) -> io::Result<()> {
    println!(rt; "bad list at case {case}")
}

fn replay<R: Print, L: Read>(
    rt: &R,
    alloc: Global,
    list: &mut L,
    cases: u32,
    fill: u8,
) -> io::Result<()> {
    let mut offered = Offered::nothing(alloc);
    let mut agree: u32 = 0;
    // By number, which is what is printed.
    for case in 0..cases {
        match case_agrees(list, alloc, &mut offered, fill) {
            Ok(true) => agree += 1,
            Ok(false) => println!(rt; "{case} differs")?,
            Err(ListError::Malformed) => return malformed(rt, case),
            Err(ListError::Memory(error)) => return Err(io::Error::from(error)),
        }
    }
    if !ends(list) {
        return malformed(rt, cases);
    }
    println!(rt; "{cases} cases: {agree} agree")
}

fn main(rt: HostRuntime) -> io::Result<()> {
    let mut list = rt.stdin();
    let mut head = [0u8; 36];
    let is_read = list.read_exact(&mut head).is_ok();
    if !is_read || number_at(&head, 0) != 1 {
        return malformed(&rt, 0);
    }
    replay(&rt, rt.alloc(), &mut list, number_at(&head, 1), head[24])
}
