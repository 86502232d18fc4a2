// The program over files of its own folder, one case after the other; `stdout` holds what document 01 says of each. full.set has k = 9 and as keys the
// first 8,001 canonical codes, which fill 127 blocks; long.set and long.batch are full.set and full.batch and a byte more, long.job is full.job and an entry more.
#![tactic(auto)]

use std::rt::Files;
use std::{fs, io};

fn case<R: Files + Print>(rt: &R, name: &str, set: &str, job: &str, batch: &str) -> io::Result<()> {
    println!(rt; "== {name}")?;
    run::run(rt, set, job, fs::open(rt, batch))
}

fn accepted<R: Files + Print>(rt: &R) -> io::Result<()> {
    case(rt, "the printed case", "solid.set", "job", "batch")?;
    case(rt, "an empty batch", "solid.set", "job", "empty.batch")?;
    case(rt, "no methods", "solid.set", "empty.job", "batch")
}

fn refused<R: Files + Print>(rt: &R) -> io::Result<()> {
    case(
        rt,
        "an unknown method in entry 1",
        "solid.set",
        "unknown.job",
        "batch",
    )?;
    case(
        rt,
        "confirm 0 in entry 1",
        "solid.set",
        "confirm.job",
        "batch",
    )?;
    case(
        rt,
        "a wrong check in block 1",
        "damaged.set",
        "job",
        "batch",
    )?;
    case(
        rt,
        "a batch without a final byte 10",
        "solid.set",
        "job",
        "open.batch",
    )
}

fn bad_file<R: Files + Print>(rt: &R) -> io::Result<()> {
    case(rt, "no set", "no.set", "job", "batch")?;
    case(rt, "no job", "solid.set", "no.job", "batch")?;
    case(rt, "no batch", "solid.set", "job", "no.batch")?;
    case(rt, "a job of 3 bytes", "solid.set", "odd.job", "batch")
}

fn limits<R: Files + Print>(rt: &R) -> io::Result<()> {
    case(
        rt,
        "a set of 65,536 bytes, its k longer than the reads",
        "full.set",
        "job",
        "batch",
    )?;
    case(rt, "a set of 65,537 bytes", "long.set", "job", "batch")?;
    case(rt, "a job of 64 bytes", "solid.set", "full.job", "batch")?;
    case(rt, "a job of 66 bytes", "solid.set", "long.job", "batch")?;
    case(
        rt,
        "a batch of 16,384 bytes",
        "solid.set",
        "empty.job",
        "full.batch",
    )?;
    case(
        rt,
        "a batch of 16,385 bytes",
        "solid.set",
        "empty.job",
        "long.batch",
    )
}

fn main(rt: HostRuntime) -> io::Result<()> {
    accepted(&rt)?;
    refused(&rt)?;
    bad_file(&rt)?;
    limits(&rt)
}
