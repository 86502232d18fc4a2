// The driver, `Corrector::correct` of src/correct/mod.rs: a pass, which is one read through one method. Document 01, "Driver", and document
// 02, W8 and W10.
#![tactic(auto)]

ghost use Rattle.std.specs.Prelude.{◌≡◌, ◌≤◌, length, take};
ghost use Rattle.rules.specs.Calls.{max_read};
ghost use Rattle.entries.specs.Entries.{entry_of};
ghost use Rattle.turn.specs.Turn.{offered};
ghost use Rattle.correct.specs.Pass.{Begun, unchanged_by, with_bases, one_pass, returned, PassIs, Passed};
ghost use Rattle.correct.specs.Drive.{Driving, Driven};

use entries::Entry;
use kmer::Kmer;
use set::KmerSet;
use turn::Place;
pub use turn::{Counts, Full};

// Bytes copied to the front of a buffer. A loop: with `copy_from_slice` the archive for C would need `memmove` from its host.
pub fn copy(src: &[u8], dst: &mut [u8])
    requires { length src.now ≤ length dst.old }
    ensures front { take (length src.now) dst.new ≡ src.now }
    ensures whole { length src.now ≡ length dst.old → dst.new ≡ src.now }
{
    for (i, byte) in src.iter().enumerate() {
        dst[i] = *byte;
    }
}

// The first k-mer, asked. Its letters count as put out.
pub fn begin(set: &KmerSet, read: &[u8]) -> Place
    requires { set.now.head.k ≤ length read.now }
    ensures { Begun set.now read.now result }
{
    let k = set.head.k;
    let kmer = kmer::seq2bit(read, set.head);
    let asked = set.ask(kmer);
    Place {
        kmer,
        previous: asked.solid,
        at: k,
        done: Counts {
            written: k,
            lookups: asked.lookups,
            ..Counts::default()
        },
    }
}

// A read of that length returned as it is, with nothing counted.
pub fn unchanged(len: usize) -> Counts
    ensures { result ≡ unchanged_by len }
{
    Counts {
        written: len,
        ..Counts::default()
    }
}

// Turns until no base is left. A turn is lent what is left of the buffer behind the bytes written, or behind `limit` of them: a pass whose
// bytes are kept has the buffer's length for it, and one whose bytes are only counted 0, so that GapSize can look back at its letters. Bytes
// beyond the limit are counted on. One loop for both, so that the turn becomes part of it: its stack frame has GapSize's filters, too much
// to lay out anew for every base.
pub fn turns_of(
    set: &KmerSet,
    entry: Entry,
    first: Place,
    read: &[u8],
    limit: usize,
    out: &mut [u8],
) -> Result<Counts, Full>
    requires { Driving set.now entry first read.now limit out.old }
    ensures { Driven set.now entry first read.now limit out.old out.new result }
{
    let mut p = first;
    let mut ahead = scan::first_ahead(set.head.n, read.len());
    // A while: a mend goes on several bases, and the place says which comes next.
    while p.at < read.len() {
        if ahead <= p.at {
            // A copy: a struct that is handed to a call lies in memory, and the pass's own k-mer need not.
            let kmer = Kmer {
                code: p.kmer.code,
                rev: p.kmer.rev,
                unknown: p.kmer.unknown,
            };
            ahead = scan::read_ahead(set, kmer, read, p.at);
        }
        let from = p.done.written.min(limit);
        p = turn::turn(set, entry, p, read, &mut out[from..])?;
    }
    let bases = (read.len() - set.head.k) as u64;
    Ok(Counts { bases, ..p.done })
}

// The read as it is.
pub fn copied(read: &[u8], out: &mut [u8]) -> Result<Counts, Full>
    ensures { PassIs (length out.old) out.new (with_bases (returned read.now) 0) result }
{
    if out.len() < read.len() {
        return Err(Full);
    }
    copy(read, out);
    Ok(unchanged(read.len()))
}

// One pass. Shorter than k: unchanged. Else the first k-mer is asked, and copied, and the turns come.
pub fn correct(set: &KmerSet, entry: Entry, read: &[u8], out: &mut [u8]) -> Result<Counts, Full>
    requires { length read.now ≤ max_read }
    ensures { Passed out.old out.new (one_pass (offered set.now) (entry_of entry) read.now) result }
{
    let k = set.head.k;
    if read.len() < k {
        return copied(read, out);
    }
    let room = out.len();
    if room < k {
        return Err(Full);
    }
    copy(&read[..k], out);
    let first = begin(set, read);
    let done = turns_of(set, entry, first, read, room, out)?;
    if room < done.written {
        return Err(Full);
    }
    Ok(done)
}
