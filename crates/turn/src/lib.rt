// One turn of the driver, `Corrector::correct` of src/correct/mod.rs: a base is taken, its k-mer looked up and, where that is not solid
// while the previous was, an attempt made. Document 01, "Driver", and document 02, W5 and W8.
#![tactic(auto)]

ghost use Rattle.std.specs.Prelude.{◌≡◌, ◌+◌, ◌≤◌, ◌<◌, ◌^◌, length, set as put};
ghost use Rattle.rules.specs.Set.{set_of, solid, count_of};
ghost use Rattle.rules.specs.Scan.{error_len};
ghost use Rattle.kmer.specs.Kmer.{kmer_of, IsKmer};
ghost use Rattle.scan.specs.Attempt.{Attempted};
ghost use Rattle.turn.specs.Turn.{Fits, Summed, offered, attempt_of, kept_by, mended_by, Kept, Mended, Turning, BadAt, TurnIs};

use entries::Entry;
use kmer::Kmer;
use scan::Attempt;
use scenario::{ScenarioOne, ScenarioTwo};
use set::KmerSet;

// What was written and counted, the smallest count behind the accepted corrections (None where nothing was accepted), and the bases beyond the
// first k (W), which a pass tells at its end.
#[derive(Clone, Copy, Default)]
pub struct Counts {
    pub written: usize,
    pub turns: u64,
    pub lookups: u64,
    pub attempts: u64,
    pub accepted: u64,
    pub support: Option<u32>,
    pub bases: u64,
}

impl Counts {
    // The sums of these and more, and their support.
    pub fn plus(self, more: Counts) -> Counts
        requires { Fits self more }
        ensures { Summed self more result }
    {
        Counts {
            written: self.written + more.written,
            turns: self.turns + more.turns,
            lookups: self.lookups + more.lookups,
            attempts: self.attempts + more.attempts,
            accepted: self.accepted + more.accepted,
            support: support::weaker(self.support, more.support),
            bases: self.bases + more.bases,
        }
    }
}

// Where a pass stands: its k-mer, whether that counts as solid (the turn that comes has it as the previous one), the index of the next base,
// and what is done. `written` counts the bytes put out, which stand in the output where there is room; `bases` is 0 until the pass ends.
#[derive(Clone, Copy)]
pub struct Place {
    pub kmer: Kmer,
    pub previous: bool,
    pub at: usize,
    pub done: Counts,
}

// The buffer is too short: for what is put out, or for GapSize to look back at its letters.
#[derive(Clone, Copy)]
pub struct Full;

// An attempt under an entry, kmer being the bad k-mer and s the rest of the read at its bad base. The method stays a byte, since every byte
// has a meaning in the rules: all but 1 to 3 are GapSize.
fn correct_error(set: &KmerSet, entry: Entry, kmer: Kmer, s: &[u8], out: &mut [u8]) -> Attempt
    requires { IsKmer set.now.head.k kmer × (1 ≤ length s.now) }
    ensures { Attempted set.now.head.k (kmer_of kmer) (count_of (offered set.now))
        (error_len set.now.head.k (solid (set_of set.now.bytes.now)) (kmer_of kmer) s.now).index out.old out.new
        (attempt_of set.now entry s.now (kmer_of kmer))
        result }
{
    let c = entry.confirm;
    match entry.method {
        1 => exist::correct_error::<ScenarioOne>(set, c, 0, kmer, s, out),
        2 => exist::correct_error::<ScenarioTwo>(set, c, 0, kmer, s, out),
        3 => graph::correct_error(set, kmer, s, out),
        _ => gap_size::correct_error(set, c, kmer, s, out),
    }
}

// The base is kept: its k-mer becomes the pass's, and solid says what its lookup answered.
fn keep(
    p: Place,
    base: u8,
    kmer: Kmer,
    solid: bool,
    attempts: u64,
    lookups: u64,
    out: &mut [u8],
) -> Place
    requires { (p.at < 2 ^ 63) × Fits p.done (kept_by attempts lookups) }
    ensures { Kept p kmer solid attempts lookups result × (out.new ≡ put out.old 0 base) }
{
    if 0 < out.len() {
        out[0] = base;
    }
    Place {
        kmer,
        previous: solid,
        at: p.at + 1,
        done: p.done.plus(Counts {
            written: 1,
            turns: 1,
            lookups,
            attempts,
            ..Counts::default()
        }),
    }
}

// An accepted attempt: the bad k-mer with its letters in place of the last one becomes the pass's, which goes on `resume` bases further or
// stops at the read's end, `len`; support is the smallest count that the attempt rests on.
fn mend(
    p: Place,
    kmer: Kmer,
    letters: usize,
    resume: usize,
    lookups: u64,
    support: u32,
    len: usize,
) -> Place
    requires { (p.at ≤ len) × Fits p.done (mended_by letters lookups support) }
    ensures { Mended p kmer letters resume lookups support len result }
{
    let more = Counts {
        written: letters,
        turns: 1,
        lookups,
        attempts: 1,
        accepted: 1,
        support: Some(support),
        bases: 0,
    };
    Place {
        kmer,
        previous: true,
        at: p.at + resume.min(len - p.at),
        done: p.done.plus(more),
    }
}

// A turn at a base whose k-mer, asked by that many lookups, is not solid while the previous was.
fn bad_base(
    set: &KmerSet,
    entry: Entry,
    p: Place,
    bad: Kmer,
    asked: u64,
    read: &[u8],
    out: &mut [u8],
) -> Result<Place, Full>
    requires turning { Turning set.now entry p read.now }
    requires bad_at { BadAt set.now p bad asked read.now }
    ensures { TurnIs set.now entry p read.now out.old out.new result }
{
    let at = p.at;
    match correct_error(set, entry, bad, &read[at..], out) {
        Attempt::Mend(letters, resume, lookups, support, kmer) => Ok(mend(
            p,
            kmer,
            letters,
            resume,
            asked + lookups,
            support,
            read.len(),
        )),
        Attempt::Refused(lookups) => Ok(keep(p, read[at], bad, false, 1, asked + lookups, out)),
        Attempt::Full => Err(Full),
    }
}

// One turn. What it puts out stands at the start of `out` if there is room for it, and is counted.
pub fn turn(
    set: &KmerSet,
    entry: Entry,
    p: Place,
    read: &[u8],
    out: &mut [u8],
) -> Result<Place, Full>
    requires { Turning set.now entry p read.now }
    ensures { TurnIs set.now entry p read.now out.old out.new result }
{
    let base = read[p.at];
    let next = scan::add_base(p.kmer, base, set.head);
    let asked = set.ask(next);
    if asked.solid {
        return Ok(keep(p, base, next, true, 0, asked.lookups, out));
    }
    if !p.previous {
        return Ok(keep(p, base, next, false, 0, asked.lookups, out));
    }
    bad_base(set, entry, p, next, asked.lookups, read, out)
}
