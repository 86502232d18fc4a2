// Document 01, "GapSize": ports src/correct/gap_size.rs.
#![tactic(auto)]

ghost use Rattle.std.specs.Prelude.{◌-◌, ◌^◌, ◌≤◌, ◌<◌, length};
ghost use Rattle.rules.specs.Set.{solid, set_of, count_of};
ghost use Rattle.rules.specs.Counted.{after};
ghost use Rattle.rules.specs.Scan.{error_len};
ghost use Rattle.rules.specs.GapSize.{gap_from, gap_size};
ghost use Rattle.kmer.specs.Kmer.{kmer_of, IsKmer};
ghost use Rattle.set.specs.Counted.{set_with};
ghost use Rattle.scan.specs.Attempt.{Attempted};
ghost use Rattle.gap.specs.Gap.{Fillable, GapIs};

use exist::ScenarioOne;
use kmer::Kmer;
use scan::{Attempt, Scan};
use set::KmerSet;

// A gap with a filter of N words, on the stack.
fn fill<const N: usize>(set: &KmerSet, scan: Scan, x: Kmer, count: u32, out: &mut [u8]) -> Attempt
    requires { Fillable set.now scan x count out.old × (0 < N) × (N ≤ 131072) }
    ensures { GapIs set.now scan x out.old out.new result }
{
    let mut filter = [0u64; N];
    gap::fill(set, scan, x, count, &mut filter, out)
}

// The filter goes by the number of moves, a word for two of them where it can, so that a short gap clears little.
fn fill_by_length(set: &KmerSet, scan: Scan, x: Kmer, count: u32, out: &mut [u8]) -> Attempt
    requires { Fillable set.now scan x count out.old }
    ensures { GapIs set.now scan x out.old out.new result }
{
    match scan.index - set.head.k {
        0..=128 => fill::<64>(set, scan, x, count, out),
        129..=8192 => fill::<4096>(set, scan, x, count, out),
        _ => fill::<131072>(set, scan, x, count, out),
    }
}

// Above k, after the scan. A gap looks back at its letters: without room for index − k + 1 of them the attempt is Full even if it would be
// refused, since the bases that the scan passed have no room either.
fn ins_sub_correction(set: &KmerSet, scan: Scan, kmer: Kmer, out: &mut [u8]) -> Attempt
    requires { IsKmer set.now.head.k kmer × (set.now.head.k ≤ scan.index) × (scan.lookups < 2 ^ 63) }
    ensures { Attempted set.now.head.k (kmer_of kmer) (count_of (set_with set.now.bytes.now set.now.counts.now)) scan.index
        out.old out.new
        (after scan.lookups (gap_from set.now.head.k (solid (set_of set.now.bytes.now)) (scan.index - set.now.head.k) (kmer_of kmer)))
        result }
{
    if out.len() <= scan.index - set.head.k {
        return Attempt::Full;
    }
    let alt = match successors::sole_alt(set, kmer) {
        Ok(alt) => alt,
        Err(lookups) => return Attempt::Refused(scan.lookups + lookups),
    };
    let count = support::count_at(set.counts, alt.place);
    fill_by_length(set, scan, alt.kmer, count, out)
}

// kmer is the bad k-mer, s the rest of the read at its bad base. The scan decides, and is made and counted once.
pub fn correct_error(set: &KmerSet, c: u8, kmer: Kmer, s: &[u8], out: &mut [u8]) -> Attempt
    requires { IsKmer set.now.head.k kmer × (1 ≤ length s.now) × (1 ≤ c) }
    ensures { Attempted set.now.head.k (kmer_of kmer) (count_of (set_with set.now.bytes.now set.now.counts.now))
        (error_len set.now.head.k (solid (set_of set.now.bytes.now)) (kmer_of kmer) s.now).index out.old out.new
        (gap_size set.now.head.k set.now.head.n (solid (set_of set.now.bytes.now)) c s.now (kmer_of kmer))
        result }
{
    let scan = scan::error_len(set, kmer, s);
    if scan.index < set.head.k {
        return graph::from_scan(set, scan, kmer, out);
    }
    if scan.index == set.head.k {
        return exist::correct_error::<ScenarioOne>(set, c, scan.lookups, kmer, s, out);
    }
    ins_sub_correction(set, scan, kmer, out)
}
