// Document 01, "Graph": the walk of src/correct/graph.rs. The mark takes the place of the source's hash set. Document 02, W6: the source's
// question whether the current k-mer is solid is not put; W8: the smallest count of the walk's k-mers.
#![tactic(auto)]

ghost use Rattle.std.specs.Prelude.{◌≡◌, [], ◌∷◌, ◌+◌, ◌^◌, ◌<◌, set as put};
ghost use Rattle.rules.specs.Letters as letters;
ghost use Rattle.rules.specs.Letters.{last_letter, in_place};
ghost use Rattle.rules.specs.Set.{solid, set_of, count_of};
ghost use Rattle.rules.specs.Counted.{after};
ghost use Rattle.kmer.specs.Kmer.{kmer_of, IsKmer};
ghost use Rattle.set.specs.Counted.{set_with};
ghost use Rattle.scan.specs.Scan.{scan_of};
ghost use Rattle.scan.specs.Attempt.{Attempted};
ghost use Rattle.walk.specs.Walk.{walk_mend};

use kmer::Kmer;
use scan::{Attempt, Scan};
use set::KmerSet;

// The last letter of a k-mer, written where there is room.
pub fn write_last(out: &mut [u8], at: usize, kmer: Kmer)
    ensures { out.new ≡ put out.old at (last_letter (kmer_of kmer)) }
{
    if at < out.len() {
        out[at] = kmer::bit2nuc(kmer.code % 4);
    }
}

// The walk from x, which has that count and stands in the place of the bad k-mer, to the last k-mer of the scan, after all lookups up to x.
// Letters beyond the room are only counted. Scan, x and count are no type of their own: what is asked of them speaks of the set too.
pub fn walk(set: &KmerSet, scan: Scan, x: Kmer, count: u32, out: &mut [u8]) -> Attempt
    requires { IsKmer set.now.head.k x × (x.unknown ≡ 0) × (scan.index < 2 ^ 63) × (scan.lookups < 2 ^ 63)
        × (count ≡ count_of (set_with set.now.bytes.now set.now.counts.now) (kmer_of x)) }
    ensures { (y : letters.Kmer) → in_place set.now.head.k y (last_letter (kmer_of x) ∷ []) ≡ kmer_of x →
        Attempted set.now.head.k y (count_of (set_with set.now.bytes.now set.now.counts.now)) scan.index out.old out.new
        (after (scan.lookups + 4) (walk_mend set.now.head.k set.now.head.n (solid (set_of set.now.bytes.now)) (scan_of scan) (kmer_of x)))
        result }
{
    let end = scan.end;
    let resume = scan.index + 1;
    let mut lookups = scan.lookups + 4;
    if kmer::same(x, end) {
        return Attempt::Refused(lookups);
    }
    write_last(out, 0, x);
    let mut at = x;
    let mut weakest = count;
    let mut places = [0usize; 4];
    let mut mark = x;
    let mut marks_at = 1;
    // It never runs out (the rules' theorem walk-moves).
    let fuel = 6 * set.head.n;
    // By number: it tells where the move's letter goes, how many there are, and when the mark is set.
    for moves in 0..fuel {
        lookups += 4;
        let nucs = successors::next_nucs(set, at, &mut places);
        let Some(nuc) = successors::sole_nuc(nucs) else {
            return Attempt::Refused(lookups);
        };
        let next = kmer::add_nuc_to_end(at, nuc, set.head);
        weakest = weakest.min(support::count_at(set.counts, places[nuc as usize]));
        write_last(out, moves + 1, next);
        if kmer::same(next, end) {
            let letters = moves + 2;
            return Attempt::Mend(letters, resume, lookups, weakest, next);
        }
        if kmer::same(next, mark) {
            return Attempt::Refused(lookups);
        }
        if moves + 1 == marks_at {
            mark = next;
            marks_at = 2 * marks_at;
        }
        at = next;
    }
    Attempt::Refused(lookups)
}
