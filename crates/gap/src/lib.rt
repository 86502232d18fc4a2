// Document 01, "GapSize": the moves of src/correct/gap_size.rs where the index is above k. Document 02, W8: the smallest count of the k-mers
// from x on.
#![tactic(auto)]

ghost use Rattle.std.specs.Prelude.{◌<◌, length};
ghost use Rattle.gap.specs.Gap.{Fillable, GapIs};

use kmer::Kmer;
use scan::{Attempt, Scan};
use set::KmerSet;

// The moves of a gap from x, which has that count, after all lookups up to x. Scan, x and count are no type of their own: what is asked of them
// speaks of the set too.
pub fn fill(
    set: &KmerSet,
    scan: Scan,
    x: Kmer,
    count: u32,
    filter: &mut [u64],
    out: &mut [u8],
) -> Attempt
    requires { Fillable set.now scan x count out.old × (0 < length filter.old) }
    ensures { GapIs set.now scan x out.old out.new result }
{
    let mut lookups = scan.lookups + 4;
    walk::write_last(out, 0, x);
    let mut before = passed::begin(set.head, x, filter);
    let mut at = x;
    let mut weakest = count;
    let mut places = [0usize; 4];
    let moves = scan.index - set.head.k;
    // By number: it tells where the move's letter goes, and up to which one it is compared.
    for i in 0..moves {
        lookups += 4;
        let nucs = successors::next_nucs(set, at, &mut places);
        let Some(nuc) = successors::sole_nuc(nucs) else {
            return Attempt::Refused(lookups);
        };
        let next = kmer::add_nuc_to_end(at, nuc, set.head);
        let met = passed::meet(set.head, x, out, i, before, next, filter);
        if met.repeats {
            return Attempt::Refused(lookups);
        }
        before = met.maybe;
        weakest = weakest.min(support::count_at(set.counts, places[nuc as usize]));
        walk::write_last(out, i + 1, next);
        at = next;
    }
    let letters = moves + 1;
    Attempt::Mend(letters, letters, lookups, weakest, at)
}
