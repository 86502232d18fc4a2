// Document 01, "Graph": ports src/correct/graph.rs.
#![tactic(auto)]

ghost use Rattle.std.specs.Prelude.{◌^◌, ◌≤◌, ◌<◌, length};
ghost use Rattle.rules.specs.Set.{solid, set_of, count_of};
ghost use Rattle.rules.specs.Counted.{after};
ghost use Rattle.rules.specs.Scan.{error_len};
ghost use Rattle.rules.specs.Graph.{graph_from, graph};
ghost use Rattle.kmer.specs.Kmer.{kmer_of, IsKmer};
ghost use Rattle.set.specs.Counted.{set_with};
ghost use Rattle.scan.specs.Scan.{scan_of};
ghost use Rattle.scan.specs.Attempt.{Attempted};

use kmer::Kmer;
use scan::{Attempt, Scan};
use set::KmerSet;

// Graph from a scan already made.
pub fn from_scan(set: &KmerSet, scan: Scan, kmer: Kmer, out: &mut [u8]) -> Attempt
    requires { IsKmer set.now.head.k kmer × (scan.index < 2 ^ 63) × (scan.lookups < 2 ^ 63) }
    ensures { Attempted set.now.head.k (kmer_of kmer) (count_of (set_with set.now.bytes.now set.now.counts.now)) scan.index
        out.old out.new
        (after scan.lookups (graph_from set.now.head.k set.now.head.n (solid (set_of set.now.bytes.now)) (scan_of scan) (kmer_of kmer)))
        result }
{
    let alt = match successors::sole_alt(set, kmer) {
        Ok(alt) => alt,
        Err(lookups) => return Attempt::Refused(scan.lookups + lookups),
    };
    let count = support::count_at(set.counts, alt.place);
    walk::walk(set, scan, alt.kmer, count, out)
}

// kmer is the bad k-mer, s the rest of the read at its bad base.
pub fn correct_error(set: &KmerSet, kmer: Kmer, s: &[u8], out: &mut [u8]) -> Attempt
    requires { IsKmer set.now.head.k kmer × (1 ≤ length s.now) }
    ensures { Attempted set.now.head.k (kmer_of kmer) (count_of (set_with set.now.bytes.now set.now.counts.now))
        (error_len set.now.head.k (solid (set_of set.now.bytes.now)) (kmer_of kmer) s.now).index out.old out.new
        (graph set.now.head.k set.now.head.n (solid (set_of set.now.bytes.now)) s.now (kmer_of kmer))
        result }
{
    from_scan(set, scan::error_len(set, kmer, s), kmer, out)
}
