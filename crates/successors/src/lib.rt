// Document 01, "Successors and scan", and document 02, W5: ports `next_nucs` and `alt_nucs` of src/correct/mod.rs.
#![tactic(auto)]

ghost use Rattle.std.specs.Prelude.{◌≡◌, Bool, ℕ};
ghost use Rattle.rules.specs.Letters.{add};
ghost use Rattle.rules.specs.Set.{solid, set_of};
ghost use Rattle.rules.specs.Scan as rules;
ghost use Rattle.kmer.specs.Kmer.{Shifts, kmer_of, IsKmer};
ghost use Rattle.successors.specs.Successors.{nuc_of, NextIs, AltIs, places_of};

use kmer::{Header, Kmer};
use set::KmerSet;

// The sole solid successor or alternative, and its key's index.
#[derive(Clone, Copy)]
pub struct Alt {
    pub kmer: Kmer,
    pub place: usize,
}

// All letters of the k-mer but its first are known: the four have them in common. The places of their keys go into a lent array, since
// document 01 has the four answers returned as a [bool; 4] by value. It is part of the walks that call it: with a call of its own at each move
// Graph takes a tenth more instructions.
#[inline(always)]
pub fn next_nucs(set: &KmerSet, kmer: Kmer, places: &mut [usize; 4]) -> [bool; 4]
    requires { IsKmer set.now.head.k kmer × ((add set.now.head.k (kmer_of kmer) 0).unknown ≡ 0) }
    ensures { (result ≡ rules.successors set.now.head.k (solid (set_of set.now.bytes.now)) (kmer_of kmer))
        × (places.new ≡ places_of (set_of set.now.bytes.now) set.now.head.k (kmer_of kmer)) }
{
    *places = [0; 4];
    // By number: it is the code of the letter that is added.
    for nuc in 0..4usize {
        let next = kmer::add_nuc_to_end(kmer, nuc as u64, set.head);
        places[nuc] = set.place_of(next);
    }
    let n = set.head.n;
    [places[0] < n, places[1] < n, places[2] < n, places[3] < n]
}

// What the four successors of a k-mer cost: 4 lookups if its last k − 1 letters are known, else none.
fn next_cost(kmer: Kmer, head: Header) -> u64
    requires { IsKmer head.k kmer }
    ensures { (sol : ℕ → Bool) → result ≡ rules.four_cost head.k sol (kmer_of kmer) }
{
    let first = kmer::add_nuc_to_end(kmer, 0, head);
    if first.unknown == 0 { 4 } else { 0 }
}

// The letter of the only yes among the four answers: each yes adds 1 to the count and its own code to the sum.
#[tactic(auto, using(crate::proofs::Laws::bit_le))]
pub fn sole_nuc(nucs: [bool; 4]) -> Option<u64>
    ensures { nuc_of result ≡ rules.only (rules.yes_from 0 nucs) }
{
    let a = nucs[0] as u64;
    let c = nucs[1] as u64;
    let t = nucs[2] as u64;
    let g = nucs[3] as u64;
    if a + c + t + g == 1 {
        Some(c + 2 * t + 3 * g)
    } else {
        None
    }
}

// No lookup is made for k-mers that hold an unknown letter. A refusal tells the lookups made.
fn sole(set: &KmerSet, kmer: Kmer) -> Result<Alt, u64>
    requires { IsKmer set.now.head.k kmer }
    ensures { AltIs set.now.head.k (set_of set.now.bytes.now) (rules.sole set.now.head.k (solid (set_of set.now.bytes.now)) (kmer_of kmer)) result }
{
    let lookups = next_cost(kmer, set.head);
    if lookups == 0 {
        return Err(0);
    }
    let mut places = [0usize; 4];
    let Some(nuc) = sole_nuc(next_nucs(set, kmer, &mut places)) else {
        return Err(lookups);
    };
    Ok(Alt {
        kmer: kmer::add_nuc_to_end(kmer, nuc, set.head),
        place: places[nuc as usize],
    })
}

// y+u(y), found by 4 lookups; or the lookups of a refusal.
pub fn sole_next(set: &KmerSet, kmer: Kmer) -> Result<Kmer, u64>
    requires { IsKmer set.now.head.k kmer }
    ensures { NextIs set.now.head.k (rules.sole set.now.head.k (solid (set_of set.now.bytes.now)) (kmer_of kmer)) result }
{
    let next = sole(set, kmer)?;
    Ok(next.kmer)
}

// The bad k-mer with its last letter replaced by the sole solid alternative, found by 4 lookups; or the lookups of a refusal.
pub fn sole_alt(set: &KmerSet, kmer: Kmer) -> Result<Alt, u64>
    requires { IsKmer set.now.head.k kmer }
    ensures { AltIs set.now.head.k (set_of set.now.bytes.now) (rules.alternative set.now.head.k (solid (set_of set.now.bytes.now)) (kmer_of kmer)) result }
{
    let shifted = kmer::drop_last(kmer, set.head);
    sole(set, shifted)
}
