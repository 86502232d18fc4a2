// Document 02, W13: the search of a bridge. A k-mer looks at its letters, and a letter at the k-mer behind it.
#![tactic(auto)]

ghost use Rattle.std.specs.Prelude.{◌≡◌, true, ◌+◌, ◌-◌, ◌<◌, ◌≤◌, replicate};
ghost use Rattle.rules.specs.Letters.{push};
ghost use Rattle.rules.specs.Set.{solid, set_of};
ghost use Rattle.rules_bridge.specs.Bridge as rules;
ghost use Rattle.kmer.specs.Kmer.{IsKmer};
ghost use Rattle.bridge_search.specs.Search.{SearchIs};

use kmer::Kmer;
use set::KmerSet;

// How a search ends: with a chain of so many moves from the start on, with all tried, or because it stops. Three cases, so no Option or Result.
#[derive(Clone, Copy)]
pub enum End {
    Found(usize),
    Tried,
    Stopped,
}

// A search's end and the lookups made; of a chain that it found the letters, each at the number of moves before it. They stand beside the end, since
// each is put in on the way back.
#[derive(Clone, Copy)]
pub struct Search {
    pub letters: [u8; 16],
    pub end: End,
    pub lookups: u64,
}

// A search with no letters yet.
fn ended(end: End, lookups: u64) -> Search
    ensures { (result.end ≡ end) × (result.lookups ≡ lookups) × (result.letters ≡ replicate 16 0) }
{
    Search {
        letters: [0; 16],
        end,
        lookups,
    }
}

// A k-mer looks at its letters. Set, end and budget stay parameters, since methods of a struct of them would be no plainer for two functions that
// call each other.
#[cycle(from_kmer_from_letter)]
pub fn from_kmer(
    set: &KmerSet,
    kmer: Kmer,
    to: u64,
    made: usize,
    left: usize,
    budget: u64,
    lookups: u64,
) -> Search
    requires { IsKmer set.now.head.k kmer × (kmer.unknown ≡ 0) × (made + left ≤ 16) × (lookups ≤ budget) }
    ensures { SearchIs budget made left
        (rules.from_kmer set.now.head.k (solid (set_of set.now.bytes.now)) to budget left kmer.code lookups)
        result }
{
    if left == 0 {
        return ended(End::Tried, lookups);
    }
    if budget - lookups < 4 {
        return ended(End::Stopped, lookups);
    }
    let mut places = [0; 4];
    let nucs = successors::next_nucs(set, kmer, &mut places);
    let mut spent = lookups + 4;
    // By code, since it is the letter as well as the index.
    for nuc in 0..4usize {
        if nucs[nuc] {
            let r = from_letter(set, kmer, nuc as u64, to, made, left, budget, spent);
            let End::Tried = r.end else {
                return r;
            };
            spent = r.lookups;
        }
    }
    ended(End::Tried, spent)
}

// A letter looks at the k-mer behind it, which is solid, with one move fewer left.
#[cycle(from_kmer_from_letter)]
fn from_letter(
    set: &KmerSet,
    kmer: Kmer,
    nuc: u64,
    to: u64,
    made: usize,
    left: usize,
    budget: u64,
    lookups: u64,
) -> Search
    requires { IsKmer set.now.head.k kmer × (kmer.unknown ≡ 0) × (nuc < 4) × (made + left ≤ 16) × (1 ≤ left)
        × (lookups ≤ budget) × (solid (set_of set.now.bytes.now) (push 4 set.now.head.k kmer.code nuc) ≡ true) }
    ensures { SearchIs budget made left
        (rules.from_letter set.now.head.k (solid (set_of set.now.bytes.now)) to budget
        (rules.from_kmer set.now.head.k (solid (set_of set.now.bytes.now)) to budget (left - 1))
        kmer.code nuc lookups)
        result }
{
    let next = kmer::add_nuc_to_end(kmer, nuc, set.head);
    let mut search = if next.code == to {
        ended(End::Found(made + 1), lookups)
    } else {
        from_kmer(set, next, to, made + 1, left - 1, budget, lookups)
    };
    search.letters[made] = kmer::bit2nuc(nuc);
    search
}
