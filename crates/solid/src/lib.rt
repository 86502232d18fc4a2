// How many of a read's k-mers are solid: every k-mer is asked once, and nothing is corrected.
#![tactic(auto)]

ghost use Rattle.std.specs.Prelude.{◌≡◌, ◌≤◌, length};
ghost use Rattle.rules.specs.Set.{set_of};
ghost use Rattle.rules.specs.Solid.{solids, kmers_of, count_solid};
ghost use Rattle.solid.specs.Solid.{count_of};

use refusal::Refusal;
use set::{KmerSet, STARTS};

// The k-mers of a read and the solid ones among them.
#[derive(Clone, Copy)]
pub struct Count {
    pub kmers: u64,
    pub solid: u64,
}

// A plain loop of lookups, by index, since reading ahead takes one.
fn count_kmers(set: &KmerSet, read: &[u8]) -> u64
    requires { set.now.head.k ≤ length read.now }
    ensures { result ≡ solids (set_of set.now.bytes.now) (kmers_of set.now.head.k read.now) }
{
    let mut kmer = kmer::seq2bit(read, set.head);
    let mut count = set.ask(kmer).solid as u64;
    let mut ahead = scan::first_ahead(set.head.n, read.len());
    for i in set.head.k..read.len() {
        if ahead <= i {
            ahead = scan::read_ahead(set, kmer, read, i);
        }
        kmer = scan::add_base(kmer, read[i], set.head);
        count += set.ask(kmer).solid as u64;
    }
    count
}

// Refusals 1 and 7 to 10. A read shorter than k has no k-mer, and no table is made for it.
pub fn count_solid(set: &[u8], read: &[u8]) -> Result<Count, Refusal>
    ensures { count_of result ≡ count_solid set.now read.now }
{
    input::check_length(read.len())?;
    let opened = opening::open(set)?;
    let k = opened.k;
    if read.len() < k {
        return Ok(Count { kmers: 0, solid: 0 });
    }
    let mut starts = [0u32; STARTS];
    let ready = prepare::prepare(opened, b"", &[], read.len(), &mut starts);
    let solid = count_kmers(&ready, read);
    Ok(Count {
        kmers: (read.len() - k + 1) as u64,
        solid,
    })
}
