// A set made ready for lookups: its table of starts, and the header that goes with it.
#![tactic(auto)]

ghost use Rattle.std.specs.Prelude.{◌≡◌, ◌+◌, ◌-◌, ◌*◌, ◌≤◌};
ghost use Rattle.std.proofs.Math.Option.{none};
ghost use Rattle.rules.specs.Set.{max_k, max_keys, set_of, first_letters};
ghost use Rattle.rules.specs.Index.{index_blocks, index_check};
ghost use Rattle.kmer.specs.Kmer.{Shifts};
ghost use Rattle.set.specs.Ready.{Ready, Ranged};

use index::OpenSet;
use kmer::Header;
use set::{KmerSet, STARTS};

// How many bits a prefix has: at most 16, at most a key's 2k, and no more than four prefixes to a key.
fn prefix_bits(k: usize, n: usize) -> usize
    requires { (k ≤ max_k) × (n ≤ max_keys) }
    ensures { (result ≤ 16) × (result ≤ 2 * k) }
{
    let most = (4 * n).max(1).ilog2() as usize;
    most.min(16).min(2 * k)
}

fn header(k: usize, n: usize, bits: usize, finer: usize) -> Header
    requires { (1 ≤ k) × (k ≤ max_k) × (bits ≤ 2 * k) × (finer ≤ bits) }
    ensures { Shifts result × (result.k ≡ k) × (result.n ≡ n) × (result.shift ≡ 2 * k - bits) × (result.finer ≡ finer) }
{
    kmer::header_of(k, n, (2 * k - bits) as u32, finer as u32)
}

// The table made from the keys, by prefixes of so many bits.
fn by_keys(set: &OpenSet, bits: usize, finer: usize, starts: &mut [u32; STARTS]) -> Header
    requires { (bits ≤ 16) × (bits ≤ 2 * set.now.k) × (finer ≤ bits) }
    ensures { Ready set.now.bytes.now starts.new result × (result.k ≡ set.now.k) × (result.shift + result.finer ≡ 2 * set.now.k - bits + finer) }
{
    let head = header(set.k, set.n, bits, finer);
    starts::fill(set, head.shift, 1 << bits, starts);
    head
}

fn by_index(set: &OpenSet, index: &[u8], starts: &mut [u32; STARTS]) -> Header
    requires { index.now ≡ index_blocks (set_of set.now.bytes.now) }
    ensures { Ready set.now.bytes.now starts.new result × (result.k ≡ set.now.k)
        × (result.shift + result.finer ≡ 2 * (set.now.k - first_letters set.now.k)) }
{
    let bits = 2 * index::letters(set.k);
    starts::copy_entries(index, (1 << bits) + 1, starts);
    header(set.k, set.n, bits, 0)
}

// Whether a table finer than an index is worth the walk over the keys: any answer is right.
fn pays(bases: usize) -> bool {
    65536 < bases
}

// The table by what is offered: where no index is, all keys are one range.
fn by_offer(set: &OpenSet, index: &[u8], bases: usize, starts: &mut [u32; STARTS]) -> Header
    requires { index_check (set_of set.now.bytes.now) index.now ≡ none }
    ensures { Ready set.now.bytes.now starts.new result × Ranged index.now result }
{
    let bits = prefix_bits(set.k, set.n);
    if index.is_empty() {
        return by_keys(set, bits, bits, starts);
    }
    let letters = 2 * index::letters(set.k);
    if letters < bits && pays(bases) {
        return by_keys(set, bits, bits - letters, starts);
    }
    by_index(set, index, starts)
}

// For lookups of about so many bases. Where no index is offered it is empty.
pub fn prepare<'a>(
    set: OpenSet<'a>,
    index: &[u8],
    counts: &'a [u32],
    bases: usize,
    starts: &'a mut [u32; STARTS],
) -> KmerSet<'a>
    requires { index_check (set_of set.bytes.now) index.now ≡ none }
    ensures same { (result.bytes.now ≡ set.entry.bytes.now) × (result.head.k ≡ set.entry.k) × (result.head.n ≡ set.entry.n) }
    ensures counts { result.counts.now ≡ counts.now }
    ensures ranged { Ranged index.now result.head }
{
    let head = by_offer(&set, index, bases, starts);
    KmerSet {
        bytes: set.bytes,
        starts,
        counts,
        head,
    }
}
