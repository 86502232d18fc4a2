// The lookup, port of src/set.rs: the index of a k-mer's key, or that there is none (document 02, W8). A table says where the keys of each
// prefix start; a search among those decides.
#![tactic(auto)]

mod lookup;
mod ready;

ghost use Rattle.std.specs.Prelude.{◌≡◌, ◌+◌, ◌^◌, ◌≤◌, ◌<◌, length, get_or};
ghost use Rattle.rules.specs.Set.{max_keys, header_k, header_n, set_of, lookup, solid};
ghost use Rattle.rules.specs.Letters.{canonical};
ghost use Rattle.rules.specs.Scan as rules;
ghost use Rattle.kmer.specs.Kmer.{kmer_of, IsKmer};
ghost use Rattle.set.specs.Ready.{prefix, InPrefix, LineOf, Table};
ghost use Rattle.set.specs.Found.{index_of, place_in};
ghost use Rattle.set.specs.PartOf.{PartOf};
ghost use Rattle.set.specs.Asked.{AskedIs};

use few_keys::KeyPart;
use kmer::Kmer;
use lookup::Lookup;
pub use ready::KmerSet;
use std::ops::Range;

// The entries that a table of starts has room for.
pub const STARTS: usize = 65537;

// A key's prefix: what stands above its lowest bits.
pub fn prefix_of(key: u64, shift: u32) -> usize
    requires { shift < 64 }
    ensures { result ≡ prefix shift key }
{
    (key >> shift) as usize
}

impl Lookup<'_> {
    fn start(&self, prefix: usize) -> usize
        requires { prefix < length self.now.starts.now }
        ensures { result ≡ get_or self.now.starts.now prefix 0 }
    {
        self.starts[prefix] as usize
    }

    // The keys of the key's prefix: it can stand only among them.
    fn range_of(&self, key: u64) -> Range<usize>
        requires { key < 4 ^ header_k self.now.bytes.now }
        ensures { InPrefix self.now.bytes.now self.now.shift key result.start result.end }
    {
        let prefix = prefix_of(key, self.shift);
        self.start(prefix)..self.start(prefix + 1)
    }

    // The keys that a lookup may look at: with an index those numbered from entry v up to entry v + 1, v being the code of the key's first
    // letters; without one all keys.
    fn span_of(&self, key: u64) -> Range<usize>
        requires { key < 4 ^ header_k self.now.bytes.now }
        ensures { InPrefix self.now.bytes.now (self.now.shift + self.now.finer) key result.start result.end }
    {
        let finest = prefix_of(key, self.shift);
        let width = 1 << self.finer;
        let entry = finest - finest % width;
        self.start(entry)..self.start(entry + width)
    }

    // So many keys, with the bytes from the first one's up to the place of the key behind the last: a search in them can read no other key.
    fn part(&self, keys: &Range<usize>) -> KeyPart<'_>
        requires { (keys.now.start < keys.now.end) × (keys.now.end ≤ header_n self.now.bytes.now) }
        ensures { PartOf self.now.bytes.now keys.now.start keys.now.end result }
    {
        let skip = few_keys::place(keys.start);
        let stop = few_keys::place(keys.end);
        KeyPart {
            bytes: &self.bytes[skip..stop],
            skip,
            first: keys.start,
            last: keys.end,
        }
    }
}

// A lookup is made only of a k-mer without unknown letters. Of the header it takes what it needs: a struct that is handed over is laid into
// memory for each lookup, and so is a seventh number, hence the last is the one that is seldom used. It stays a function of its own: its code
// is long, and stands behind every question. It answers n where there is no key: an enum would go through memory, and its case be a branch
// that is often guessed wrong.
#[inline(never)]
fn look_up(set: &[u8], starts: &[u32], kmer: Kmer, n: usize, shift: u32, finer: u32) -> usize
    requires { Table set.now starts.now shift finer × IsKmer (header_k set.now) kmer × (kmer.unknown ≡ 0) }
    ensures { result ≡ place_in n (lookup (set_of set.now) kmer.code) }
{
    // Both codes are read here: the compiler then chooses between them without a branch.
    let key = kmer::canonical(Kmer {
        code: kmer.code,
        rev: kmer.rev,
        unknown: 0,
    });
    let lookup = Lookup {
        bytes: set,
        starts,
        shift,
        finer,
    };
    let range = lookup.range_of(key);
    if range.end <= range.start {
        return n;
    }
    if range.end - range.start <= 4 {
        return lookup.part(&range).in_few(key, n).unwrap_or(n);
    }
    let part = lookup.part(&lookup.span_of(key));
    keys::find(&part, key, shift, range.start, range.end).unwrap_or(n)
}

// A k-mer asked: whether it is solid, and the lookups made. No Option says both: one that isn't solid costs a lookup or none.
#[derive(Clone, Copy)]
pub struct Asked {
    pub solid: bool,
    pub lookups: u64,
}

impl KmerSet<'_> {
    // The index of a k-mer's key, or n, the number of keys, if there is none.
    pub fn place_of(&self, kmer: Kmer) -> usize
        requires { IsKmer self.now.head.k kmer × (kmer.unknown ≡ 0) }
        ensures { result ≡ place_in self.now.head.n (lookup (set_of self.now.bytes.now) kmer.code) }
    {
        let head = self.head;
        look_up(
            self.bytes,
            self.starts,
            kmer,
            head.n,
            head.shift,
            head.finer,
        )
    }

    // The index of a k-mer's key, if there is one.
    pub fn get(&self, kmer: Kmer) -> Option<usize>
        requires { IsKmer self.now.head.k kmer × (kmer.unknown ≡ 0) }
        ensures { index_of result ≡ lookup (set_of self.now.bytes.now) kmer.code }
    {
        let place = self.place_of(kmer);
        if place < self.head.n {
            Some(place)
        } else {
            None
        }
    }

    // Document 02, W5: a k-mer that holds an unknown letter isn't solid, and no lookup is made for it.
    pub fn ask(&self, kmer: Kmer) -> Asked
        requires { IsKmer self.now.head.k kmer }
        ensures { AskedIs (rules.ask (solid (set_of self.now.bytes.now)) (kmer_of kmer)) result }
    {
        if kmer.unknown != 0 {
            return Asked {
                solid: false,
                lookups: 0,
            };
        }
        let place = self.place_of(kmer);
        Asked {
            solid: place < self.head.n,
            lookups: 1,
        }
    }

    // The first of the lines that a lookup of the k-mer reads first, none that it may not read.
    pub fn first_line(&self, kmer: Kmer) -> usize
        requires { IsKmer self.now.head.k kmer }
        ensures { (result ≤ max_keys) × LineOf self.now.bytes.now (self.now.head.shift + self.now.head.finer) (canonical self.now.head.k kmer.code) result }
    {
        let head = self.head;
        let lookup = Lookup {
            bytes: self.bytes,
            starts: self.starts,
            shift: head.shift,
            finer: head.finer,
        };
        let key = kmer::canonical(kmer);
        let (range, span) = (lookup.range_of(key), lookup.span_of(key));
        keys::first_line(
            key,
            head.shift,
            span.start,
            span.end,
            range.start,
            range.end,
        )
    }
}
