// Document 01, "Successors and scan", and document 02, W5: ports `error_len` of src/correct/mod.rs, and declares what every
// corrector's `correct_error` answers.
#![tactic(auto)]

ghost use Rattle.std.specs.Prelude.{◌≡◌, ◌≤◌, length};
ghost use Rattle.rules.specs.Letters.{add_base, add_all};
ghost use Rattle.rules.specs.Set.{solid, set_of};
ghost use Rattle.rules.specs.Scan as rules;
ghost use Rattle.kmer.specs.Kmer.{kmer_of, IsKmer, HasLetters};
ghost use Rattle.scan.specs.Scan.{scan_of};

use kmer::{Header, Kmer};
use set::KmerSet;

// Where a scan ends: the index reached, the last k-mer T, and the lookups made.
#[derive(Clone, Copy)]
pub struct Scan {
    pub index: usize,
    pub end: Kmer,
    pub lookups: u64,
}

// An attempt at a bad base: the number of its letters, which stand at the start of the lent output if that has room for all of them, the
// resume, the lookups, the smallest count behind it, and the bad k-mer with the letters in place of its last one; or the lookups of a
// refused one; or no room for letters that have to be looked at again. This is the source's Option<(Vec<u8>, usize)>, with two cases that
// aren't a mend: a refusal tells its lookups, and the lack of room ends the pass.
#[derive(Clone, Copy)]
pub enum Attempt {
    Mend(usize, usize, u64, u32, Kmer),
    Refused(u64),
    Full,
}

pub fn add_base(kmer: Kmer, base: u8, head: Header) -> Kmer
    requires { IsKmer head.k kmer }
    ensures { HasLetters head.k (add_base head.k (kmer_of kmer) base) result }
{
    kmer::add_nuc_to_end(kmer, kmer::nuc2bit(base), head)
}

pub fn add_all(kmer: Kmer, bases: &[u8], head: Header) -> Kmer
    requires { IsKmer head.k kmer }
    ensures { HasLetters head.k (add_all head.k (kmer_of kmer) bases.now) result }
{
    let mut last = kmer;
    for &base in bases {
        last = add_base(last, base, head);
    }
    last
}

// s is the rest of the read at its bad base s0, kmer the bad k-mer: s1, s2, .. are added up to the first solid k-mer or the end.
pub fn error_len(set: &KmerSet, kmer: Kmer, s: &[u8]) -> Scan
    requires { IsKmer set.now.head.k kmer × (1 ≤ length s.now) }
    ensures { scan_of result ≡ rules.error_len set.now.head.k (solid (set_of set.now.bytes.now)) (kmer_of kmer) s.now }
{
    let mut last = kmer;
    let mut lookups = 0;
    // By index: the one reached is what is answered.
    for j in 1..s.len() {
        last = add_base(last, s[j], set.head);
        let asked = set.ask(last);
        lookups += asked.lookups;
        if asked.solid {
            return Scan {
                index: j,
                end: last,
                lookups,
            };
        }
    }
    Scan {
        index: s.len(),
        end: last,
        lookups,
    }
}

// The lines that lookups of the next k-mers read first, if each base is kept.
fn first_lines(set: &KmerSet, kmer: Kmer, next: &[u8]) -> [u32; 16]
    requires { IsKmer set.now.head.k kmer × (length next.now ≤ 16) }
{
    let mut lines = [0u32; 16];
    let mut last = kmer;
    for (i, &base) in next.iter().enumerate() {
        last = add_base(last, base, set.head);
        lines[i] = set.first_line(last) as u32;
    }
    lines
}

// Reads the lines of the k-mers of the next 16 bases, all in one go: lookups one by one wait for memory much longer. It asks nothing, and
// tells up to which base it has read: any number is right. No key is above the mask; the compiler does not know that, and keeps the reads.
pub fn read_ahead(set: &KmerSet, kmer: Kmer, read: &[u8], at: usize) -> usize
    requires { IsKmer set.now.head.k kmer × (at ≤ length read.now) }
{
    let end = at + (read.len() - at).min(16);
    let lines = first_lines(set, kmer, &read[at..end]);
    let mut words: u64 = 0;
    for &line in &lines {
        words |= keys::touch(set.bytes, line);
    }
    if set.head.mask < words { at } else { end }
}

// From which base on to read ahead: from none if the set is small, for then its keys are near anyway. None is the read's length and no case of
// its own: no base stands behind the read's end.
pub fn first_ahead(n: usize, len: usize) -> usize {
    if n < 500000 { len } else { 0 }
}
