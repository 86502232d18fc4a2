// Document 01, "Letters", and document 02, W5: codes of bases, and k-mers as numbers in base four. Ports `mask` and `add_nuc_to_end` of
// src/correct/mod.rs, and `nuc2bit`, `bit2nuc`, `seq2bit` and `canonical` of the crate cocktail.
#![tactic(auto)]

mod shifts;

ghost use Rattle.std.specs.Prelude.{◌≡◌, [], ℕ, ◌-◌, ◌<◌, ◌≤◌, ◌^◌, length, take};
ghost use Rattle.rules.specs.Letters;
ghost use Rattle.kmer.specs.Kmer.{Shifts, kmer_of, IsKmer, HasLetters};

pub use shifts::Header;

// A k-mer's code, and beside it the code of its reverse complement, so that a lookup never has to turn the letters round; and its unknown
// letters, a bit for each.
#[derive(Clone, Copy)]
pub struct Kmer {
    pub code: u64,
    pub rev: u64,
    pub unknown: u64,
}

// Entry k is 4^k − 1.
const MASK_LOOKUP: [u64; 32] = [
    0,
    3,
    15,
    63,
    255,
    1023,
    4095,
    16383,
    65535,
    262143,
    1048575,
    4194303,
    16777215,
    67108863,
    268435455,
    1073741823,
    4294967295,
    17179869183,
    68719476735,
    274877906943,
    1099511627775,
    4398046511103,
    17592186044415,
    70368744177663,
    281474976710655,
    1125899906842623,
    4503599627370495,
    18014398509481983,
    72057594037927935,
    288230376151711743,
    1152921504606846975,
    4611686018427387903,
];

// The letters that have a code, a bit for each: its number is the letter's last five bits, the same in upper and lower case.
const LETTERS: u64 = 3145866;

// Document 02, W5: only A, C, G, T, U and their lower case have a code; any other byte is an unknown letter, said by 4. No branch goes by
// which letter it is.
pub fn nuc2bit(nuc: u8) -> u64
    ensures { result ≡ Letters.code nuc }
{
    let byte = nuc as u64;
    if byte / 64 != 1 {
        return 4;
    }
    if (LETTERS >> (byte % 32)) % 2 == 0 {
        return 4;
    }
    byte / 2 % 4
}

pub fn bit2nuc(bit: u64) -> u8
    requires { bit < 4 }
    ensures { result ≡ Letters.letter bit }
{
    match bit {
        0 => b'A',
        1 => b'C',
        2 => b'T',
        _ => b'G',
    }
}

// Document 02, W2: the base pairs of the IUPAC nucleotide table. Done twice it gives the code back.
fn complement(nuc: u64) -> u64
    requires { nuc < 4 }
    ensures { (result ≡ Letters.complement nuc) × (Letters.complement result ≡ nuc) }
{
    match nuc {
        0 => 2, // A to T
        1 => 3, // C to G
        2 => 0, // T to A
        _ => 1, // G to C
    }
}

// The complement of any code lies as far behind it as that of A behind A. A match at each base would slow a pass.
fn pair_of(nuc: u64) -> u64
    requires { nuc < 4 }
    ensures { result ≡ Letters.complement nuc }
{
    (nuc + complement(0)) % 4
}

pub fn mask(k: usize) -> u64
    requires { k < 32 }
    ensures { result ≡ Letters.mask k }
{
    MASK_LOOKUP[k]
}

pub fn header_of(k: usize, n: usize, shift: u32, finer: u32) -> Header
    requires { (1 ≤ k) × (k ≤ 31) }
    ensures { Shifts result × (result.k ≡ k) × (result.n ≡ n) × (result.shift ≡ shift) × (result.finer ≡ finer) }
{
    Header {
        k,
        n,
        mask: mask(k),
        shift,
        finer,
    }
}

// The first letter out at the mask, another in at the end.
fn shift_in(code: u64, nuc: u64, head: Header) -> u64
    requires { (code < 4 ^ head.k) × (nuc < 4) }
    ensures { result ≡ Letters.push 4 head.k code nuc }
{
    ((code << 2) & head.mask) ^ nuc
}

// The same with the letters' bits: 1 for an unknown one. Half of the mask's bits are one for each letter.
fn mark_in(unknown: u64, bit: u64, head: Header) -> u64
    requires { (unknown < 2 ^ head.k) × (bit < 2) }
    ensures { result ≡ Letters.push 2 head.k unknown bit }
{
    (2 * unknown + bit) & (head.mask >> head.k)
}

// What the first of k letters counts.
fn top(head: Header) -> u64
    ensures { result ≡ 4 ^ (head.k - 1) }
{
    head.mask / 4 + 1
}

// An unknown letter, said by 4, has 0 in its place of the code.
pub fn add_nuc_to_end(kmer: Kmer, nuc: u64, head: Header) -> Kmer
    requires { IsKmer head.k kmer × (nuc ≤ 4) }
    ensures { HasLetters head.k (Letters.add head.k (kmer_of kmer) nuc) result }
{
    let bits = nuc & 3;
    Kmer {
        code: shift_in(kmer.code, bits, head),
        rev: kmer.rev / 4 + pair_of(bits) * top(head),
        unknown: mark_in(kmer.unknown, nuc >> 2, head),
    }
}

// The source's `kmer >>= 2`: an A comes in front, so its complement comes last on the other side.
pub fn drop_last(kmer: Kmer, head: Header) -> Kmer
    requires { IsKmer head.k kmer }
    ensures { HasLetters head.k (Letters.drop_last (kmer_of kmer)) result }
{
    Kmer {
        code: kmer.code >> 2,
        rev: shift_in(kmer.rev, complement(0), head),
        unknown: kmer.unknown >> 1,
    }
}

// k letters A, turned k letters T: a third of the mask has a 1 for each letter.
pub fn all_a(head: Header) -> Kmer
    ensures { HasLetters head.k (Letters.kmer head.k []) result }
{
    Kmer {
        code: 0,
        rev: head.mask / 3 * complement(0),
        unknown: 0,
    }
}

pub fn seq2bit(seq: &[u8], head: Header) -> Kmer
    requires { head.k ≤ length seq.now }
    ensures { HasLetters head.k (Letters.kmer head.k (take head.k seq.now)) result }
{
    let mut kmer = all_a(head);
    for nuc in &seq[..head.k] {
        kmer = add_nuc_to_end(kmer, nuc2bit(*nuc), head);
    }
    kmer
}

// A k-mer that holds an unknown letter is equal to none.
pub fn same(a: Kmer, b: Kmer) -> bool
    ensures { result ≡ Letters.same (kmer_of a) (kmer_of b) }
{
    (a.unknown == 0) & (b.unknown == 0) & (a.code == b.code)
}

// Over all 64 bits; a k-mer has none above its own 2k.
pub fn parity_even(code: u64) -> bool
    ensures { result ≡ Letters.even_ones 32 code }
{
    code.count_ones() % 2 == 0
}

// Without a branch: parity is as good as random.
pub fn canonical(kmer: Kmer) -> u64
    ensures { (k : ℕ) → IsKmer k kmer → result ≡ Letters.canonical k kmer.code }
{
    let both = [kmer.rev, kmer.code];
    let even = parity_even(kmer.code) as usize;
    both[even]
}
