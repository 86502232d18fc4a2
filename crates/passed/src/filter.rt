// A bit filter over (k−1)-mers, each of them two bits in each of two words. What it answers changes the speed of a gap alone: bits that are
// not all set say that a (k−1)-mer is new, and others say nothing.
ghost use Rattle.std.specs.Prelude.{◌≡◌, ◌<◌, length};
ghost use Rattle.passed.specs.Filter.{hash_of, slot_of, bits_of, BitsSet, Noted};

// Products that fit, so that nothing wraps; the second spreads out the codes of few letters.
fn hash(code: u64) -> u64
    ensures { result ≡ hash_of code }
{
    let mixed = ((code % 4294967296) * 2654435761) ^ ((code >> 32) * 2246822519);
    ((mixed ^ (mixed >> 29)) % 4294967296) * 3266489917
}

fn slot(hash: u64, len: usize) -> usize
    requires { 0 < len }
    ensures { (result ≡ slot_of hash len) × (result < len) }
{
    (hash as usize) & (len - 1)
}

fn bits(hash: u64) -> u64
    ensures { result ≡ bits_of hash }
{
    (1 << (hash % 64)) | (1 << ((hash >> 6) % 64))
}

// Sets bits of a word; whether all were set before.
fn mark(filter: &mut [u64], hash: u64, marks: u64) -> bool
    requires { 0 < length filter.old }
    ensures { BitsSet filter.old filter.new hash marks result }
{
    let at = slot(hash, filter.len());
    let word = filter[at];
    filter[at] |= marks;
    word & marks == marks
}

// Puts a code in; whether all its bits were set before. The places of words and bits share no bit of the hash.
pub fn note(filter: &mut [u64], code: u64) -> bool
    requires { 0 < length filter.old }
    ensures { Noted filter.old filter.new code result }
{
    let h = hash(code);
    let one = mark(filter, h >> 42, bits(h >> 18));
    let other = mark(filter, h, bits(h >> 30));
    one && other
}
