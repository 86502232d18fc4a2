// The k-mers that a gap passed, found again from its letters: whether the next one is among them, with a filter that saves comparing.
#![tactic(auto)]

mod filter;

ghost use Rattle.std.specs.Prelude.{◌≡◌, ◌∷◌, ◌<◌, length};
ghost use Rattle.rules.specs.Letters.{met};
ghost use Rattle.kmer.specs.Kmer.{kmer_of, IsKmer};
ghost use Rattle.passed.specs.Passed.{onward, passed};
ghost use Rattle.passed.specs.Filter.{all_but_last, suffix, Covers, Begun, Asked};

use kmer::{Header, Kmer};

// Whether a k-mer is x or one of those that the letters lead through from there.
fn seen(head: Header, x: Kmer, letters: &[u8], kmer: Kmer) -> bool
    requires { IsKmer head.k x }
    ensures { result ≡ met (kmer_of kmer) (kmer_of x ∷ onward head.k (kmer_of x) letters.now) }
{
    if kmer::same(kmer, x) {
        return true;
    }
    let mut at = x;
    for &letter in letters {
        at = scan::add_base(at, letter, head);
        if kmer::same(kmer, at) {
            return true;
        }
    }
    false
}

// The code of a k-mer's last k − 1 letters.
fn suffix_of(head: Header, kmer: Kmer) -> u64
    ensures { result ≡ suffix head.k (kmer_of kmer) }
{
    kmer.code & (head.mask / 4)
}

// Puts the first and the last k − 1 letters of x into the filter; whether it said maybe of the last.
pub fn begin(head: Header, x: Kmer, filter: &mut [u64]) -> bool
    requires { 0 < length filter.old }
    ensures { Begun head.k filter.old filter.new (kmer_of x) result }
{
    filter::note(filter, x.code >> 2);
    filter::note(filter, suffix_of(head, x))
}

// Of the next k-mer: whether it is one of those passed, and whether the filter said maybe of its last k − 1 letters, which is the next call's `before`.
#[derive(Clone, Copy)]
pub struct Met {
    pub repeats: bool,
    pub maybe: bool,
}

// Puts the next k-mer's last k − 1 letters into the filter. If the k-mer was passed before, they are in; and its first k − 1 letters were in
// when they were put in as the last ones of the k-mer before it. So it is compared with those passed only where the filter said maybe twice.
pub fn meet(
    head: Header,
    x: Kmer,
    letters: &[u8],
    moves: usize,
    before: bool,
    next: Kmer,
    filter: &mut [u64],
) -> Met
    requires walk { IsKmer head.k x × (moves < length letters.now) × (0 < length filter.old) }
    requires covers { Covers head.k filter.old (passed head.k (kmer_of x) moves letters.now) (all_but_last (kmer_of next)) before }
    ensures { Asked head.k filter.old filter.new (passed head.k (kmer_of x) moves letters.now) (kmer_of next) result }
{
    let maybe = filter::note(filter, suffix_of(head, next));
    let repeats = before && maybe && seen(head, x, &letters[1..moves + 1], next);
    Met { repeats, maybe }
}
