// Document 01, "Set": the checks of a set's header, of its blocks' check words, and of the keys of a block.
#![tactic(auto)]

ghost use Rattle.std.specs.Prelude.{◌≡◌, true, ◌&&◌, eqb, leb, ◌*◌, ◌-◌, ◌<◌, ◌≤◌, min, length};
ghost use Rattle.rules.specs.Set as Rules;
ghost use Rattle.rules.specs.Refusal.{at_place, first_failing};
ghost use Rattle.rules.specs.Letters;
ghost use Rattle.refusal.specs.Refusal.{check_of};
ghost use Rattle.set_checks.specs.Keys.{least_key};
ghost use Rattle.set_checks.specs.Checks.{Looked, first_wrong};

use refusal::Refusal;

// Check 8 for the blocks from one on.
pub fn check_blocks(set: &[u8], from: usize) -> Result<(), Refusal>
    ensures { check_of result ≡ at_place 8 (first_wrong set.now from) }
{
    // Over a range, for a block's number is what is asked and answered.
    for block in from..set.len() / 512 {
        if !blocks::check_right(set, block) {
            return Err(Refusal::Check(block));
        }
    }
    Ok(())
}

// The words of block 0 behind k and n.
fn rest_zero(set: &[u8]) -> bool
    requires { 512 ≤ length set.now }
    ensures { result ≡ Rules.is_none (first_failing (λ i. eqb (Rules.block_word set.now 0 i) 0) 2 61) }
{
    (2..63).all(|i| blocks::block_word(set, 0, i) == 0)
}

// Refusal 9, unless it holds.
#[tactic(auto, unfolding(rules::specs::Set::header_right))]
pub fn header_right(set: &[u8], k: usize, n: usize) -> bool
    requires { (512 ≤ length set.now) × (k ≡ Rules.header_k set.now) × (n ≡ Rules.header_n set.now) }
    ensures { result ≡ Rules.header_right set.now }
{
    k % 2 == 1 && k <= 31 && n <= 16777216 && rest_zero(set) && set.len() / 512 == 1 + (n + 62) / 63
}

// For odd k a code below 4^k is canonical exactly when its count of one bits is even.
fn key_right(key: u64, least: u64, mask: u64) -> bool
    ensures { result ≡ (leb key mask && leb least key && Letters.even_ones 32 key) }
{
    key <= mask && least <= key && kmer::parity_even(key)
}

// A block's keys: the least that the next key may be, where all are right; or the first that is wrong.
pub fn look_at_keys(set: &[u8], block: usize, n: usize, first: u64, mask: u64) -> Result<u64, usize>
    requires { (Rules.header_right set.now ≡ true) × (n ≡ Rules.header_n set.now) × (mask ≡ Letters.mask (Rules.header_k set.now))
        × (1 ≤ block) × (block < Rules.blocks set.now) × (first ≡ least_key set.now (63 * (block - 1))) }
    ensures { Looked set.now (63 * (block - 1)) (min n (63 * block)) result }
{
    let from = 63 * (block - 1);
    let end = n.min(63 * block);
    // The least that the next key may be.
    let mut least = first;
    // Over a range, for the number of a wrong key is answered, and the block's bytes are no slice of words.
    for i in from..end {
        let key = blocks::block_word(set, block, i - from);
        if !key_right(key, least, mask) {
            return Err(i);
        }
        least = key + 1;
    }
    Ok(least)
}
