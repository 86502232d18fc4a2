// Document 01, "Set": blocks of little-endian words with check words.
#![tactic(auto)]

ghost use Rattle.std.specs.Prelude.{◌≡◌, ◌+◌, ◌-◌, ◌*◌, ◌<◌, ◌≤◌, length, drop};
ghost use Rattle.rules.specs.Set as Rules;

// Byte by byte, for this compiles to one load; a slice turned into an array would be asked its length again.
pub fn word_at(set: &[u8], at: usize) -> u64
    requires { at + 8 ≤ length set.now }
    ensures { result ≡ Rules.little 8 (drop at set.now) }
{
    u64::from_le_bytes([
        set[at],
        set[at + 1],
        set[at + 2],
        set[at + 3],
        set[at + 4],
        set[at + 5],
        set[at + 6],
        set[at + 7],
    ])
}

pub fn block_word(set: &[u8], block: usize, i: usize) -> u64
    requires { (512 * (block + 1) ≤ length set.now) × (i < 64) }
    ensures { result ≡ Rules.block_word set.now block i }
{
    word_at(set, 512 * block + 8 * i)
}

pub fn check_word(set: &[u8], block: usize) -> u64
    requires { 512 * (block + 1) ≤ length set.now }
    ensures { result ≡ Rules.check set.now block }
{
    let mut sum: u64 = 0;
    // Over a range, for a word is read by its number: the bytes are no slice of words.
    for i in 0..63usize {
        sum = sum.wrapping_add(block_word(set, block, i));
    }
    sum.wrapping_add(block as u64).wrapping_add(1)
}

pub fn key_at(set: &[u8], i: usize) -> u64
    requires { i < 63 * (Rules.blocks set.now - 1) }
    ensures { result ≡ Rules.key_word set.now i }
{
    word_at(set, 512 + 8 * (i + i / 63))
}

pub fn check_right(set: &[u8], block: usize) -> bool
    requires { 512 * (block + 1) ≤ length set.now }
    ensures { result ≡ Rules.check_right set.now block }
{
    block_word(set, block, 63) == check_word(set, block)
}
