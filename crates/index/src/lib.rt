// Document 02, W7: the index by first letters, its sizes and its entries.
#![tactic(auto)]

mod open_set;

ghost use Rattle.std.specs.Prelude.{◌≡◌, ◌+◌, ◌*◌, ◌/◌, ◌≤◌, length};
ghost use Rattle.rules.specs.Set.{first_letters, entry_in};
ghost use Rattle.rules.specs.Blocks.{blocks_for};
ghost use Rattle.rules.specs.Index.{index_entries};

pub use open_set::OpenSet;

// m, the smaller of 6 and k.
pub fn letters(k: usize) -> usize
    ensures { result ≡ first_letters k }
{
    k.min(6)
}

pub fn entry_count(k: usize) -> usize
    ensures { result ≡ index_entries k }
{
    (1 << (2 * letters(k))) + 1
}

pub fn block_count(k: usize) -> usize
    ensures { result ≡ blocks_for (index_entries k) }
{
    (entry_count(k) + 62) / 63
}

// Word v of the list that an index's blocks hold.
pub fn entry_at(index: &[u8], v: usize) -> usize
    requires { 512 * (1 + v / 63) ≤ length index.now }
    ensures { result ≡ entry_in index.now v }
{
    blocks::block_word(index, v / 63, v % 63) as usize
}
