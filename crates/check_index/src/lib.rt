// Document 02, W7: an offered index checked against the set, word by word, refusal 15.
#![tactic(auto)]

ghost use Rattle.std.specs.Prelude.{◌≡◌, ◌*◌, ◌≤◌, eqb, length, get_or};
ghost use Rattle.rules.specs.Refusal.{first_failing, unless};
ghost use Rattle.rules.specs.Set.{is_none, check_right, set_of};
ghost use Rattle.rules.specs.Index.{index_entry, index_list, index_blocks, same_bytes, index_check};
ghost use Rattle.check_index.specs.Words.{word_right};

use index::OpenSet;

// An entry is right when the key before it has first letters below v and the key at it has not: no other key is read.
fn entry_right(set: &OpenSet, v: usize, entry: usize) -> bool
    ensures { result ≡ eqb entry (index_entry (set_of set.now.bytes.now) v) }
{
    if set.n < entry {
        return false;
    }
    if 0 < entry && !set.is_below(v, entry - 1) {
        return false;
    }
    entry == set.n || !set.is_below(v, entry)
}

// Of an entry, or of a spare word.
fn word_right(set: &OpenSet, v: usize, word: usize) -> bool
    ensures { result ≡ eqb word (get_or (index_list (set_of set.now.bytes.now)) v 0) }
{
    if v < index::entry_count(set.k) {
        return entry_right(set, v, word);
    }
    word == 0
}

fn words_right(set: &OpenSet, index: &[u8], count: usize) -> bool
    requires { 512 * count ≤ length index.now }
    ensures { result ≡ is_none (first_failing (word_right (set_of set.now.bytes.now) index.now) 0 (63 * count)) }
{
    (0..63 * count).all(|v| word_right(set, v, index::entry_at(index, v)))
}

fn checks_right(index: &[u8], count: usize) -> bool
    requires { 512 * count ≤ length index.now }
    ensures { result ≡ is_none (first_failing (check_right index.now) 0 count) }
{
    (0..count).all(|block| blocks::check_right(index, block))
}

fn index_right(set: &OpenSet, index: &[u8]) -> bool
    ensures { result ≡ same_bytes index.now (index_blocks (set_of set.now.bytes.now)) }
{
    let count = index::block_count(set.k);
    index.len() == 512 * count && checks_right(index, count) && words_right(set, index, count)
}

// Refusal 15, unless it holds. An empty index counts as not offered.
pub fn check_index(set: &OpenSet, index: &[u8]) -> bool
    ensures { unless result 15 ≡ index_check (set_of set.now.bytes.now) index.now }
{
    index.is_empty() || index_right(set, index)
}
