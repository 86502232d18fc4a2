// Document 02, W7: the index made from a set.
#![tactic(auto)]

ghost use Rattle.std.specs.Prelude.{◌≡◌, ◌++◌, ◌*◌, ◌-◌, ◌≤◌, length, replicate};
ghost use Rattle.rules.specs.Set.{set_of};
ghost use Rattle.rules.specs.Blocks.{blocks_for};
ghost use Rattle.rules.specs.Index.{index_entry, index_entries, index_list, index_blocks, make_index};
ghost use Rattle.lay.specs.Lay.{Extended};
ghost use Rattle.lay.specs.Made.{made_of};

use index::OpenSet;
use refusal::Refusal;

// Keys rise, so that the last of 63 speaks for all of them.
fn skip_below(set: &OpenSet, v: usize, from: usize) -> usize
    requires { from ≤ index_entry (set_of set.now.bytes.now) v }
    ensures { result ≤ index_entry (set_of set.now.bytes.now) v }
{
    let mut i = from;
    // By steps of 63, so no iterator over the keys.
    while i + 63 <= set.n && set.is_below(v, i + 62) {
        i += 63;
    }
    i
}

// Entry v, which is no less than `from`.
fn next_entry(set: &OpenSet, v: usize, from: usize) -> usize
    requires { from ≤ index_entry (set_of set.now.bytes.now) v }
    ensures { result ≡ index_entry (set_of set.now.bytes.now) v }
{
    let first = skip_below(set, v, from);
    (first..set.n)
        .find(|&i| !set.is_below(v, i))
        .unwrap_or(set.n)
}

// One walk over the keys, since entries rise.
fn write_entries(set: &OpenSet, blocks: &mut [u8])
    requires { 512 * blocks_for (index_entries set.now.k) ≤ length blocks.old }
    ensures { Extended blocks.old 0 (index_list (set_of set.now.bytes.now)) blocks.new }
{
    let mut entry = 0;
    // By number, which is what is asked and written.
    for v in 0..index::entry_count(set.k) {
        entry = next_entry(set, v, entry);
        lay::put(blocks, v, entry as u64);
    }
}

// The blocks, and zeros behind them.
fn write(set: &OpenSet, count: usize, blocks: &mut [u8])
    requires { (count ≡ blocks_for (index_entries set.now.k)) × (512 * count ≤ length blocks.old) }
    ensures { blocks.new ≡ index_blocks (set_of set.now.bytes.now) ++ replicate (length blocks.old - 512 * count) 0 }
{
    blocks.fill(0);
    write_entries(set, blocks);
    lay::seal(blocks, count);
}

pub fn make_index(set: &[u8], blocks: &mut [u8]) -> Result<usize, Refusal>
    ensures { made_of result blocks.new ≡ make_index set.now blocks.old }
{
    let opened = opening::open(set)?;
    let count = index::block_count(opened.k);
    if blocks.len() < 512 * count {
        return Err(Refusal::TooShort);
    }
    write(&opened, count, blocks);
    Ok(512 * count)
}
