// The table of starts, filled: from a set's keys, or from the entries of an index.
#![tactic(auto)]

ghost use Rattle.std.specs.Prelude.{◌≡◌, ℕ, ◌+◌, ◌*◌, ◌/◌, ◌^◌, ◌≤◌, ◌<◌, eqb, length, get_or};
ghost use Rattle.rules.specs.Set.{key_word, entry_in};
ghost use Rattle.set.specs.Ready as table;
ghost use Rattle.set.specs.Ready.{Below, Filled};
ghost use Rattle.starts.specs.Ends.{Marked, Run, highest};

use index::OpenSet;

fn has_prefix(set: &OpenSet, shift: u32, prefix: usize, i: usize) -> bool
    requires { (shift < 64) × (i < set.now.n) }
    ensures { result ≡ eqb (table.prefix shift (key_word set.now.bytes.now i)) prefix }
{
    set::prefix_of(few_keys::key_at(set.bytes, 0, i), shift) == prefix
}

// A few keys from key i on that have its prefix: any number is right. In a small set few keys have one prefix.
fn run(set: &OpenSet, shift: u32, prefix: usize, i: usize) -> usize
    requires { (shift < 64) × (i < set.now.n) × (prefix ≡ table.prefix shift (key_word set.now.bytes.now i)) }
    ensures { (1 ≤ result) × (i + result ≤ set.now.n) × Run set.now.bytes.now shift prefix i (i + result) }
{
    if set.n < 3000000 {
        return 1;
    }
    if i + 48 <= set.n && has_prefix(set, shift, prefix, i + 47) {
        return 48;
    }
    if i + 6 <= set.n && has_prefix(set, shift, prefix, i + 5) {
        return 6;
    }
    1
}

// Entry v + 1: where prefix v ends. The last key of a prefix is the last to store.
fn mark_ends(set: &OpenSet, shift: u32, prefixes: usize, starts: &mut [u32])
    requires { (shift < 64) × (prefixes < length starts.old) × Below set.now.bytes.now shift prefixes set.now.n
        × ((v : ℕ) → v < prefixes + 1 → get_or starts.old v 0 ≡ 0) }
    ensures { Marked set.now.bytes.now shift set.now.n prefixes starts.new }
{
    let mut i = 0;
    // By runs, so no iterator over the keys.
    while i < set.n {
        let prefix = set::prefix_of(few_keys::key_at(set.bytes, 0, i), shift);
        let step = run(set, shift, prefix, i);
        starts[prefix + 1] = (i + step) as u32;
        i += step;
    }
}

// A prefix starts where the last one before it that has keys ends.
fn carry_ends(starts: &mut [u32])
    ensures { (v : ℕ) → v < length starts.old → get_or starts.new v 0 ≡ highest starts.old v }
{
    let mut most: u32 = 0;
    for start in starts {
        most = most.max(*start);
        *start = most;
    }
}

// The first entries, each where its prefix starts.
pub fn fill(set: &OpenSet, shift: u32, prefixes: usize, starts: &mut [u32])
    requires { (shift < 64) × (prefixes < length starts.old) × Below set.now.bytes.now shift prefixes set.now.n }
    ensures { Filled set.now.bytes.now shift (prefixes + 1) starts.new }
{
    starts[..prefixes + 1].fill(0);
    mark_ends(set, shift, prefixes, starts);
    carry_ends(&mut starts[..prefixes + 1]);
}

// The entries of an index are a table too, by prefixes of m letters.
pub fn copy_entries(index: &[u8], entries: usize, starts: &mut [u32])
    requires entries_in_bounds { (entries ≤ length starts.old) × (512 * ((entries + 62) / 63) ≤ length index.now) }
    requires by_index { (v : ℕ) → v < entries → entry_in index.now v < 2 ^ 32 }
    ensures { (v : ℕ) → v < entries → get_or starts.new v 0 ≡ entry_in index.now v }
{
    for (v, start) in starts[..entries].iter_mut().enumerate() {
        *start = index::entry_at(index, v) as u32;
    }
}
