// Document 01, "Set": opening a set, with refusals 7 to 10.
#![tactic(auto)]

ghost use Rattle.std.specs.Prelude.{◌≡◌, true, ◌*◌, ◌-◌, ◌≤◌, length};
ghost use Rattle.rules.specs.Set as Rules;
ghost use Rattle.refusal.specs.Refusal.{check_of};
ghost use Rattle.set_checks.specs.Checks.{wrong_key};
ghost use Rattle.opening.specs.Opened.{Opens};

use index::OpenSet;
use refusal::Refusal;

// Check 10 for the words behind the keys.
fn check_spare(set: &[u8], n: usize) -> Result<(), Refusal>
    requires { (512 ≤ length set.now) × (n ≤ 63 * (Rules.blocks set.now - 1)) × (n ≡ Rules.header_n set.now) }
    ensures { check_of result ≡ wrong_key set.now n }
{
    let words = 63 * (set.len() / 512 - 1);
    // By number, which is what the refusal tells.
    for word in n..words {
        if blocks::key_at(set, word) != 0 {
            return Err(Refusal::Key(word));
        }
    }
    Ok(())
}

// Checks 8 and 10 for the blocks behind the header. A block's keys are looked at right after its check, while its words are in the cache.
fn check_keys(set: &[u8], k: usize, n: usize) -> Result<(), Refusal>
    requires { (Rules.length_right set.now ≡ true) × (Rules.check_right set.now 0 ≡ true) × (Rules.header_right set.now ≡ true)
        × (k ≡ Rules.header_k set.now) × (n ≡ Rules.header_n set.now) }
    ensures { check_of result ≡ Rules.set_check set.now }
{
    let mask = kmer::mask(k);
    let mut least = 0;
    // By number, which is what is checked and told.
    for block in 1..set.len() / 512 {
        if !blocks::check_right(set, block) {
            return Err(Refusal::Check(block));
        }
        match set_checks::look_at_keys(set, block, n, least, mask) {
            Ok(next) => least = next,
            Err(key) => {
                set_checks::check_blocks(set, block + 1)?;
                return Err(Refusal::Key(key));
            }
        }
    }
    check_spare(set, n)
}

pub fn open(set: &[u8]) -> Result<OpenSet<'_>, Refusal>
    ensures { Opens set.now result }
{
    if set.len() == 0 || set.len() % 512 != 0 {
        return Err(Refusal::Length);
    }
    if !blocks::check_right(set, 0) {
        return Err(Refusal::Check(0));
    }
    let k = blocks::block_word(set, 0, 0) as usize;
    let n = blocks::block_word(set, 0, 1) as usize;
    if !set_checks::header_right(set, k, n) {
        set_checks::check_blocks(set, 1)?;
        return Err(Refusal::Header);
    }
    check_keys(set, k, n)?;
    Ok(OpenSet { bytes: set, k, n })
}
