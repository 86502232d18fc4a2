// Document 02, W3 and W8: the blocks and the counts of a text whose lines were judged.
#![tactic(auto)]

ghost use Rattle.std.specs.Prelude.{◌≡◌, ◌++◌, ◌+◌, ◌*◌, ◌-◌, ◌≤◌, length, drop, replicate};
ghost use Rattle.std.proofs.Math.Option.{none};
ghost use Rattle.rules.specs.Set.{max_keys};
ghost use Rattle.rules.specs.Blocks.{blocks_for, set_blocks};
ghost use Rattle.rules_make.specs.MakeSet as Rules;
ghost use Rattle.lay.specs.Lay.{Extended};

use kmer::Header;

// The kept lines' codes as the words behind the header's 63, and their counts. Every line has been judged.
fn write_lines(text: &[u8], head: Header, least: u64, blocks: &mut [u8], counts: &mut [u32])
    requires { (Rules.lines_check head.k least 0 none (Rules.text_lines text.now) ≡ none)
        × (length (Rules.text_keys head.k least text.now) ≤ max_keys)
        × (512 * (1 + blocks_for (length (Rules.text_keys head.k least text.now))) ≤ length blocks.old)
        × (length (Rules.text_keys head.k least text.now) ≤ length counts.old) }
    ensures { Extended blocks.old 63 (Rules.text_keys head.k least text.now) blocks.new
        × (counts.new ≡ Rules.text_counts head.k least text.now
        ++ drop (length (Rules.text_keys head.k least text.now)) counts.old) }
{
    // The kept lines are counted here: a filter before `enumerate` would read each count twice.
    let mut i = 0;
    for line in text.split_inclusive(|byte| *byte == b'\n') {
        let count = kmer_text::line_count(line, head.k);
        // As `is_kept`, whose count the list needs.
        if least <= count {
            let key = kmer_text::line_key(line, head);
            lay::put(blocks, 63 + i, key);
            counts[i] = kmer_text::held(count);
            i += 1;
        }
    }
}

// The blocks and the counts of a text that was judged, and zeros behind them.
pub fn write(text: &[u8], head: Header, least: u64, n: usize, blocks: &mut [u8], counts: &mut [u32])
    requires { (Rules.text_check text.now head.k least ≡ none) × (n ≡ length (Rules.text_keys head.k least text.now))
        × (512 * (1 + blocks_for n) ≤ length blocks.old) × (n ≤ length counts.old) }
    ensures { (blocks.new ≡ set_blocks head.k (Rules.text_keys head.k least text.now)
        ++ replicate (length blocks.old - 512 * (1 + blocks_for n)) 0)
        × (counts.new ≡ Rules.text_counts head.k least text.now ++ replicate (length counts.old - n) 0) }
{
    blocks.fill(0);
    lay::put(blocks, 0, head.k as u64);
    lay::put(blocks, 1, n as u64);
    write_lines(text, head, least, blocks, counts);
    lay::seal(blocks, 1 + n.div_ceil(63));
    counts[n..].fill(0);
}
