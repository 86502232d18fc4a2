// Document 02, W3 and W8: the set file and the list of its keys' counts made from k-mer counts as text. One walk over the lines judges and counts, a
// second one writes; nothing is written before everything is judged.
#![tactic(auto)]

ghost use Rattle.std.specs.Prelude.{◌≡◌};
ghost use Rattle.rules_make.specs.MakeSet as Rules;
ghost use Rattle.make_set.specs.Make.{set_made_of};

use refusal::Refusal;

const MAX_KEYS: usize = 16777216;

pub fn make_set(
    text: &[u8],
    k: u64,
    least: u64,
    blocks: &mut [u8],
    counts: &mut [u32],
) -> Result<usize, Refusal>
    ensures { set_made_of result blocks.new counts.new
        ≡ Rules.make_set text.now k least blocks.old counts.old }
{
    if k % 2 == 0 || 31 < k {
        return Err(Refusal::Header);
    }
    let head = kmer::header_of(k as usize, 0, 0, 0);
    let n = judge_text::judge(text, head, least)?;
    if MAX_KEYS < n {
        return Err(Refusal::Header);
    }
    let length = 512 * (1 + n.div_ceil(63));
    if blocks.len() < length || counts.len() < n {
        return Err(Refusal::TooShort);
    }
    write_set::write(text, head, least, n, blocks, counts);
    Ok(length)
}
