// Document 02, W3: the lines of a text of k-mer counts judged, refusals 12 and 13.
#![tactic(auto)]

ghost use Rattle.judge_text.specs.Judged.{JudgedAs};

use kmer::Header;
use refusal::Refusal;

// Refusals 12 and 13, line by line: how many lines are kept, or the first refusal of a line.
pub fn judge(text: &[u8], head: Header, least: u64) -> Result<usize, Refusal>
    ensures { JudgedAs text.now head.k least result }
{
    let mut kept = 0;
    // The least that the next kept code may be.
    let mut floor: u64 = 0;
    for (i, line) in text.split_inclusive(|byte| *byte == b'\n').enumerate() {
        if !kmer_text::form_right(line, head.k) {
            return Err(Refusal::Line(i));
        }
        if kmer_text::is_kept(line, head.k, least) {
            let key = kmer_text::line_key(line, head);
            if key < floor {
                return Err(Refusal::NotRising(i));
            }
            floor = key + 1;
            kept += 1;
        }
    }
    Ok(kept)
}
