// The set of a call and what is offered with it: checks 7 to 10, 15 and 16 of documents 01 and 02, and lookups made ready.
#![tactic(auto)]

ghost use Rattle.offered.specs.Offered.{OfferedIs};

use refusal::Refusal;
use set::{KmerSet, STARTS};

// For lookups of about so many bases.
pub fn open<'a>(
    set: &'a [u8],
    index: &[u8],
    counts: &'a [u32],
    bases: usize,
    starts: &'a mut [u32; STARTS],
) -> Result<KmerSet<'a>, Refusal>
    ensures { OfferedIs set.now index.now counts.now result }
{
    let opened = opening::open(set)?;
    if !check_index::check_index(&opened, index) {
        return Err(Refusal::Index);
    }
    if !support::check_counts(counts, opened.n) {
        return Err(Refusal::Counts);
    }
    Ok(prepare::prepare(opened, index, counts, bases, starts))
}
