// A pass whose bytes are counted, not kept. Document 02, W9.
#![tactic(auto)]

ghost use Rattle.std.specs.Prelude.{◌≤◌, length};
ghost use Rattle.rules.specs.Calls.{max_read};
ghost use Rattle.entries.specs.Entries.{entry_of};
ghost use Rattle.turn.specs.Turn.{offered};
ghost use Rattle.correct.specs.Pass.{one_pass};
ghost use Rattle.count.specs.Count.{Counted};

use correct::{Counts, Full};
use entries::Entry;
use set::KmerSet;

// What a pass counts; Full only where the spare buffer is shorter than the read.
pub fn count(set: &KmerSet, entry: Entry, read: &[u8], spare: &mut [u8]) -> Result<Counts, Full>
    requires { length read.now ≤ max_read }
    ensures { Counted (length read.now) (length spare.old) (one_pass (offered set.now) (entry_of entry) read.now) result }
{
    if read.len() < set.head.k {
        return Ok(correct::unchanged(read.len()));
    }
    let first = correct::begin(set, read);
    correct::turns_of(set, entry, first, read, 0, spare)
}
