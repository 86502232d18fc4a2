// Document 02, W13: the ends of a bridge, which are codes.
#![tactic(auto)]

ghost use Rattle.std.specs.Prelude.{◌^◌, ◌<◌};
ghost use Rattle.rules.specs.Set.{set_of};
ghost use Rattle.rules_bridge.specs.Bridge.{known};
ghost use Rattle.kmer.specs.Kmer.{HasLetters};
ghost use Rattle.bridge_ends.specs.Ends.{SolidIs};

use kmer::{Header, Kmer};
use set::KmerSet;

// The k-mer of a code: its letters added one after the other to letters A, which all go.
fn kmer_of(code: u64, head: Header) -> Kmer
    requires { code < 4 ^ head.k }
    ensures { HasLetters head.k (known code) result }
{
    let mut kmer = kmer::all_a(head);
    // By number: so many letters stand behind the one that is taken.
    for behind in (0..head.k).rev() {
        kmer = kmer::add_nuc_to_end(kmer, (code >> (2 * behind)) % 4, head);
    }
    kmer
}

// An end of a bridge, if it is solid. A code of 4^k or more never is.
pub fn solid_kmer(set: &KmerSet, code: u64) -> Option<Kmer>
    ensures { SolidIs set.now.head.k (set_of set.now.bytes.now) code result }
{
    if set.head.mask < code {
        return None;
    }
    let kmer = kmer_of(code, set.head);
    set.get(kmer)?;
    Some(kmer)
}
