// An opened set, ready for lookups.
ghost use Rattle.set.specs.Ready.{Ready};

use kmer::Header;

// The set's bytes, its table of starts, and its keys' counts: none if they are empty.
#[derive(Clone, Copy)]
pub struct KmerSet<'a> {
    pub bytes: &'a [u8],
    pub starts: &'a [u32],
    pub counts: &'a [u32],
    pub head: Header,
    ghost ready: { Ready bytes.now starts.now head },
}
