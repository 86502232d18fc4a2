// What shifts over a set's k-mers go by.
ghost use Rattle.kmer.specs.Masked.{Masked};

// What a set's header says, k and n, with what lookups and shifts need beside it.
#[derive(Clone, Copy)]
pub struct Header {
    pub k: usize,
    pub n: usize,
    pub mask: u64,
    pub shift: u32,
    pub finer: u32,
    ghost shifts: { Masked k mask },
}
