// A set that opened: its bytes, k and n.
#![tactic(auto)]

ghost use Rattle.std.specs.Prelude.{◌≡◌, ◌<◌, ltb};
ghost use Rattle.rules.specs.Set.{header_n, set_of};
ghost use Rattle.rules.specs.Index.{index_entry};
ghost use Rattle.index.specs.Index.{Opens};

#[derive(Clone, Copy)]
pub struct OpenSet<'a> {
    pub bytes: &'a [u8],
    pub k: usize,
    pub n: usize,
    ghost opens: { Opens bytes.now k n },
}

impl OpenSet<'_> {
    // Whether the first letters of key i have a code below v, which is so exactly of the keys before entry v.
    pub fn is_below(&self, v: usize, i: usize) -> bool
        requires { i < self.now.n }
        ensures { result ≡ ltb i (index_entry (set_of self.now.bytes.now) v) }
    {
        let first = blocks::key_at(self.bytes, i) >> (2 * (self.k - super::letters(self.k)));
        first < v as u64
    }
}
