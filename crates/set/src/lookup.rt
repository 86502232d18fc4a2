// What a lookup goes by.
ghost use Rattle.set.specs.Ready.{Table};

// A set's bytes with its table of starts.
#[derive(Clone, Copy)]
pub struct Lookup<'a> {
    pub bytes: &'a [u8],
    pub starts: &'a [u32],
    pub shift: u32,
    pub finer: u32,
    ghost table: { Table bytes.now starts.now shift finer },
}
