// Some of a set's keys, with the part of its bytes that holds them.
ghost use Rattle.few_keys.specs.Find.{Sorted};

// The bytes from byte `skip` of the set on. They hold the keys from `first` on and before `last`, which rise strictly; no other key can be read.
#[derive(Clone, Copy)]
pub struct KeyPart<'a> {
    pub bytes: &'a [u8],
    pub skip: usize,
    pub first: usize,
    pub last: usize,
    ghost sorted: { Sorted skip bytes.now first last },
}
