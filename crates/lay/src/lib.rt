// A list of words written as document 01's blocks: little-endian words, 63 to a block, and check words.
#![tactic(auto)]

ghost use Rattle.std.specs.Prelude.{◌≡◌, ◌+◌, ◌*◌, ◌/◌, ◌≤◌, length};
ghost use Rattle.lay.specs.Lay.{Put, Sealed};

// Word `place` of the buffer.
fn put_word(bytes: &mut [u8], place: usize, x: u64)
    requires { 8 * place + 8 ≤ length bytes.old }
    ensures { Put bytes.old place x bytes.new }
{
    bytes[8 * place..8 * place + 8].copy_from_slice(&x.to_le_bytes());
}

// Word i of the list: before it stand i words and i / 63 check words.
pub fn put(bytes: &mut [u8], i: usize, x: u64)
    requires { 512 * (1 + i / 63) ≤ length bytes.old }
    ensures { Put bytes.old (i + i / 63) x bytes.new }
{
    put_word(bytes, i + i / 63, x);
}

// The check words of the first blocks, by number, since a block's check word is made of it.
pub fn seal(bytes: &mut [u8], count: usize)
    requires { 512 * count ≤ length bytes.old }
    ensures { Sealed bytes.old count bytes.new }
{
    for block in 0..count {
        let check = blocks::check_word(bytes, block);
        put_word(bytes, 64 * block + 63, check);
    }
}
