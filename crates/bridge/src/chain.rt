// What a bridge is.

// A chain: its moves, and their letters. There are 16, 0 behind the last, since the C interface tells so many.
#[derive(Clone, Copy)]
pub struct Chain {
    pub moves: usize,
    pub letters: [u8; 16],
}
