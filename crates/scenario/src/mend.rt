// What a scenario gives.
ghost use Rattle.std.specs.Prelude.{◌≤◌};

// The last letters of a k-mer, the resume, and the code of the tried k-mer with its key's index.
#[derive(Clone, Copy)]
pub struct Mend {
    pub code: u64,
    pub letters: usize,
    pub resume: usize,
    pub tried: u64,
    pub place: usize,
    ghost small: { (letters ≤ 3) × (resume ≤ 4) },
}
