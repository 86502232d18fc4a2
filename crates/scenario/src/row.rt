// What is fixed of a scenario.
ghost use Rattle.std.specs.Prelude.{◌≤◌};

// A scenario's least length of s, check start o, number of letters given and resume r.
#[derive(Clone, Copy)]
pub struct Row {
    pub least: usize,
    pub start: usize,
    pub letters: usize,
    pub resume: usize,
    ghost small: { (start ≤ 4) × (letters ≤ 3) × (resume ≤ 4) },
}
