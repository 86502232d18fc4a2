// Document 01, "Counts": answers with the lookups made for them.
ghost use Rattle.std.specs.Prelude.{◌≡◌, Some, None};

// The rules' Try: what is sought or a refusal, with all the lookups made.
#[derive(Clone, Copy)]
pub struct Try<T> {
    pub answer: Option<T>,
    pub lookups: u64,
}

impl<T> Try<T> {
    pub fn refused(lookups: u64) -> Try<T>
        ensures { (result.answer ≡ None) × (result.lookups ≡ lookups) }
    {
        Try {
            answer: None,
            lookups,
        }
    }

    pub fn given(answer: T, lookups: u64) -> Try<T>
        ensures { (result.answer ≡ Some answer) × (result.lookups ≡ lookups) }
    {
        Try {
            answer: Some(answer),
            lookups,
        }
    }
}
