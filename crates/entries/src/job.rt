// A job that was checked.
ghost use Rattle.entries.specs.Job.{AllConfirm};

// A job's bytes, with a confirm of 1 at least in every entry.
#[derive(Clone, Copy)]
pub struct Job<'a> {
    pub bytes: &'a [u8],
    ghost confirmed: { AllConfirm bytes.now },
}
