// The entries of a job, each a method and its own confirm: document 02, W1.
#![tactic(auto)]

mod entry;
mod job;

ghost use Rattle.std.specs.Prelude.{◌≡◌, ◌<◌};
ghost use Rattle.rules.specs.Job.{method_byte, confirm_byte, entry_count, entry_at};
ghost use Rattle.entries.specs.Entries.{entry_of};

pub use entry::Entry;
pub use job::Job;

#[tactic(auto, unfolding(rules::specs::Job::entry_count))]
pub fn count(job: &[u8]) -> usize
    ensures { result ≡ entry_count job.now }
{
    job.len().div_ceil(2)
}

#[tactic(auto, unfolding(rules::specs::Job::entry_count, rules::specs::Job::method_byte))]
pub fn method_of(job: &[u8], i: usize) -> u8
    requires { i < entry_count job.now }
    ensures { result ≡ method_byte job.now i }
{
    job[2 * i]
}

// An entry without its second byte has confirm 0.
#[tactic(auto, unfolding(rules::specs::Job::entry_count, rules::specs::Job::confirm_byte))]
pub fn confirm_of(job: &[u8], i: usize) -> u8
    requires { i < entry_count job.now }
    ensures { result ≡ confirm_byte job.now i }
{
    job.get(2 * i + 1).copied().unwrap_or(0)
}

impl Job<'_> {
    pub fn count(&self) -> usize
        ensures { result ≡ entry_count self.now.bytes.now }
    {
        count(self.bytes)
    }

    pub fn entry(&self, i: usize) -> Entry
        requires { i < entry_count self.now.bytes.now }
        ensures { entry_of result ≡ entry_at self.now.bytes.now i }
    {
        Entry {
            method: method_of(self.bytes, i),
            confirm: confirm_of(self.bytes, i),
        }
    }
}
