// Document 02, W8: the counts behind corrections. A support is the smallest count behind the accepted corrections, None where nothing was
// accepted.
#![tactic(auto)]

ghost use Rattle.std.specs.Prelude.{◌≡◌, length, get_or};
ghost use Rattle.rules.specs.Refusal.{unless};
ghost use Rattle.rules.specs.Set.{KmerSet};
ghost use Rattle.rules.specs.Calls.{counts_check};
ghost use Rattle.rules.specs.Driver as rules;
ghost use Rattle.support.specs.Support.{support_of};

// A key's count, by its index; 0 where no counts are offered.
pub fn count_at(counts: &[u32], place: usize) -> u32
    ensures { result ≡ get_or counts.now place 0 }
{
    counts.get(place).copied().unwrap_or(0)
}

// Refusal 16, unless it holds: an offered list has a count for each of the n keys. An empty list counts as not offered.
pub fn check_counts(counts: &[u32], n: usize) -> bool
    ensures { (set : KmerSet) → length set.keys ≡ n → unless result 16 ≡ counts_check set counts.now }
{
    counts.is_empty() || counts.len() == n
}

// The support of two groups of corrections together.
#[tactic(auto, unfolding(rules::specs::Driver::weaker))]
pub fn weaker(a: Option<u32>, b: Option<u32>) -> Option<u32>
    ensures { support_of result ≡ rules.weaker (support_of a) (support_of b) }
{
    match (a, b) {
        (support, None) | (None, support) => support,
        (Some(a), Some(b)) => Some(a.min(b)),
    }
}
