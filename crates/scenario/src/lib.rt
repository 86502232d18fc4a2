// Document 01, "Correctors", the scenarios of One and Two: ports the trait `Scenario` of src/correct/exist/mod.rs.
#![tactic(auto)]

mod counted;
mod mend;
mod one;
mod row;
mod two;

ghost use Rattle.std.specs.Prelude.{Bool, List, ◌≡◌, ℕ, ◌≤◌, length, map};
ghost use Rattle.rules.specs.Letters as letters;
ghost use Rattle.rules.specs.Set.{solid, set_of};
ghost use Rattle.rules.specs.Exist as rules;
ghost use Rattle.kmer.specs.Kmer.{kmer_of, IsKmer};
ghost use Rattle.scenario.specs.Scenario.{trial_of, RowIs, TrialIs, Gives};

pub use counted::Try;
use kmer::Kmer;
pub use mend::Mend;
pub use one::ScenarioOne;
pub use row::Row;
use set::KmerSet;
pub use two::ScenarioTwo;

// The scenarios of One, and those of Two. They hold neither c nor k, as the source's do: c is the caller's and k is the set's.
pub trait Scenario: Copy + 'static {
    // The rules' list of them.
    ghost scenarios: { ℕ → (ℕ → Bool) → letters.Kmer → List ℕ → List rules.Scenario };

    // The rules' scenario of one.
    ghost scenario: { Self → ℕ → (ℕ → Bool) → letters.Kmer → List ℕ → rules.Scenario };

    // All of them, in the order in which they are tried.
    fn all() -> &'static [Self]
        ensures whole { (k : ℕ) (sol : ℕ → Bool) (x : letters.Kmer) (s : List ℕ) → map (λ sc. scenario sc k sol x s) result.now ≡ scenarios k sol x s }
        ensures few { length result.now ≤ 13 };

    fn row(self) -> Row
        ensures { (k : ℕ) (sol : ℕ → Bool) (x : letters.Kmer) (s : List ℕ) → RowIs (scenario self k sol x s) x result };

    // Its trial on x, s being the rest of the read at its bad base: the tried k-mer or a refusal, after the lookups made.
    fn apply(self, set: &KmerSet, x: Kmer, s: &[u8]) -> Try<Kmer>
        requires { IsKmer set.now.head.k x }
        ensures { TrialIs set.now.head.k
            (trial_of s.now (scenario self set.now.head.k (solid (set_of set.now.bytes.now)) (kmer_of x) s.now)) result };

    // A tried k-mer that scores is solid, and so has no unknown letter; place is its key's index. A single letter is x's last; more are the
    // tried k-mer's.
    final fn correct(self, x: Kmer, tried: Kmer, place: usize) -> Mend
        requires { tried.unknown ≡ 0 }
        ensures { (k : ℕ) (sol : ℕ → Bool) (s : List ℕ) → Gives (scenario self k sol (kmer_of x) s) (kmer_of tried) place result }
    {
        let row = self.row();
        let code = if row.letters == 1 { x.code } else { tried.code };
        Mend {
            code,
            letters: row.letters,
            resume: row.resume,
            tried: tried.code,
            place,
        }
    }
}
