// Document 01, "Correctors", One and Two: the trials of src/correct/exist/mod.rs. A k-mer that holds an unknown letter isn't solid, and no
// lookup is made or counted for it (document 02, W5).
#![tactic(auto)]

mod group;

ghost use Rattle.std.specs.Prelude.{◌≡◌, ◌≤◌, ◌<◌};
ghost use Rattle.rules.specs.Set.{solid, set_of};
ghost use Rattle.rules.specs.Exist as rules;
ghost use Rattle.kmer.specs.Kmer.{kmer_of, IsKmer};
ghost use Rattle.trials.specs.Trials.{Eligible, KeptIs};

pub use group::Group;
use kmer::Kmer;
use scenario::{Scenario, Try};
use set::KmerSet;

// The scenarios kept, and the lookups of all.
#[derive(Clone, Copy)]
pub struct Scenarii {
    pub kept: Group,
    pub lookups: u64,
}

// A trial as far as its first confirm base: the tried solid k-mer and its key's index, unless the score is 0 from the outset, as it is where the
// trial refuses, its k-mer isn't solid, or o + c exceeds the length of s.
fn eligible<S: Scenario>(
    scenario: S,
    set: &KmerSet,
    c: usize,
    x: Kmer,
    s: &[u8],
) -> Try<(Kmer, usize)>
    requires { IsKmer set.now.head.k x × (1 ≤ c) × (c < 256) }
    ensures { Eligible set.now.head.k (set_of set.now.bytes.now) c s.now
        (S.scenario scenario set.now.head.k (solid (set_of set.now.bytes.now)) (kmer_of x) s.now) result }
{
    let trial = scenario.apply(set, x, s);
    let mut lookups = trial.lookups;
    let Some(kmer) = trial.answer else {
        return Try::refused(lookups);
    };
    if kmer.unknown != 0 {
        return Try::refused(lookups);
    }
    lookups += 1;
    let Some(place) = set.get(kmer) else {
        return Try::refused(lookups);
    };
    let start = scenario.row().start;
    if s.len() < start + c {
        return Try::refused(lookups);
    }
    Try::given((kmer, place), lookups)
}

// The scenarios that score c: the c bases of s from o are added, and the trial ends at the first base whose k-mer isn't solid. Document 01 fixes
// the form: nested loops, and a label that leaves the inner one.
pub fn get_scenarii<S: Scenario>(set: &KmerSet, c: usize, x: Kmer, s: &[u8]) -> Scenarii
    requires { IsKmer set.now.head.k x × (1 ≤ c) × (c < 256) }
    ensures { KeptIs (set_of set.now.bytes.now) (rules.kept set.now.head.k (solid (set_of set.now.bytes.now)) c s.now
        (S.scenarios set.now.head.k (solid (set_of set.now.bytes.now)) (kmer_of x) s.now)) result }
{
    let mut kept = Group::new();
    let mut lookups = 0;
    'scenarios: for scenario in S::all() {
        let candidate = eligible(*scenario, set, c, x, s);
        lookups += candidate.lookups;
        let Some((first, place)) = candidate.answer else {
            continue 'scenarios;
        };
        let start = scenario.row().start;
        let mut kmer = first;
        for base in &s[start..start + c] {
            kmer = scan::add_base(kmer, *base, set.head);
            let asked = set.ask(kmer);
            lookups += asked.lookups;
            if !asked.solid {
                continue 'scenarios;
            }
        }
        kept.push(scenario.correct(x, first, place));
    }
    Scenarii { kept, lookups }
}
