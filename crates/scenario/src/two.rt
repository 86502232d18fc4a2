// Document 01, Two: II, IS, SS, SD, DD, ICI, ICS, ICD, SCI, SCS, SCD, DCI, DCD. Ports src/correct/exist/two.rs. A trial counts the lookups
// that were made: none for a k-mer that holds an unknown letter (document 02, W5).
ghost use Rattle.std.specs.Prelude.{Bool, List, ◌≡◌, ℕ, ◌<◌, ◌≤◌, length};
ghost use Rattle.rules.specs.Letters as letters;
ghost use Rattle.rules.specs.Set.{solid, set_of};
ghost use Rattle.rules.specs.Scan as scans;
ghost use Rattle.rules.specs.Exist as rules;
ghost use Rattle.kmer.specs.Kmer.{kmer_of, IsKmer, HasLetters};
ghost use Rattle.scenario.specs.Scenario.{two_of, letters_of, plus, sole_after, solid_after, passing_of, instead_of, instead_after, TrialIs};

use super::{Row, Scenario, Try};
use kmer::{Header, Kmer};
use set::KmerSet;

#[derive(Clone, Copy)]
pub enum ScenarioTwo {
    II,
    IS,
    SS,
    SD,
    DD,
    ICI,
    ICS,
    ICD,
    SCI,
    SCS,
    SCD,
    DCI,
    DCD,
}

impl ScenarioTwo {
    const ALL: [ScenarioTwo; 13] = [
        ScenarioTwo::II,
        ScenarioTwo::IS,
        ScenarioTwo::SS,
        ScenarioTwo::SD,
        ScenarioTwo::DD,
        ScenarioTwo::ICI,
        ScenarioTwo::ICS,
        ScenarioTwo::ICD,
        ScenarioTwo::SCI,
        ScenarioTwo::SCS,
        ScenarioTwo::SCD,
        ScenarioTwo::DCI,
        ScenarioTwo::DCD,
    ];

    // How many letters are given. Document 01 has it decided on the scenario's number: the names stand in the source's order.
    fn letters(self) -> usize
        ensures given { (k : ℕ) (sol : ℕ → Bool) (x : letters.Kmer) (s : List ℕ) (t : letters.Kmer) →
            letters_of result x t ≡ (two_of self k sol x s).letters t }
        ensures few { result ≤ 3 }
    {
        match self as usize {
            0..=1 => 1,
            2..=4 => 2,
            5 => 1,
            6..=7 => 2,
            8..=10 => 3,
            11 => 0,
            _ => 3,
        }
    }
}

impl Scenario for ScenarioTwo {
    ghost scenarios = { rules.two };

    ghost scenario = { two_of };

    fn all() -> &'static [ScenarioTwo] {
        &ScenarioTwo::ALL
    }

    fn row(self) -> Row {
        let (least, start, resume) = match self {
            ScenarioTwo::II => (0, 3, 2),
            ScenarioTwo::IS => (0, 2, 2),
            ScenarioTwo::SS => (2, 2, 2),
            ScenarioTwo::SD => (1, 1, 1),
            ScenarioTwo::DD => (0, 0, 0),
            ScenarioTwo::ICI => (4, 4, 3),
            ScenarioTwo::ICS => (4, 3, 4),
            ScenarioTwo::ICD => (4, 3, 2),
            ScenarioTwo::SCI => (4, 4, 4),
            ScenarioTwo::SCS => (3, 3, 3),
            ScenarioTwo::SCD => (2, 2, 2),
            ScenarioTwo::DCI => (4, 4, 1),
            ScenarioTwo::DCD => (2, 1, 1),
        };
        Row {
            least,
            start,
            letters: self.letters(),
            resume,
        }
    }

    fn apply(self, set: &KmerSet, x: Kmer, s: &[u8]) -> Try<Kmer> {
        if s.len() < self.row().least {
            return Try::refused(0);
        }
        match self {
            ScenarioTwo::II | ScenarioTwo::IS => Try::given(x, 0),
            ScenarioTwo::SS | ScenarioTwo::ICS => instead(set, x, s),
            ScenarioTwo::SD | ScenarioTwo::DD => sole(set, x),
            ScenarioTwo::ICI => solid_after(set, x, s),
            ScenarioTwo::SCI | ScenarioTwo::DCI => passing(set.head, x, s),
            ScenarioTwo::SCS => instead_after(set, x, s),
            ScenarioTwo::ICD => sole_after(set, x, s, 2),
            ScenarioTwo::SCD => sole_after(set, x, s, 1),
            ScenarioTwo::DCD => sole_after(set, x, s, 0),
        }
    }
}

// y+si
fn with(kmer: Kmer, s: &[u8], i: usize, head: Header) -> Kmer
    requires { IsKmer head.k kmer × (i < length s.now) }
    ensures { HasLetters head.k (plus head.k (kmer_of kmer) s.now i) result }
{
    scan::add_base(kmer, s[i], head)
}

// x+u(x)
fn sole(set: &KmerSet, x: Kmer) -> Try<Kmer>
    requires { IsKmer set.now.head.k x }
    ensures { TrialIs set.now.head.k (scans.sole set.now.head.k (solid (set_of set.now.bytes.now)) (kmer_of x)) result × (result.lookups ≤ 4) }
{
    match successors::sole_next(set, x) {
        Ok(next) => Try::given(next, 4),
        Err(lookups) => Try::refused(lookups),
    }
}

// y = x+si, y+u(y)
fn sole_after(set: &KmerSet, x: Kmer, s: &[u8], i: usize) -> Try<Kmer>
    requires { IsKmer set.now.head.k x × (i < length s.now) }
    ensures { TrialIs set.now.head.k (sole_after set.now.head.k (solid (set_of set.now.bytes.now)) (kmer_of x) s.now i) result }
{
    sole(set, with(x, s, i, set.head))
}

// x+s3, solid
fn solid_after(set: &KmerSet, x: Kmer, s: &[u8]) -> Try<Kmer>
    requires { IsKmer set.now.head.k x × (3 < length s.now) }
    ensures { TrialIs set.now.head.k (solid_after set.now.head.k (solid (set_of set.now.bytes.now)) (kmer_of x) s.now) result }
{
    let kmer = with(x, s, 3, set.head);
    let asked = set.ask(kmer);
    if asked.solid {
        Try::given(kmer, asked.lookups)
    } else {
        Try::refused(asked.lookups)
    }
}

// x+s1+s3
fn passing(head: Header, x: Kmer, s: &[u8]) -> Try<Kmer>
    requires { IsKmer head.k x × (3 < length s.now) }
    ensures { TrialIs head.k (passing_of head.k (kmer_of x) s.now) result }
{
    Try::given(with(with(x, s, 1, head), s, 3, head), 0)
}

// x+s1 not solid, x+u(x)
fn instead(set: &KmerSet, x: Kmer, s: &[u8]) -> Try<Kmer>
    requires { IsKmer set.now.head.k x × (1 < length s.now) }
    ensures { TrialIs set.now.head.k (instead_of set.now.head.k (solid (set_of set.now.bytes.now)) (kmer_of x) s.now) result }
{
    let asked = set.ask(with(x, s, 1, set.head));
    if asked.solid {
        return Try::refused(asked.lookups);
    }
    let on = sole(set, x);
    Try {
        answer: on.answer,
        lookups: asked.lookups + on.lookups,
    }
}

// y = x+s1 solid, y+s2 not, y+u(y)
fn instead_after(set: &KmerSet, x: Kmer, s: &[u8]) -> Try<Kmer>
    requires { IsKmer set.now.head.k x × (2 < length s.now) }
    ensures { TrialIs set.now.head.k (instead_after set.now.head.k (solid (set_of set.now.bytes.now)) (kmer_of x) s.now) result }
{
    let y = with(x, s, 1, set.head);
    let first = set.ask(y);
    if !first.solid {
        return Try::refused(first.lookups);
    }
    let second = set.ask(with(y, s, 2, set.head));
    let lookups = first.lookups + second.lookups;
    if second.solid {
        return Try::refused(lookups);
    }
    let on = sole(set, y);
    Try {
        answer: on.answer,
        lookups: lookups + on.lookups,
    }
}
