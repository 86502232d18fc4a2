// Document 01, One: I, S, D. Ports src/correct/exist/one.rs.
ghost use Rattle.rules.specs.Exist as rules;
ghost use Rattle.scenario.specs.Scenario.{one_of};

use super::{Row, Scenario, Try};
use kmer::Kmer;
use set::KmerSet;

#[derive(Clone, Copy)]
pub enum ScenarioOne {
    I,
    S,
    D,
}

impl ScenarioOne {
    const ALL: [ScenarioOne; 3] = [ScenarioOne::I, ScenarioOne::S, ScenarioOne::D];
}

impl Scenario for ScenarioOne {
    ghost scenarios = { rules.one };

    ghost scenario = { one_of };

    fn all() -> &'static [ScenarioOne] {
        &ScenarioOne::ALL
    }

    fn row(self) -> Row {
        let (start, resume) = match self {
            ScenarioOne::I => (2, 2),
            ScenarioOne::S => (1, 1),
            ScenarioOne::D => (0, 0),
        };
        Row {
            least: 0,
            start,
            letters: 1,
            resume,
        }
    }

    fn apply(self, _set: &KmerSet, x: Kmer, _s: &[u8]) -> Try<Kmer> {
        Try::given(x, 0)
    }
}
