// The mends kept, in a fixed array: there is no heap.
ghost use Rattle.std.specs.Prelude.{◌≡◌, ◌<◌, ◌++◌, [], ◌∷◌, length};

use scenario::Mend;
use std::marker::Model;

// Contracts see it as the list of its mends. The places behind them are blank.
#[derive(Clone, Copy)]
pub struct Group {
    mends: [Mend; 13],
    count: usize,
}

impl Model for Group {
    ghost use Rattle.std.specs.Prelude.{◌≡◌, ◌≤◌, ◌++◌, List, length, take, drop};
    ghost use Rattle.std.proofs.Common.{arith, take-append-drop, length-take-le};
    ghost use Rattle.scenario.specs.declared.mend.Mend as scenario;
    ghost use Rattle.trials.specs.Group.{blanks};

    ghost Value = { List scenario.Mend };

    ghost view = { λ g. take g.count g.mends };

    ghost invariant = { λ g. (g.count ≤ 13) × (length g.mends ≡ 13) × (drop g.count g.mends ≡ blanks g.count) };

    ghost inverse = { λ ms. record { mends = ms ++ blanks (length ms); count = length ms } };

    ghost inverse_ok = { λ g h i.
        let kept : length (take g.count g.mends) ≡ g.count = length-take-le g.count g.mends (omega (arith, h.0, h.1)) in
        let whole : take g.count g.mends ++ blanks (length (take g.count g.mends)) ≡ g.mends = rw (kept, ← h.2) (take-append-drop g.count g.mends) in record {
          mends = whole i;
          count = kept i;
        } };
}

impl Group {
    pub fn new() -> Group
        ensures { result ≡ [] }
    {
        let none = Mend {
            code: 0,
            letters: 0,
            resume: 0,
            tried: 0,
            place: 0,
        };
        Group {
            mends: [none; 13],
            count: 0,
        }
    }

    pub fn push(&mut self, mend: Mend)
        requires { length self.old < 13 }
        ensures { self.new ≡ self.old ++ mend ∷ [] }
    {
        self.mends[self.count] = mend;
        self.count += 1;
    }

    pub fn as_slice(&self) -> &[Mend]
        ensures { result.now ≡ self.now }
    {
        &self.mends[..self.count]
    }
}
