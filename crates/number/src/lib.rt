// A choice without a branch.
#![tactic(auto)]

ghost use Rattle.std.specs.Prelude.{◌≡◌, cond};

pub fn pick(test: bool, yes: usize, no: usize) -> usize
    ensures { result ≡ cond test yes no }
{
    if test { yes } else { no }
}
