// The answer of a bridge call as numbers.
#![tactic(auto)]

ghost use Rattle.std.specs.Prelude.{◌≡◌};
ghost use Rattle.bridge.specs.Answer.{answer_of};
ghost use Rattle.bridge_numbers.specs.Numbers.{bridge_numbers};

use bridge::Bridge;
use refusal::Refusal;

#[tactic(auto, unfolding(crate::specs::Numbers::bridge_numbers))]
pub fn numbers_of(answer: Result<Bridge, Refusal>) -> [u64; 21]
    ensures { result ≡ bridge_numbers (answer_of answer) }
{
    match answer {
        Ok(bridge) => {
            let mut numbers = [0; 21];
            numbers[3] = bridge.lookups;
            numbers[4] = bridge.floor;
            if let Some(chain) = bridge.chain {
                numbers[2] = chain.moves as u64;
                numbers[5..].copy_from_slice(&chain.letters.map(u64::from));
            }
            numbers
        }
        Err(refusal) => refusal.numbers(),
    }
}
