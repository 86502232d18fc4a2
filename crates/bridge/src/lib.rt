// Document 02, W13: the shortest bridge between two solid k-mers, as far as lookups last.
#![tactic(auto)]

mod chain;

ghost use Rattle.std.specs.Prelude.{◌≡◌, Bool, ◌-◌, ◌≤◌, length, take, IfOk, IfSome};
ghost use Rattle.std.proofs.Math.Option.{none};
ghost use Rattle.rules.specs.Set.{solid, set_of, opened};
ghost use Rattle.rules.specs.Refusal as Rules;
ghost use Rattle.rules_bridge.specs.Bridge as rules;
ghost use Rattle.kmer.specs.Kmer.{IsKmer};
ghost use Rattle.bridge_search.specs.Search.{laid};
ghost use Rattle.bridge.specs.Answer.{told_by, answer_of};

use bridge_search::{End, Search};
pub use chain::Chain;
use kmer::Kmer;
use refusal::Refusal;
use set::{KmerSet, STARTS};

// The most moves of a chain.
const MOVES: usize = 16;

// The shortest chain found, the lookups made, and the floor.
#[derive(Clone, Copy)]
pub struct Bridge {
    pub chain: Option<Chain>,
    pub lookups: u64,
    pub floor: u64,
}

// The chain that a search found. An array field goes into a literal by way of a variable, as the borrow checker asks.
fn chain_of(search: Search, moves: usize) -> Chain
    requires { 1 ≤ moves }
    ensures { (result.moves ≡ moves) × (result.letters ≡ search.letters) }
{
    let letters = search.letters;
    Chain { moves, letters }
}

// Rounds of 1 move, 2 moves and so on, while shorter than the deep search's chain. Its moves are what a round asks, and the floor where it is the last.
fn rounds(set: &KmerSet, from: Kmer, to: u64, budget: u64, lookups: u64, deep: Chain) -> Bridge
    requires { IsKmer set.now.head.k from × (from.unknown ≡ 0) × (lookups ≤ budget) × (deep.moves ≤ 16)
        × (deep.letters ≡ laid 0 (take deep.moves deep.letters)) × (length (take deep.moves deep.letters) ≡ deep.moves)
        × (1 ≤ deep.moves) }
    ensures told { told_by result
        ≡ rules.told (rules.rounds set.now.head.k (solid (set_of set.now.bytes.now)) to budget from.code (take deep.moves deep.letters) (deep.moves - 1) 1 lookups) }
    ensures moved { IfSome result.chain (λ c. 1 ≤ c.moves) }
{
    let mut lookups = lookups;
    for round in 1..deep.moves {
        let r = bridge_search::from_kmer(set, from, to, 0, round, budget, lookups);
        lookups = r.lookups;
        let chain = match r.end {
            End::Tried => continue,
            End::Stopped => deep,
            End::Found(moves) => chain_of(r, moves),
        };
        return Bridge {
            chain: Some(chain),
            lookups,
            floor: round as u64,
        };
    }
    Bridge {
        chain: Some(deep),
        lookups,
        floor: deep.moves as u64,
    }
}

// No chain.
fn nothing(lookups: u64, floor: u64) -> Bridge
    ensures told { (stop : Bool) → told_by result ≡ rules.told (rules.bridge_by none lookups floor stop) }
    ensures moved { IfSome result.chain (λ c. 1 ≤ c.moves) }
{
    Bridge {
        chain: None,
        lookups,
        floor,
    }
}

// First it goes deep.
fn shortest(set: &KmerSet, from: Kmer, to: u64, budget: u64) -> Bridge
    requires { IsKmer set.now.head.k from × (from.unknown ≡ 0) }
    ensures told { told_by result ≡ rules.told (rules.bridge set.now.head.k (solid (set_of set.now.bytes.now)) to budget from.code) }
    ensures moved { IfSome result.chain (λ c. 1 ≤ c.moves) }
{
    let deep = bridge_search::from_kmer(set, from, to, 0, MOVES, budget, 0);
    match deep.end {
        End::Found(moves) => {
            let chain = chain_of(deep, moves);
            rounds(set, from, to, budget, deep.lookups, chain)
        }
        End::Tried => nothing(deep.lookups, 17),
        End::Stopped => nothing(deep.lookups, 1),
    }
}

// Refusal 20, and else the search.
fn between(set: &KmerSet, from: u64, to: u64, budget: u64) -> Result<Bridge, Refusal>
    requires { opened set.now.bytes.now ≡ Rules.accepted (set_of set.now.bytes.now) }
    ensures told { answer_of result ≡ rules.told_of (rules.find_bridge set.now.bytes.now from to budget) }
    ensures moved { IfOk result (λ b. IfSome b.chain (λ c. 1 ≤ c.moves)) }
{
    let start = bridge_ends::solid_kmer(set, from).ok_or(Refusal::NotSolid(0))?;
    bridge_ends::solid_kmer(set, to).ok_or(Refusal::NotSolid(1))?;
    Ok(shortest(set, start, to, budget))
}

// The call. No index is offered, and no counts. A chain has one move at least.
pub fn find_bridge(set: &[u8], from: u64, to: u64, budget: u64) -> Result<Bridge, Refusal>
    ensures told { answer_of result ≡ rules.told_of (rules.find_bridge set.now from to budget) }
    ensures moved { IfOk result (λ b. IfSome b.chain (λ c. 1 ≤ c.moves)) }
{
    let mut starts = [0u32; STARTS];
    let opened = offered::open(set, b"", &[], 0, &mut starts)?;
    between(&opened, from, to, budget)
}
