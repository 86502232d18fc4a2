// Document 01, "Correctors", One and Two: ports src/correct/exist/mod.rs. The choice among the scenarios that trials keep.
#![tactic(auto)]

ghost use Rattle.std.specs.Prelude.{◌≡◌, ◌≤◌, ◌<◌, ◌^◌, length, map, take};
ghost use Rattle.std.specs.List.{All};
ghost use Rattle.rules.specs.Letters.{in_place};
ghost use Rattle.rules.specs.Set.{solid, set_of, count_of};
ghost use Rattle.rules.specs.Counted.{after};
ghost use Rattle.rules.specs.Scan.{error_len};
ghost use Rattle.rules.specs.Exist as rules;
ghost use Rattle.kmer.specs.Kmer.{kmer_of, IsKmer, HasLetters};
ghost use Rattle.set.specs.Counted.{set_with};
ghost use Rattle.scan.specs.Attempt.{Attempted};
ghost use Rattle.scenario.specs.Scenario.{spelled_out};
ghost use Rattle.trials.specs.Trials.{Placed};
ghost use Rattle.exist.specs.Exist.{LetterIs, MoreIs, ChoiceIs};

use kmer::{Header, Kmer};
use scan::Attempt;
use scenario::{Mend, Scenario, Try};
pub use scenario::{ScenarioOne, ScenarioTwo};
use set::{Asked, KmerSet};

// The code of letter i.
fn letter_at(mend: Mend, i: usize) -> u64
    requires { i < mend.letters }
    ensures { LetterIs mend i result }
{
    (mend.code >> (2 * (mend.letters - 1 - i))) & 3
}

fn write(mend: Mend, out: &mut [u8])
    requires { mend.letters ≤ length out.old }
    ensures { (take mend.letters out.new ≡ (spelled_out mend).letters) × (length out.new ≡ length out.old) }
{
    // By index: letter i is read off the code, so there is no list of them to go over.
    for i in 0..mend.letters {
        out[i] = kmer::bit2nuc(letter_at(mend, i));
    }
}

// The bad k-mer with the letters in place of its last one.
fn in_place(kmer: Kmer, mend: Mend, head: Header) -> Kmer
    requires { IsKmer head.k kmer }
    ensures { HasLetters head.k (in_place head.k (kmer_of kmer) (spelled_out mend).letters) result }
{
    let mut placed = kmer::drop_last(kmer, head);
    // By index, as in `write`.
    for i in 0..mend.letters {
        placed = kmer::add_nuc_to_end(placed, letter_at(mend, i), head);
    }
    placed
}

// One base more: its k-mer asked, where s is long enough.
fn one_more(set: &KmerSet, c: usize, kmer: Kmer, s: &[u8], mend: Mend) -> Asked
    requires { IsKmer set.now.head.k kmer × (c < 256) }
    ensures { MoreIs (spelled_out mend)
        (rules.one_more set.now.head.k (solid (set_of set.now.bytes.now)) c s.now (kmer_of kmer) (spelled_out mend)) result }
{
    let end = c + mend.resume + 1;
    if s.len() <= end {
        return Asked {
            solid: false,
            lookups: 0,
        };
    }
    let placed = in_place(kmer, mend, set.head);
    set.ask(scan::add_all(placed, &s[mend.resume..end], set.head))
}

// The only one kept, or the only one kept with one base more: all that are long enough are asked.
fn choose(set: &KmerSet, c: usize, kmer: Kmer, s: &[u8], kept: &[Mend]) -> Try<Mend>
    requires { IsKmer set.now.head.k kmer × (c < 256) × (length kept.now ≤ 13) × All (Placed (set_of set.now.bytes.now)) kept.now }
    ensures { ChoiceIs (set_of set.now.bytes.now)
        (rules.choose set.now.head.k (solid (set_of set.now.bytes.now)) c s.now (kmer_of kmer) (map spelled_out kept.now)) result }
{
    if kept.len() == 1 {
        return Try::given(kept[0], 0);
    }
    let mut chosen = None;
    let mut remaining: usize = 0;
    let mut lookups = 0;
    for mend in kept {
        let more = one_more(set, c, kmer, s, *mend);
        lookups += more.lookups;
        if more.solid {
            chosen = Some(*mend);
            remaining += 1;
        }
    }
    Try {
        answer: if remaining == 1 { chosen } else { None },
        lookups,
    }
}

// An attempt by One or by Two at the bad k-mer, s the rest of the read at its bad base; `made` are the lookups before it, of GapSize's scan.
// It rests on the tried k-mer of the scenario that is used.
pub fn correct_error<S: Scenario>(
    set: &KmerSet,
    c: u8,
    made: u64,
    kmer: Kmer,
    s: &[u8],
    out: &mut [u8],
) -> Attempt
    requires { IsKmer set.now.head.k kmer × (1 ≤ c) × (made < 2 ^ 63) }
    ensures { Attempted set.now.head.k (kmer_of kmer) (count_of (set_with set.now.bytes.now set.now.counts.now))
        (error_len set.now.head.k (solid (set_of set.now.bytes.now)) (kmer_of kmer) s.now).index out.old out.new
        (after made (rules.exist set.now.head.k (solid (set_of set.now.bytes.now)) c s.now
        (S.scenarios set.now.head.k (solid (set_of set.now.bytes.now))) (kmer_of kmer))) result }
{
    let alt = match successors::sole_alt(set, kmer) {
        Ok(alt) => alt,
        Err(lookups) => return Attempt::Refused(made + lookups),
    };
    let confirm = c as usize;
    let scenarii = trials::get_scenarii::<S>(set, confirm, alt.kmer, s);
    let choice = choose(set, confirm, kmer, s, scenarii.kept.as_slice());
    let lookups = made + 4 + scenarii.lookups + choice.lookups;
    let Some(mend) = choice.answer else {
        return Attempt::Refused(lookups);
    };
    if mend.letters <= out.len() {
        write(mend, out);
    }
    let support = support::count_at(set.counts, mend.place);
    let placed = in_place(kmer, mend, set.head);
    Attempt::Mend(mend.letters, mend.resume, lookups, support, placed)
}
