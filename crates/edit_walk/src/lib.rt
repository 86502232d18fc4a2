// Document 02, W12: one walk over the read with all edits made, piece by piece, so that it need not be laid out. The k-mer rolls over every
// base; only those that an edit asks are looked up.
#![tactic(auto)]

ghost use Rattle.std.specs.Prelude.{◌≡◌};
ghost use Rattle.std.proofs.Math.Option.{none};
ghost use Rattle.rules.specs.Refusal.{first_failing};
ghost use Rattle.rules.specs.Set.{solid, set_of};
ghost use Rattle.rules_edits.specs.Edits as rules;
ghost use Rattle.kmer.specs.Kmer.{IsKmer};
ghost use Rattle.edit_forms.specs.Sheet.{sheet_of};
ghost use Rattle.edit_walk.specs.Walk.{StepIs, left_of, stand_of, next, stepped, pass_over, over_edit, walk};

use edit_forms::Sheet;
use kmer::{Header, Kmer};
use set::KmerSet;

// Where a walk stands: its k-mer, the first edit that asks the next base's k-mer to be solid, if one does, and what is left of the partner's
// read, if it was the same so far.
#[derive(Clone, Copy)]
pub struct Walk<'a> {
    pub kmer: Kmer,
    pub asks: Option<usize>,
    pub left: Option<&'a [u8]>,
}

// What is left of the partner's read behind a base, if that comes next.
fn left_behind(left: Option<&[u8]>, base: u8) -> Option<&[u8]>
    ensures { left_of result ≡ next base (left_of left.entry) }
{
    let (first, rest) = left?.split_first()?;
    if *first == base { Some(rest) } else { None }
}

// The next base: the k-mer rolls, and the base is compared.
fn take_base(head: Header, walk: Walk<'_>, base: u8, then: Option<usize>) -> Walk<'_>
    requires { IsKmer head.k walk.kmer }
    ensures kmer { IsKmer head.k result.kmer }
    ensures stand { stand_of result ≡ stepped head.k then base (stand_of walk.entry) }
{
    Walk {
        kmer: scan::add_base(walk.kmer, base, head),
        asks: then,
        left: left_behind(walk.left, base),
    }
}

// A part, behind each base of which edit `then` asks the next one, or none does; or the edit that offends.
fn pass_over<'a>(
    set: &KmerSet,
    part: &[u8],
    walk: Walk<'a>,
    then: Option<usize>,
) -> Result<Walk<'a>, usize>
    requires { IsKmer set.now.head.k walk.kmer }
    ensures { StepIs set.now.head.k
        (pass_over set.now.head.k (solid (set_of set.now.bytes.now)) then part.now (stand_of walk.entry))
        result }
{
    let mut walk = walk;
    for base in part {
        let asks = walk.asks;
        walk = take_base(set.head, walk, *base, then);
        if let Some(i) = asks {
            if !set.ask(walk.kmer).solid {
                return Err(i);
            }
        }
    }
    Ok(walk)
}

// The bases kept before edit i, the base before it asked, and its letters.
fn over_edit<'a>(
    set: &KmerSet,
    kept: &[u8],
    letters: &[u8],
    walk: Walk<'a>,
    i: usize,
) -> Result<Walk<'a>, usize>
    requires { IsKmer set.now.head.k walk.kmer }
    ensures { StepIs set.now.head.k
        (over_edit set.now.head.k (solid (set_of set.now.bytes.now)) i kept.now letters.now (stand_of walk.entry))
        result }
{
    let before = pass_over(set, kept, walk, None)?;
    if !set.ask(before.kmer).solid {
        return Err(i);
    }
    // A base that an earlier edit asks too is that edit's.
    let asked = Walk {
        asks: before.asks.or(Some(i)),
        ..before
    };
    pass_over(set, letters, asked, Some(i))
}

// The bases kept before each edit, its letters, and the bases behind the last. It goes by the edits' numbers, since one is the answer.
pub fn over_edits<'a>(set: &KmerSet, sheet: &Sheet<'a>, n: usize) -> Result<Walk<'a>, usize>
    requires { (rules.count (sheet_of sheet.now) ≡ n)
        × (first_failing (rules.formed set.now.head.k (sheet_of sheet.now)) 0 n ≡ none) }
    ensures { StepIs set.now.head.k
        (walk set.now.head.k (solid (set_of set.now.bytes.now)) (sheet_of sheet.now))
        result }
{
    let mut walk = Walk {
        kmer: kmer::all_a(set.head),
        asks: None,
        left: Some(sheet.mended),
    };
    let mut from = 0;
    let mut given = 0;
    for i in 0..n {
        let edit = edit_forms::edit_at(sheet.edits, i);
        let position = edit.position as usize;
        let end = given + edit.gives as usize;
        let kept = &sheet.read[from..position];
        walk = over_edit(set, kept, &sheet.letters[given..end], walk, i)?;
        from = position + edit.taken as usize;
        given = end;
    }
    pass_over(set, &sheet.read[from..], walk, None)
}
