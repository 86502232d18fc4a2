// Document 02, W12: whether another program's edits turn a read into its corrected read, with solid k-mers around them.
#![tactic(auto)]

ghost use Rattle.std.specs.Prelude.{◌≡◌, ◌&&◌, eqb};
ghost use Rattle.rules.specs.Set.{solid, set_of};
ghost use Rattle.rules_edits.specs.Edits as rules;
ghost use Rattle.refusal.specs.Refusal.{check_of};
ghost use Rattle.edit_forms.specs.Sheet.{sheet_of};
ghost use Rattle.edit_walk.specs.Walk.{left_of};
ghost use Rattle.edits.specs.Joins.{is_done};

use edit_forms::Sheet;
use edit_walk::Walk;
use refusal::Refusal;
use set::{KmerSet, STARTS};

// The third judgement: all bases were the partner's, none of his is left, and no letter is left over.
fn joins(walk: Walk, given: usize, letters: usize) -> bool
    ensures { result ≡ (is_done (left_of walk.entry.left) && eqb given letters) }
{
    matches!(walk.left, Some([])) && given == letters
}

// The judgements in their order, each over all edits.
fn judge(set: &KmerSet, sheet: &Sheet) -> Result<(), Refusal>
    ensures { check_of result
        ≡ rules.judge set.now.head.k (solid (set_of set.now.bytes.now)) (sheet_of sheet.now) }
{
    let formed = edit_forms::judge_forms(set.head.k, sheet).map_err(Refusal::Edit)?;
    let walked = edit_walk::over_edits(set, sheet, formed.edits);
    let walk = walked.map_err(Refusal::Edit)?;
    if !joins(walk, formed.letters, sheet.letters.len()) {
        return Err(Refusal::Edit(formed.edits));
    }
    Ok(())
}

// Refusals 1 for either read, 7 to 10, and 19. Ok means that the sheet is accepted. Its parts are parameters, since the C interface lends them one by one.
pub fn check_edits(
    set: &[u8],
    read: &[u8],
    mended: &[u8],
    edits: &[u64],
    letters: &[u8],
) -> Result<(), Refusal>
    ensures { check_of result
        ≡ rules.check_edits set.now
        (rules.sheet read.now mended.now edits.now letters.now) }
{
    input::check_length(read.len())?;
    input::check_length(mended.len())?;
    let mut starts = [0u32; STARTS];
    let opened = offered::open(set, b"", &[], read.len(), &mut starts)?;
    let sheet = Sheet {
        read,
        mended,
        edits,
        letters,
    };
    judge(&opened, &sheet)
}
