// Document 02, W12: the first judgement of a sheet, by its edits' numbers alone. No sum can wrap: the tests subtract.
#![tactic(auto)]

ghost use Rattle.std.specs.Prelude.{◌≡◌, List, ℕ, ◌+◌, ◌*◌, ◌≤◌, ◌<◌, length};
ghost use Rattle.rules_edits.specs.Edits as rules;
ghost use Rattle.edit_forms.specs.Formed.{EditIs, FormedIs};
ghost use Rattle.edit_forms.specs.Sheet.{sheet_of};

// A read, the partner's corrected read, the edits' numbers, and all letters in one list.
#[derive(Clone, Copy)]
pub struct Sheet<'a> {
    pub read: &'a [u8],
    pub mended: &'a [u8],
    pub edits: &'a [u64],
    pub letters: &'a [u8],
}

// An edit's three numbers: where in the read it begins, how many bases it takes, and how many letters it gives.
#[derive(Clone, Copy)]
pub struct Edit {
    pub position: u64,
    pub taken: u64,
    pub gives: u64,
}

// How many edits there are and how many letters they give, where each is formed.
#[derive(Clone, Copy)]
pub struct Formed {
    pub edits: usize,
    pub letters: usize,
}

pub fn edit_at(edits: &[u64], i: usize) -> Edit
    requires { 3 * i + 3 ≤ length edits.now }
    ensures { EditIs edits.now i result }
{
    Edit {
        position: edits[3 * i],
        taken: edits[3 * i + 1],
        gives: edits[3 * i + 2],
    }
}

// It rises strictly, and does not begin before the end of the edit before it.
fn is_behind(sheet: &Sheet, i: usize) -> bool
    requires { 3 * i + 3 ≤ length sheet.now.edits.now }
    ensures { result ≡ rules.behind (sheet_of sheet.now) i }
{
    if i == 0 {
        return true;
    }
    let last = edit_at(sheet.edits, i - 1);
    let edit = edit_at(sheet.edits, i);
    last.position < edit.position && last.taken <= edit.position - last.position
}

// Edit i, before which the edits give so many letters.
fn is_formed(k: usize, sheet: &Sheet, i: usize, given: usize) -> bool
    requires { (3 * i < length sheet.now.edits.now) × (given ≡ rules.letters_to (sheet_of sheet.now) i)
        × (given ≤ length sheet.now.letters.now) }
    ensures { result ≡ rules.formed k (sheet_of sheet.now) i }
{
    if sheet.edits.len() - 3 * i < 3 {
        return false;
    }
    let edit = edit_at(sheet.edits, i);
    let length = sheet.read.len() as u64;
    if edit.position < k as u64 || length <= edit.position || length - edit.position <= edit.taken {
        return false;
    }
    edit.gives <= (sheet.letters.len() - given) as u64 && is_behind(sheet, i)
}

// All edits, in their order; else the first that offends. The last may have fewer than three numbers. It goes by their numbers, since one is
// the answer. The partner's read is not asked: the answer holds of any.
pub fn judge_forms(k: usize, sheet: &Sheet) -> Result<Formed, usize>
    ensures { (mended : List ℕ) → FormedIs k
        (rules.sheet sheet.now.read.now mended sheet.now.edits.now sheet.now.letters.now) result }
{
    let n = sheet.edits.len().div_ceil(3);
    let mut given = 0;
    for i in 0..n {
        if !is_formed(k, sheet, i, given) {
            return Err(i);
        }
        given += edit_at(sheet.edits, i).gives as usize;
    }
    Ok(Formed {
        edits: n,
        letters: given,
    })
}
