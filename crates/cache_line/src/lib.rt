// Keys lie in lines of 64 bytes, each one access to memory: 8 words, of which the last in each block is its check word. A key is sought in one
// line, or in three that follow one another.
#![tactic(auto)]

ghost use Rattle.std.specs.Prelude.{◌≡◌, ◌+◌, ◌≤◌, ◌<◌, min};
ghost use Rattle.rules.specs.Set.{max_keys};
ghost use Rattle.few_keys.specs.Find.{key_in};
ghost use Rattle.few_keys.specs.Part.{BracketIn, AnswersIn};
ghost use Rattle.cache_line.specs.Lines.{first_key, Lines, HasLines, in_window};

use few_keys::KeyPart;

// The key at the start of a line.
pub fn first_key(line: usize) -> usize
    requires { line ≤ max_keys }
    ensures { result ≡ first_key line }
{
    8 * line - line / 8
}

// The line of key i.
pub fn line_of(i: usize) -> usize
    requires { i ≤ max_keys }
    ensures { (first_key result ≤ i) × (i < first_key (result + 1)) }
{
    (i + few_keys::checks_before(i)) / 8
}

// One of a line's first seven words, which are never the check word.
pub fn line_key(part: &[u8], skip: usize, line: usize, at: usize) -> u64
    requires { Lines skip part.now line (line + 1) × (at < 7) }
    ensures { result ≡ key_in skip part.now (first_key line + at) }
{
    blocks::word_at(part, 512 + 64 * line + 8 * at - skip)
}

// Two words of a line, but no check word: it is the last word in the last line of a block.
fn in_pair(part: &KeyPart, key: u64, line: usize, at: usize) -> Option<usize>
    requires { HasLines part.now line (line + 1) × (at < 7) }
    ensures { AnswersIn part.now key (first_key line + at) (min (first_key (line + 1)) (first_key line + at + 2)) result }
{
    // The index comes from numbers that are at hand, or else it would be worked out behind a branch for each of the two.
    let word = 8 * line + at;
    let next = blocks::word_at(part.bytes, 520 + 8 * word - part.skip);
    let is_first = key == blocks::word_at(part.bytes, 512 + 8 * word - part.skip);
    let is_second = (key == next) & (at + line % 8 < 13);
    if is_first | is_second {
        return Some(word + number::pick(is_second, 1, 0) - line / 8);
    }
    None
}

// The half of a line that the key belongs to, and the half of that.
pub fn in_line(part: &KeyPart, key: u64, line: usize) -> Option<usize>
    requires { BracketIn part.now key (first_key line) (first_key (line + 1)) }
    ensures { AnswersIn part.now key part.now.first part.now.last result }
{
    let (bytes, skip) = (part.bytes, part.skip);
    let half = number::pick(line_key(bytes, skip, line, 4) <= key, 4, 0);
    let quarter = number::pick(line_key(bytes, skip, line, half + 2) <= key, 2, 0);
    in_pair(part, key, line, half + quarter)
}

// Whether the key stands between the first of three lines' keys and the last that is surely none of their check words.
pub fn in_window(part: &[u8], skip: usize, key: u64, line: usize) -> bool
    requires { Lines skip part.now line (line + 3) }
    ensures { result ≡ in_window skip part.now key line }
{
    (line_key(part, skip, line, 0) <= key) & (key <= line_key(part, skip, line + 2, 6))
}

// Which of three lines the key belongs to.
pub fn window_line(part: &KeyPart, key: u64, line: usize) -> usize
    requires { BracketIn part.now key (first_key line) (first_key (line + 3)) }
    ensures { BracketIn part.now key (first_key result) (first_key (result + 1)) }
{
    let (bytes, skip) = (part.bytes, part.skip);
    let second = number::pick(line_key(bytes, skip, line + 1, 0) <= key, 1, 0);
    let third = number::pick(line_key(bytes, skip, line + 2, 0) <= key, 1, 0);
    line + second + third
}
