// Where a key stands among some of a set's keys: from key `from` on and before key `end`, two numbers, since a Range is not Copy and each step
// takes it apart.
#![tactic(auto)]

ghost use Rattle.std.specs.Prelude.{◌≡◌, false, ◌+◌, ◌≤◌, ◌<◌};
ghost use Rattle.rules.specs.Set.{max_keys};
ghost use Rattle.few_keys.specs.Part.{BracketIn, AnswersIn};
ghost use Rattle.cache_line.specs.Lines.{first_key, HasLines, in_window};
ghost use Rattle.keys.specs.Within.{WithinKeys};

use few_keys::KeyPart;

// The line before that of key i, where there is one.
fn line_before(i: usize) -> usize
    requires { i < max_keys }
    ensures { (result + 3 ≤ max_keys) × (first_key result ≤ i) × (i < first_key (result + 2)) }
{
    let line = cache_line::line_of(i);
    if line < 1 { 0 } else { line - 1 }
}

// So many keys on from the lower end, or back from the upper one, but at most half of the way: any index of the range is right.
fn on(low: usize, high: usize, step: usize) -> usize
    ensures { low < high → (low ≤ result) × (result < high) }
{
    if high <= low {
        return low;
    }
    low + step.min((high - low) / 2)
}

fn back(low: usize, high: usize, step: usize) -> usize
    ensures { low < high → (low ≤ result) × (result < high) }
{
    if high <= low {
        return low;
    }
    high - 1 - step.min((high - low) / 2)
}

// Whether one of three lines is not wholly within the part.
fn beyond(part: &KeyPart, line: usize) -> bool
    requires { line + 3 ≤ max_keys }
    ensures { result ≡ false → HasLines part.now line (line + 3) }
{
    (cache_line::first_key(line) < part.first) | (part.last < cache_line::first_key(line + 3))
}

// From the end of three lines to the middle of the next three.
const STEP: usize = 12;

// Steps from a guess, each to the lines next to those read, for nearly always the key is close; the steps double, so that a bad guess costs
// no more than a bisection.
fn search(part: &KeyPart, key: u64, from: usize, end: usize, guessed: usize) -> Option<usize>
    requires { BracketIn part.now key from end × (from ≤ guessed) × (guessed < end) }
    ensures { AnswersIn part.now key part.now.first part.now.last result }
{
    let mut low = from;
    let mut high = end;
    let mut i = guessed;
    let mut step = STEP;
    while low < high {
        let line = line_before(i);
        if beyond(part, line) {
            return part.bisect(key, low, high);
        }
        if cache_line::in_window(part.bytes, part.skip, key, line) {
            let found = cache_line::window_line(part, key, line);
            return cache_line::in_line(part, key, found);
        }
        step = (2 * step).min(16777216);
        if key < cache_line::line_key(part.bytes, part.skip, line, 0) {
            high = cache_line::first_key(line);
            i = back(low, high, step);
        } else {
            low = cache_line::first_key(line + 2) + 7;
            i = on(low, high, step);
        }
    }
    None
}

// The 14 bits of the key below its prefix. Of a prefix shorter than an index's the highest may be lost: a worse guess.
fn fraction(key: u64, shift: u32) -> usize
    requires { shift < 64 }
    ensures { result < 16384 }
{
    (((key << 14) >> shift) % 16384) as usize
}

// Where the key stands if the keys of its prefix are spread evenly: any index of the range is right.
fn guess(key: u64, shift: u32, from: usize, end: usize) -> usize
    requires { (shift < 64) × (from < end) × (end ≤ max_keys) }
    ensures { (from ≤ result) × (result < end) }
{
    from + fraction(key, shift) * (end - from) / 16384
}

// The index nearest to i with its line and the two beside it within the keys from `first` on and before `last`, wherever lines begin.
fn inside(i: usize, first: usize, last: usize) -> usize
    requires { (first + 31 ≤ last) × (last ≤ max_keys) }
    ensures { (first + 15 ≤ result) × (result + 16 ≤ last) }
{
    i.max(first + 15).min(last - 16)
}

// The first of the three lines about the guess, or of the nearest three within the range. No branch goes by that: at the ends of a short range
// it would often be guessed wrong.
fn guessed_line(key: u64, shift: u32, first: usize, last: usize, from: usize, end: usize) -> usize
    requires { (shift < 64) × (from < end) × (end ≤ max_keys) × (first + 31 ≤ last) × (last ≤ max_keys) }
    ensures { (first ≤ first_key result) × (first_key (result + 3) ≤ last) }
{
    cache_line::line_of(inside(guess(key, shift, from, end), first, last)) - 1
}

// No line: it lies behind every set. No Option, for `touch` has to test for a line behind its set anyway.
pub const NO_LINE: usize = 16777216;

// The first of the three lines that a search for the key reads first, all of them within the keys from `first` on and before `last`.
pub fn first_line(key: u64, shift: u32, first: usize, last: usize, from: usize, end: usize) -> usize
    requires { (shift < 64) × (end ≤ max_keys) × (first ≤ max_keys) × (last ≤ max_keys) }
    ensures { (result ≤ max_keys) × WithinKeys first last result }
{
    if end <= from {
        return NO_LINE;
    }
    if last < first + 32 {
        return NO_LINE;
    }
    guessed_line(key, shift, first, last - 1, from, end)
}

// Reads what a search reads of three lines, if they are there, so that they are near when it comes.
pub fn touch(set: &[u8], line: u32) -> u64 {
    let at = 512 + 64 * line as usize;
    if set.len() < at + 192 {
        return 0;
    }
    blocks::word_at(set, at)
        | blocks::word_at(set, at + 64)
        | blocks::word_at(set, at + 128)
        | blocks::word_at(set, at + 176)
}

// A key that belongs to none of three lines. At an end of the range only a few keys are left.
fn beside(part: &KeyPart, key: u64, from: usize, end: usize, line: usize) -> Option<usize>
    requires { BracketIn part.now key from end × (from < end) × HasLines part.now line (line + 3)
        × (in_window part.now.skip part.now.bytes.now key line ≡ false) }
    ensures { AnswersIn part.now key part.now.first part.now.last result }
{
    let below = key < cache_line::line_key(part.bytes, part.skip, line, 0);
    let low = number::pick(below, from, cache_line::first_key(line + 2) + 7);
    let high = number::pick(below, cache_line::first_key(line), end);
    if high <= low + 8 {
        return part.in_eight(key, low, high);
    }
    let guessed = number::pick(below, back(low, high, STEP), on(low, high, STEP));
    search(part, key, low, high, guessed)
}

// A key that can stand only from key `from` on and before key `end`. The keys there are guessed to be spread evenly by their bits below `shift`.
// The line of the guess and the two beside it are read at once, and no branch depends on which of them the key belongs to: it would often be
// guessed wrong, and all that follows would wait for memory.
pub fn find(part: &KeyPart, key: u64, shift: u32, from: usize, end: usize) -> Option<usize>
    requires { (shift < 64) × BracketIn part.now key from end × (from < end) }
    ensures { AnswersIn part.now key part.now.first part.now.last result }
{
    if part.last < part.first + 31 {
        return part.bisect(key, from, end);
    }
    let line = guessed_line(key, shift, part.first, part.last, from, end);
    if cache_line::in_window(part.bytes, part.skip, key, line) {
        let found = cache_line::window_line(part, key, line);
        return cache_line::in_line(part, key, found);
    }
    beside(part, key, from, end, line)
}
