// A key compared with a few of a set's keys: from key `from` on and before key `end`, two numbers, since a Range is not Copy and each step
// takes it apart.
#![tactic(auto)]

mod key_part;

ghost use Rattle.std.specs.Prelude.{◌≡◌, ◌+◌, ◌/◌, ◌≤◌, ◌<◌, length};
ghost use Rattle.rules.specs.Set.{max_keys};
ghost use Rattle.few_keys.specs.Find;
ghost use Rattle.few_keys.specs.Find.{key_in};
ghost use Rattle.few_keys.specs.Part.{key_of, BracketIn, AnswersIn};

pub use key_part::KeyPart;

// How many check words stand before key i, by fewer instructions than a division takes.
pub fn checks_before(i: usize) -> usize
    requires { i ≤ max_keys }
    ensures { result ≡ i / 63 }
{
    i * 17043522 / 1073741824
}

// Where key i stands in the set: one word in 64 is a check word.
pub fn place(i: usize) -> usize
    requires { i ≤ max_keys }
    ensures { result ≡ Find.place i }
{
    512 + 8 * (i + checks_before(i))
}

// Key i of the set, read in the part of its bytes from byte `skip` on.
pub fn key_at(part: &[u8], skip: usize, i: usize) -> u64
    requires { (i < max_keys) × (skip ≤ Find.place i) × (Find.place i + 8 ≤ skip + length part.now) }
    ensures { result ≡ key_in skip part.now i }
{
    blocks::word_at(part, place(i) - skip)
}

// In a set of fewer keys a prefix rarely has more than two.
const SMALL: usize = 32768;

impl KeyPart<'_> {
    // Key i of the set.
    fn key_at(&self, i: usize) -> u64
        requires { (self.now.first ≤ i) × (i < self.now.last) }
        ensures { result ≡ key_of self.now i }
    {
        key_at(self.bytes, self.skip, i)
    }

    // One key or two.
    fn in_two(&self, key: u64, from: usize, end: usize) -> Option<usize>
        requires { (self.now.first ≤ from) × (from < end) × (end ≤ self.now.last) × (end ≤ from + 2) }
        ensures { AnswersIn self.now key from end result }
    {
        let last = end - 1;
        let is_first = key == self.key_at(from);
        let is_last = key == self.key_at(last);
        if is_first | is_last {
            return Some(number::pick(is_first, from, last));
        }
        None
    }

    // Up to four keys, all of them compared: a branch on each would often be guessed wrong.
    fn in_four(&self, key: u64, from: usize, end: usize) -> Option<usize>
        requires { (self.now.first ≤ from) × (from < end) × (end ≤ self.now.last) × (end ≤ from + 4) }
        ensures { AnswersIn self.now key from end result }
    {
        let last = end - 1;
        let second = (from + 1).min(last);
        let third = (from + 2).min(last);
        let is_first = key == self.key_at(from);
        let is_second = key == self.key_at(second);
        let is_third = key == self.key_at(third);
        let is_last = key == self.key_at(last);
        if is_first | is_second | is_third | is_last {
            return Some(number::pick(
                is_first,
                from,
                number::pick(is_second, second, number::pick(is_third, third, last)),
            ));
        }
        None
    }

    // All keys of the part, a few of a set of n.
    pub fn in_few(&self, key: u64, n: usize) -> Option<usize>
        requires { (self.now.first < self.now.last) × (self.now.last ≤ self.now.first + 4) }
        ensures { AnswersIn self.now key self.now.first self.now.last result }
    {
        if n < SMALL && self.last - self.first <= 2 {
            return self.in_two(key, self.first, self.last);
        }
        self.in_four(key, self.first, self.last)
    }

    // Up to eight keys, if any: one comparison says in which half the key can stand.
    pub fn in_eight(&self, key: u64, from: usize, end: usize) -> Option<usize>
        requires { (self.now.first ≤ from) × (end ≤ self.now.last) × (end ≤ from + 8) }
        ensures { AnswersIn self.now key from end result }
    {
        if end <= from {
            return None;
        }
        let middle = from + (end - from) / 2;
        let start = number::pick(self.key_at(middle) <= key, middle, from);
        self.in_four(key, start, (start + 4).min(end))
    }

    // A plain bisection, for the keys at the ends of the part, where no three whole lines are.
    pub fn bisect(&self, key: u64, from: usize, end: usize) -> Option<usize>
        requires { BracketIn self.now key from end }
        ensures { AnswersIn self.now key self.now.first self.now.last result }
    {
        let mut low = from;
        let mut high = end;
        while low < high {
            let i = low + (high - low) / 2;
            let word = self.key_at(i);
            if word == key {
                return Some(i);
            }
            if word < key {
                low = i + 1;
            } else {
                high = i;
            }
        }
        None
    }
}
