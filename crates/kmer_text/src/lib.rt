// Document 02, W3 and W8: a site's k-mer counts as text. Of a line: whether it has the form, whether it is kept, its canonical code and its count.
#![tactic(auto)]

ghost use Rattle.std.specs.Prelude.{◌≡◌, true, ◌≤◌, min, length};
ghost use Rattle.rules.specs.Set.{max_k};
ghost use Rattle.rules_make.specs.MakeSet as Rules;

use kmer::Header;

const MAX_COUNT: u64 = 4294967295;

// Two tests, and `all` of each: one function of the test would be no plainer.
fn is_letter(b: u8) -> bool
    ensures { result ≡ Rules.is_letter b }
{
    matches!(b, b'A' | b'C' | b'G' | b'T')
}

fn is_digit(b: u8) -> bool
    ensures { result ≡ Rules.is_digit b }
{
    b.is_ascii_digit()
}

fn all_letters(part: &[u8]) -> bool
    ensures { result ≡ Rules.all Rules.is_letter part.now }
{
    part.iter().all(|b| is_letter(*b))
}

fn all_digits(part: &[u8]) -> bool
    ensures { result ≡ Rules.all Rules.is_digit part.now }
{
    part.iter().all(|b| is_digit(*b))
}

fn number_of(digits: &[u8]) -> u64
    requires { (Rules.all Rules.is_digit digits.now ≡ true) × (length digits.now ≤ 10) }
    ensures { result ≡ Rules.number 0 digits.now }
{
    let mut sum = 0;
    for digit in digits {
        sum = 10 * sum + u64::from(digit - b'0');
    }
    sum
}

// Refusal 12, unless it holds.
pub fn form_right(line: &[u8], k: usize) -> bool
    requires { k ≤ max_k }
    ensures { result ≡ Rules.form_right k line.now }
{
    let length = line.len();
    if length < k + 3 || k + 12 < length {
        return false;
    }
    let first = k + 1;
    let last = length - 1;
    all_letters(&line[..k])
        && line[k] == b','
        && all_digits(&line[first..last])
        && line[last] == b'\n'
}

pub fn line_count(line: &[u8], k: usize) -> u64
    requires { (k ≤ max_k) × (Rules.form_right k line.now ≡ true) }
    ensures { result ≡ Rules.line_count k line.now }
{
    let first = k + 1;
    let last = line.len() - 1;
    number_of(&line[first..last])
}

// A count as a 32-bit number: larger ones are held at the largest.
pub fn held(count: u64) -> u32
    ensures { result ≡ min count Rules.max_count }
{
    count.min(MAX_COUNT) as u32
}

// A line whose count is below the least is passed over.
pub fn is_kept(line: &[u8], k: usize, least: u64) -> bool
    requires { (k ≤ max_k) × (Rules.form_right k line.now ≡ true) }
    ensures { result ≡ Rules.kept k least line.now }
{
    least <= line_count(line, k)
}

pub fn line_key(line: &[u8], head: Header) -> u64
    requires { Rules.form_right head.k line.now ≡ true }
    ensures { result ≡ Rules.line_key head.k line.now }
{
    kmer::canonical(kmer::seq2bit(line, head))
}
