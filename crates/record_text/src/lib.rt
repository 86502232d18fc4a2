// A record's text: its name line and its read in lines of 80 letters, each with its byte 10. Document 02, W11.
#![tactic(auto)]

ghost use Rattle.std.specs.Prelude.{◌≡◌, [], ◌∷◌, ◌++◌, ◌+◌, ◌/◌, ◌≤◌, ◌<◌, ◌^◌, length, take};
ghost use Rattle.rules_fasta.specs.Fasta.{read_lines, ended};
ghost use Rattle.record_text.specs.Text.{PutIs};

const WIDTH: usize = 80;

// A line and its byte 10.
fn put_line(line: &[u8], out: &mut [u8], at: usize)
    requires { at + length line.now < length out.old }
    ensures { take (at + length line.now + 1) out.new ≡ take at out.old ++ (line.now ++ (10 ∷ [])) }
{
    let end = at + line.len();
    correct::copy(line, &mut out[at..end]);
    out[end] = b'\n';
}

// A read in lines of 80; where they end.
fn put_read(read: &[u8], out: &mut [u8], at: usize) -> usize
    requires { at + length (ended (read_lines read.now)) ≤ length out.old }
    ensures { PutIs out.old out.new at (ended (read_lines read.now)) result }
{
    let mut to = at;
    for line in read.chunks(WIDTH) {
        put_line(line, out, to);
        to += line.len() + 1;
    }
    to
}

// The length of a record's text, by those of its name line and its read.
pub fn text_length(name: usize, read: usize) -> usize
    requires { (name < 2 ^ 32) × (read < 2 ^ 32) }
    ensures { result ≡ name + 1 + (read + (read + 79) / 80) }
{
    name + 1 + (read + read.div_ceil(WIDTH))
}

// A record's text at a place; where it ends.
pub fn put_record(name: &[u8], read: &[u8], out: &mut [u8], at: usize) -> usize
    requires { at + length (ended (name.now ∷ read_lines read.now)) ≤ length out.old }
    ensures { PutIs out.old out.new at (ended (name.now ∷ read_lines read.now)) result }
{
    put_line(name, out, at);
    put_read(read, out, at + name.len() + 1)
}
