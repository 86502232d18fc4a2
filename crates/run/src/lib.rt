// Reads the files and writes what is printed for them. No contract can say what is read or written, so all else is done by `program::printed`.
#![tactic(auto)]

ghost use Rattle.std.specs.Prelude.{◌≤◌, length, IfSome};

use program::PAGE;
use std::io::Read;
use std::rt::Files;
use std::{fs, io};

// Reads until the buffer is full, the file ends or a read fails, and answers how many bytes stand at its start. It is a `while`, since a read gives
// any number of bytes.
fn read_full<F: Read>(file: &mut F, buffer: &mut [u8]) -> usize
    ensures { result ≤ length buffer.new }
{
    let mut length = 0;
    while length < buffer.len() {
        match file.read(&mut buffer[length..]) {
            Ok(0) | Err(_) => return length,
            Ok(count) => length += count,
        }
    }
    length
}

// A file's bytes, put at the buffer's start; none if it is not read to its end. One read more tells the end from a failure, and from a longer file. A
// file that was not opened, as a missing one, is one that cannot be read.
fn read_file<F: Read + Drop>(file: io::Result<F>, buffer: &mut [u8]) -> Option<&[u8]>
    ensures { IfSome result (λ bytes. length bytes.now ≤ length buffer.old) }
{
    let mut file = file.ok()?;
    let length = read_full(&mut file, buffer);
    let mut more = [0u8; 1];
    matches!(file.read(&mut more), Ok(0)).then_some(&buffer[..length])
}

// The program over the files of these names and an open batch. Each buffer has a byte more than the file may have, so that `program::printed` sees a
// file that is too long.
pub fn run<R: Files + Print, B: Read + Drop>(
    rt: &R,
    set_name: &str,
    job_name: &str,
    batch_file: io::Result<B>,
) -> io::Result<()> {
    let mut set = [0u8; 65537];
    let mut job = [0u8; 65];
    let mut batch = [0u8; 16385];
    let files = program::Files {
        set: read_file(fs::open(rt, set_name), &mut set),
        job: read_file(fs::open(rt, job_name), &mut job),
        batch: read_file(batch_file, &mut batch),
    };
    let mut page = [0u8; PAGE];
    let length = program::printed(files, &mut page);
    rt.write_all(&page[..length])
}
