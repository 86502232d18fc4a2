// The records of a list, and the bytes behind them. compare/README.md has the format.
ghost use Rattle.std.specs.Prelude.{◌≡◌, ◌<◌, ◌+◌, ◌*◌, length, vec_len, IfOk};

use refusal::Refusal;
use std::alloc::{AllocError, Global};
use std::io::Read;
use std::{array, io};

// Why a case cannot be replayed: the list has not its form, or memory has run out.
#[derive(Drop)]
pub enum ListError {
    Malformed,
    Memory(AllocError),
}

// A list that ends too early, or cannot be read, has not its form.
impl From<io::Error> for ListError {
    fn from(_error: io::Error) -> Self {
        ListError::Malformed
    }
}

impl From<AllocError> for ListError {
    fn from(error: AllocError) -> Self {
        ListError::Memory(error)
    }
}

// What a record is: something offered with the cases that follow, or a case.
#[derive(Clone, Copy, PartialEq, Eq)]
pub enum Kind {
    Set,
    Open,
    Read,
    Batch,
    Index,
    Counts,
    Needs,
    Fasta,
}

impl TryFrom<u32> for Kind {
    type Error = ListError;

    fn try_from(number: u32) -> Result<Self, ListError> {
        match number {
            1 => Ok(Kind::Set),
            2 => Ok(Kind::Open),
            3 => Ok(Kind::Read),
            4 => Ok(Kind::Batch),
            5 => Ok(Kind::Index),
            6 => Ok(Kind::Counts),
            7 => Ok(Kind::Needs),
            8 => Ok(Kind::Fasta),
            _ => Err(ListError::Malformed),
        }
    }
}

// The i-th of some numbers of 32 bits, little-endian.
pub fn number_at(bytes: &[u8], i: usize) -> u32
    requires { 4 * i + 3 < length bytes.now }
{
    let at = 4 * i;
    u32::from_le_bytes([bytes[at], bytes[at + 1], bytes[at + 2], bytes[at + 3]])
}

// A record: 19 numbers.
#[derive(Clone, Copy, PartialEq, Eq)]
pub struct Record {
    numbers: [u32; 19],
}

impl Record {
    // It ends a list.
    pub const LAST: Record = Record { numbers: [0; 19] };

    pub fn read<L: Read>(list: &mut L) -> Result<Self, ListError> {
        let mut bytes = [0u8; 76];
        list.read_exact(&mut bytes)?;
        let numbers = array::from_fn(|i| number_at(&bytes, i));
        Ok(Record { numbers })
    }

    fn number(&self, i: usize) -> u64
        requires { i < 19 }
    {
        u64::from(self.numbers[i])
    }

    pub fn kind(&self) -> Result<Kind, ListError> {
        Kind::try_from(self.numbers[0])
    }

    // How many bytes of a set, an index or counts follow.
    pub fn length(&self) -> usize {
        self.numbers[1] as usize
    }

    // How many bytes of the job, the input and the result follow, and how long output and work buffer are.
    pub fn job(&self) -> usize {
        self.numbers[2] as usize
    }

    pub fn input(&self) -> usize {
        self.numbers[3] as usize
    }

    pub fn output(&self) -> usize {
        self.numbers[4] as usize
    }

    pub fn work(&self) -> usize {
        self.numbers[5] as usize
    }

    pub fn expected(&self) -> usize {
        self.numbers[6] as usize
    }

    // The number of the refusal, 0 if there is none.
    pub fn refusal(&self) -> u32 {
        self.numbers[8]
    }

    // Whether the call was refused so. The numbers behind the place say nothing of a refusal.
    pub fn refused(&self, refusal: Refusal) -> bool {
        [self.number(8), self.number(9)] == refusal.numbers()
    }

    // What the call tells a host, in the order of the host's answer: of an opened set, of what a job needs, and of a call that corrects.
    pub fn opened(&self) -> [u64; 4] {
        [
            self.number(8),
            self.number(9),
            self.number(10),
            self.number(11),
        ]
    }

    pub fn need(&self) -> [u64; 5] {
        [
            self.number(8),
            self.number(9),
            self.number(10),
            self.number(11),
            self.number(12),
        ]
    }

    pub fn answer(&self) -> [u64; 13] {
        [
            self.number(8),
            self.number(9),
            self.number(10),
            self.number(11),
            self.number(12),
            self.number(13),
            self.number(14),
            self.number(15),
            self.number(7),
            self.number(1),
            self.number(16),
            self.number(17),
            self.number(18),
        ]
    }
}

// The next bytes of a list, no more than `most`.
pub fn read_bytes<L: Read>(
    list: &mut L,
    alloc: Global,
    count: usize,
    most: usize,
) -> Result<Vec<u8>, ListError>
    ensures { IfOk result (λ v. vec_len v ≡ count) }
{
    if most < count {
        return Err(ListError::Malformed);
    }
    let mut bytes = vec![in alloc; 0u8; count]?;
    list.read_exact(&mut bytes)?;
    Ok(bytes)
}

// Counts as they are lent.
pub fn counts_of(alloc: Global, bytes: &[u8]) -> Result<Vec<u32>, AllocError> {
    let mut counts = Vec::new(alloc);
    for count in bytes.chunks_exact(4) {
        counts.push(number_at(count, 0))?;
    }
    Ok(counts)
}
