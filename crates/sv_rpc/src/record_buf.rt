//! The records of a stream, which comes in pieces of any size.

ghost use Rattle.std.specs.Prelude.{◌≡◌, ◌≢◌, ℕ, ◌+◌, ◌-◌, ◌%◌, ◌<◌, ◌≤◌, ◌^◌, List, [], ◌∷◌, ◌++◌, length, take, drop, nat_le, vec_len, vec_capacity, IfOk};
ghost use Rattle.std.specs.Int.{w32, from_be_bytes};
ghost use Rattle.sv_rpc.specs.Limits.{capacity};
ghost use Rattle.sv_rpc.specs.Record.{header_of, ends_overlong};
ghost use Rattle.sv_rpc.specs.RecordBuf.{Records, StandsFor, IsNext, IsRoom, no_records, room_of, next_among, used_by, plain_record};
ghost use Rattle.sv_rpc.specs.Representation.{InRoom, GoesOn, Keeps, IsInHeader, IsBeforeHeader, IsInData, after_byte, after_header, after_data, finish_record};

use crate::NoMemory;
use std::alloc::{Allocator, Global};
use std::marker::Model;
use sv_bytes::{append, drop_front};
use thiserror::Error;

/// How many bytes all records in a buffer may take. Each record takes 4 bytes more than its length.
const CAPACITY: usize = 16384;
/// The most records that a buffer can hold: even an empty record takes 4 bytes.
const MAX_RECORDS: usize = CAPACITY / 4;
/// How long a record may be, in bytes.
const MAX_RECORD: usize = 8192;

/// Why the buffer returns no further record.
#[derive(Clone, Copy, Debug, Error)]
pub enum RpcFault {
    /// A fragment's header makes its record longer than a record may be. No record after this one
    /// is read.
    #[error("a record is longer than {max} bytes", max = MAX_RECORD)]
    RecordTooLong = 1,
}

/// What the next byte of the stream belongs to.
#[derive(Clone, Copy)]
enum Place {
    /// The next byte belongs to a fragment's header.
    Header,
    /// The next byte belongs to a fragment's data, of which `missing` bytes are still to come.
    /// `last` says whether the fragment is the last of its record.
    Data { missing: usize, last: bool },
    /// No more bytes are accepted, because a record was too long.
    TooLong,
}

/// The records of a stream of bytes (record marking, RFC 5531, section 11), in order. A record
/// stays in the buffer, and counts against its room, until it is dropped.
#[derive(Drop)]
pub struct RecordBuf<A: Allocator = Global> {
    /// The complete records, and after them the data of the unfinished record so far.
    bytes: Vec<u8, A>,
    /// The length of each complete record.
    lengths: Vec<u16, A>,
    /// How many data bytes of the unfinished record have come.
    payload: usize,
    /// The bytes of an unfinished header.
    header: [u8; 4],
    /// How many bytes of the unfinished header have come.
    header_len: usize,
    place: Place,
}

impl<A: Allocator> Model for RecordBuf<A> {
    ghost use Rattle.sv_rpc.specs.RecordBuf.{Records};

    ghost Value = { Records };

    ghost use Rattle.std.specs.Prelude.{take, vec_capacity};
    ghost use Rattle.sv_rpc.specs.Representation.{held_of, IsValid};

    ghost view = { λ a. held_of a.bytes.items a.lengths.items
        (take a.header_len a.header) a.place };

    ghost invariant = { λ a. IsValid a.bytes.items a.lengths.items a.header (vec_capacity a.bytes)
        (vec_capacity a.lengths) a.payload a.header_len a.place };
}

impl<A: Allocator + Copy> RecordBuf<A> {
    /// An empty buffer. All memory that the buffer ever uses is allocated here.
    ///
    /// # Errors
    /// If memory is refused.
    pub fn new(alloc: A) -> Result<RecordBuf<A>, NoMemory>
        ensures { IfOk result (λ buffer. (buffer ≡ no_records) × StandsFor buffer [] 0) }
    {
        Ok(RecordBuf {
            bytes: Vec::with_capacity(alloc, CAPACITY)?,
            lengths: Vec::with_capacity(alloc, MAX_RECORDS)?,
            payload: 0,
            header: [0; 4],
            header_len: 0,
            place: Place::Header,
        })
    }
}

impl<A: Allocator> RecordBuf<A> {
    /// How many more bytes can be pushed. The capacity is 16,384 bytes. Each complete record that
    /// wasn't dropped takes 4 bytes of it plus the record's length. The unfinished record takes 4
    /// bytes, plus its data so far, plus the bytes of an unfinished fragment header. If a record is
    /// too long, there is no room.
    pub fn room(&self) -> usize
        ensures value { result ≡ room_of self.now }
        ensures answer { (stream : List ℕ) (dropped : ℕ) → StandsFor self.now stream dropped
            → IsRoom stream dropped result }
    {
        let begun = match self.place {
            Place::Header => self.header_len,
            Place::Data { .. } => 0,
            Place::TooLong => CAPACITY,
        };
        CAPACITY.saturating_sub(4 * self.lengths.len() + self.bytes.len() + 4 + begun)
    }

    /// The first complete record that wasn't dropped, a slice of the buffer; `None` if there is no
    /// such record yet.
    ///
    /// # Errors
    /// `RecordTooLong` if the buffer has no complete record, and the next record of the stream is
    /// too long.
    pub fn next(&self) -> Result<Option<&[u8]>, RpcFault>
        ensures value { plain_record result ≡ next_among self.now.records self.now.tail }
        ensures answer { (stream : List ℕ) (dropped : ℕ) → StandsFor self.now stream dropped
            → IsNext stream dropped (plain_record result) }
    {
        if let Some(size) = self.lengths.first() {
            return Ok(Some(&self.bytes[..usize::from(*size)]));
        }
        match self.place {
            Place::Header | Place::Data { .. } => Ok(None),
            Place::TooLong => Err(RpcFault::RecordTooLong),
        }
    }

    /// Whether a record is too long, so that nothing can be pushed any more.
    pub fn is_overlong(&self) -> bool
        ensures { result ≡ ends_overlong self.now.tail }
    {
        match self.place {
            Place::Header | Place::Data { .. } => false,
            Place::TooLong => true,
        }
    }

    /// Drops the first complete record of the buffer. The buffer must have a complete record.
    pub fn drop_first(&mut self)
        requires { self.old.records ≢ [] }
        ensures value { self.new ≡ record {
          records = drop 1 self.old.records;
          tail =
              self.old.tail;
        } }
        ensures stands { (stream : List ℕ) (dropped : ℕ) → StandsFor self.old stream dropped
            → StandsFor self.new stream (dropped + 1) }
    {
        let size = usize::from(self.lengths.remove(0));
        drop_front(&mut self.bytes, size);
    }

    /// Drops everything: the buffer is like a new one.
    pub fn clear(&mut self)
        ensures value { self.new ≡ no_records }
        ensures stands { StandsFor self.new [] 0 }
    {
        self.bytes.clear();
        self.lengths.clear();
        self.payload = 0;
        self.header_len = 0;
        self.place = Place::Header;
    }

    /// Takes in the next bytes of the stream, for which there must be room. The records already in
    /// the buffer stay unchanged.
    pub fn push(&mut self, piece: &[u8])
        requires { length piece.now ≤ room_of self.old }
        ensures stands { GoesOn self.old self.new piece.now }
        ensures keeps { Keeps self.old self.new }
    {
        let mut rest = piece;
        while !rest.is_empty() {
            let count = self.take_in(rest);
            let (_, behind) = rest.split_at(count);
            rest = behind;
        }
    }

    /// Takes in one or more bytes from the front of `piece`, and returns how many it took in.
    fn take_in(&mut self, piece: &[u8]) -> usize
        requires some { 0 < length piece.now }
        requires fits { InRoom self.old (length piece.now) }
        ensures some { (0 < result) × (result ≤ length piece.now) }
        ensures fits { InRoom self.new (length piece.now - result) }
        ensures stands { GoesOn self.old self.new (take result piece.now) }
        ensures keeps { Keeps self.old self.new }
    {
        match self.place {
            Place::Header => {
                self.take_header(piece[0]);
                1
            }
            Place::Data { missing, last } => {
                let count = missing.min(piece.len());
                self.take_data(&piece[..count], missing, last);
                count
            }
            Place::TooLong => piece.len(),
        }
    }

    /// Takes in the next byte of a fragment's header.
    fn take_header(&mut self, byte: u8)
        requires header { IsInHeader self.old.tail }
        requires fits { InRoom self.old 1 }
        ensures value { self.new ≡ after_byte self.old.records self.old.tail byte }
        ensures stands { GoesOn self.old self.new (byte ∷ []) }
    {
        let mut header = self.header;
        header[self.header_len] = byte;
        if self.header_len < 3 {
            self.header = header;
            self.header_len += 1;
            return;
        }
        self.header_len = 0;
        let word = word_of(&header);
        self.open((word % (1 << 31)) as usize, word >= 1 << 31);
    }

    /// Handles a fragment's header that is complete now: the fragment has `size` bytes of data, and
    /// `last` says whether it is the last of its record.
    fn open(&mut self, size: usize, last: bool)
        requires header { IsBeforeHeader self.old.tail }
        requires size { size < 2 ^ 31 }
        requires fits { InRoom self.old 4 }
        ensures { self.new ≡ after_header self.old.records self.old.tail size last }
    {
        if self.payload + size > MAX_RECORD {
            self.place = Place::TooLong;
        } else if size > 0 {
            self.place = Place::Data {
                missing: size,
                last,
            };
        } else if last {
            self.finish();
        }
    }

    /// Takes in `piece`, which is some or all of the `missing` bytes of data that the fragment
    /// lacks. `last` says whether the fragment is the last of its record.
    fn take_data(&mut self, piece: &[u8], missing: usize, last: bool)
        requires data { IsInData self.old.tail missing last }
        requires some { length piece.now ≤ missing }
        requires fits { InRoom self.old (length piece.now) }
        ensures { self.new ≡ after_data self.old.records self.old.tail piece.now }
    {
        append(&mut self.bytes, piece);
        self.payload += piece.len();
        if piece.len() < missing {
            self.place = Place::Data {
                missing: missing - piece.len(),
                last,
            };
            return;
        }
        self.place = Place::Header;
        if last {
            self.finish();
        }
    }

    /// Adds the unfinished record, all bytes of which have come, to the complete records.
    fn finish(&mut self)
        requires header { IsBeforeHeader self.old.tail }
        requires fits { used_by self.old.records self.old.tail ≤ capacity }
        ensures { self.new ≡ finish_record self.old.records self.old.tail }
    {
        self.lengths.push_reserved(self.payload as u16);
        self.payload = 0;
    }
}

/// The four bytes of a fragment's header as a 32-bit number, the most significant byte first.
fn word_of(header: &[u8]) -> u32
    requires { length header.now ≡ 4 }
    ensures value { result ≡ from_be_bytes w32 header.now }
    ensures header { header.now ≡ header_of (nat_le (2 ^ 31) result) (result % 2 ^ 31) }
{
    u32::from_be_bytes([header[0], header[1], header[2], header[3]])
}
