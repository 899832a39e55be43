//! The text of a replay, read in pieces.

ghost use Rattle.std.specs.Prelude.{◌≡◌, ◌+◌, ◌-◌, ◌<◌, ◌≤◌, length, take, drop, slice_range, IfOk, OnOk, OnErr, IsErr, List};
ghost use Rattle.sv_replay.specs.Reads.{Gave, Made, IsReadOn};
ghost use Rattle.sv_replay.specs.Text.{Filled, IsBehind, first_end, nothing_held};

use crate::input::{InputFault, Source};
use memchr::memchr;
use std::alloc::{AllocError, Allocator, Global};
use std::marker::Model;

/// How many bytes a line may have, without its new line.
pub const LONGEST_LINE: usize = 65_536;
/// The size of the buffer in bytes: room for a line with its new line, and for the text that is
/// read after it.
const SIZE: usize = 131_072;
/// How many times a reader may be read. A further attempt to read is an input fault.
const MOST_READS: u32 = 4_294_967_294;

/// Text that was read and isn't used yet.
#[derive(Drop)]
pub struct Text<A: Allocator = Global> {
    /// The buffer, at its full length.
    buffer: Vec<u8, A>,
    /// Where the text begins.
    start: usize,
    /// The text has no new line before this position.
    clean: usize,
    /// Where the text ends.
    end: usize,
    /// How many times the reader was read.
    reads: u32,
}

impl<A: Allocator> Model for Text<A> {
    ghost use Rattle.sv_replay.specs.Text.{Held};

    ghost Value = { Held };

    ghost use Rattle.sv_replay.specs.Text.{held_of, IsKept};

    ghost view = { λ a. held_of a.buffer.items a.start a.end a.reads };

    ghost invariant = { λ a. IsKept a.buffer.items a.start a.clean a.end a.reads };
}

impl<A: Allocator> Text<A> {
    /// Makes a buffer without text. Allocates all the memory that the buffer ever uses.
    pub fn new(alloc: A) -> Result<Text<A>, AllocError>
        ensures { IfOk result (λ text. text ≡ nothing_held) }
    {
        Ok(Text::over(vec![in alloc; 0; SIZE]?))
    }

    /// Makes an empty text over a buffer, which already has its full length.
    fn over(buffer: Vec<u8, A>) -> Text<A>
        requires { length buffer.items ≡ 131072 }
        ensures { result ≡ nothing_held }
    {
        Text {
            buffer,
            start: 0,
            clean: 0,
            end: 0,
            reads: 0,
        }
    }

    /// How many bytes the text has.
    pub fn len(&self) -> usize
        ensures { result ≡ length self.now.text }
    {
        self.end - self.start
    }

    /// The length of the first line, without its new line; `None` if that new line hasn't been read
    /// yet.
    pub fn whole_line(&mut self) -> Option<usize>
        ensures same { self.new ≡ self.old }
        ensures value { result ≡ first_end self.old.text }
    {
        match memchr(b'\n', &self.buffer[self.clean..self.end]) {
            Some(at) => {
                self.clean += at;
                Some(self.clean - self.start)
            }
            None => {
                self.clean = self.end;
                None
            }
        }
    }

    /// The first `len` bytes of the text.
    pub fn front(&self, len: usize) -> &[u8]
        requires { len ≤ length self.now.text }
        ensures { result.now ≡ take len self.now.text }
    {
        &self.buffer[self.start..self.start + len]
    }

    /// Drops the first `len` bytes of the text, which the caller has used.
    pub fn drop_front(&mut self, len: usize)
        requires { len ≤ length self.old.text }
        ensures { self.new ≡ record { text = drop len self.old.text; reads = self.old.reads } }
    {
        self.start += len;
        self.clean = self.clean.max(self.start);
    }

    /// Makes one read, and appends its bytes to the text. Returns false at the reader's end, else
    /// true. A read that a signal interrupts gives no bytes, and the result is true. If fewer than
    /// 65,536 bytes of the buffer are free after the text, the text is first moved to the front.
    pub fn fill<R: Source>(&mut self, reader: &mut R) -> Result<bool, InputFault>
        requires { length self.old.text ≤ 65536 }
        ensures took { Filled (R.remaining reader.old)
            (R.remaining reader.new) self.old.text self.new.text result }
        ensures counted { OnOk result (self.new.reads ≡ self.old.reads + 1) }
        ensures heard { (first : R) (reads : List Gave)
            → Made R.gives first reads reader.old → length reads ≡ self.old.reads
            → IsReadOn R.gives first reader.new self.new.reads result }
        ensures limit { 4294967294 ≤ self.old.reads → IsErr result }
        ensures within { length self.new.text ≤ 131072 }
    {
        if self.reads >= MOST_READS {
            return Err(InputFault);
        }
        let moved = make_room(&mut self.buffer, self.start, self.end);
        self.start -= moved;
        self.clean -= moved;
        self.end -= moved;
        let came = read_behind(reader, &mut self.buffer, self.end)?;
        self.reads += 1;
        match came {
            Some(count) => {
                self.end += count;
                Ok(true)
            }
            None => Ok(false),
        }
    }
}

/// If fewer than 65,536 bytes of a buffer are free after its used part (`start` to `end`), moves
/// this part to the front. Returns by how many bytes the part was moved.
fn make_room(buffer: &mut [u8], start: usize, end: usize) -> usize
    requires order { (start ≤ end) × (end ≤ 131072) }
    requires size { length buffer.old ≡ 131072 }
    ensures within { result ≤ start }
    ensures moved { slice_range buffer.new (start - result) (end - result)
        ≡ slice_range buffer.old start end }
    ensures room { end - start ≤ 65536 → end - result ≤ 65536 }
{
    if SIZE - end >= LONGEST_LINE {
        return 0;
    }
    buffer.copy_within(start..end, 0);
    start
}

/// Makes one read, into the part of a buffer that begins at `at`. Returns how many bytes came;
/// `None` at the reader's end.
fn read_behind<R: Source>(
    reader: &mut R,
    buffer: &mut [u8],
    at: usize,
) -> Result<Option<usize>, InputFault>
    requires { at < length buffer.old }
    ensures front { take at buffer.new ≡ take at buffer.old }
    ensures came { IsBehind (R.remaining reader.old) (R.remaining reader.new)
        (drop at buffer.new) result }
    ensures heard { R.gives reader.old result reader.new }
{
    reader.give(&mut buffer[at..])
}
