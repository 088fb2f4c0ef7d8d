//! A sink with a buffer before it.

ghost use Rattle.std.specs.Prelude.{◌≡◌, ◌<◌, ◌≤◌, ◌+◌, ◌*◌, ◌%◌, ℕ, [], length, take, drop, replicate, OnOk};
ghost use Rattle.std.specs.List.{concat};
ghost use Rattle.ncc_values.specs.Failures.{Counts};
ghost use Rattle.ncc_values.specs.Values.{bytes_of, count_of, type_of};
ghost use Rattle.ncc_values.specs.XType.{size_of};
ghost use Rattle.ncc_write.specs.Streams.{Streams};

use crate::putting::{copy_at, fill_at, put_at};
use ncc_schema::{Device, Sink, write_all};
use ncc_values::Values;

/// The bytes that go out at once.
const PAGE: usize = 65_536;

/// The buffer: a page, and room for a value that ends past it.
pub(crate) const BUFFER: usize = 65_544;

/// A sink with a buffer before it, which goes out where what went out is then a multiple of 65,536 bytes.
#[derive(Drop)]
pub(crate) struct PagedSink<W> {
    sink: W,
    buffer: Vec<u8>,
    filled: usize,
    full: usize,
    ghost room: { length buffer.items ≡ 65544 },
    ghost waits: { filled < full },
    ghost page: { full ≤ 65536 },
}

impl<W: Sink> PagedSink<W> {
    ghost use Rattle.ncc_write.specs.PagedSink.{Paged, sink_of, waiting};

    /// Over a sink to which so many bytes went out. The buffer has 65,544 bytes.
    pub(crate) fn over(sink: W, buffer: Vec<u8>, sent: u64) -> PagedSink<W>
        requires { length buffer.items ≡ 65544 }
        ensures sink { sink_of result ≡ sink }
        ensures waiting { waiting result ≡ [] }
        ensures pages { Paged sent sent result }
    {
        PagedSink {
            sink,
            buffer,
            filled: 0,
            full: PAGE - (sent % PAGE as u64) as usize,
        }
    }

    /// Puts out the page, and has what ends past it wait.
    #[inline(never)]
    fn put_page(&mut self, end: usize) -> Result<(), Device>
        requires { (self.old.full ≤ end) × (end < self.old.full + 8) }
        ensures streams { Streams (W.put (sink_of self.old)) (W.put (sink_of self.new))
            (take end self.old.buffer.items) (waiting self.new) [] result }
        ensures pages { (first n m : ℕ) → Paged first n self.old → self.old.filled + m ≡ end
            → OnOk result (Paged first (n + m) self.new) }
        ensures count { Counts (W.failures (sink_of self.old)) (W.failures (sink_of self.new)) result }
    {
        write_all(&mut self.sink, &self.buffer[..self.full])?;
        self.buffer.copy_within(self.full..end, 0);
        self.filled = end - self.full;
        self.full = PAGE;
        Ok(())
    }

    /// Has the first `end` bytes of the buffer wait, or go out where they fill it.
    #[inline(always)]
    fn hold(&mut self, end: usize) -> Result<(), Device>
        requires { end < self.old.full + 8 }
        ensures streams { Streams (W.put (sink_of self.old)) (W.put (sink_of self.new))
            (take end self.old.buffer.items) (waiting self.new) [] result }
        ensures pages { (first n m : ℕ) → Paged first n self.old → self.old.filled + m ≡ end
            → OnOk result (Paged first (n + m) self.new) }
        ensures count { Counts (W.failures (sink_of self.old)) (W.failures (sink_of self.new)) result }
    {
        if end < self.full {
            self.filled = end;
            return Ok(());
        }
        self.put_page(end)
    }

    /// Puts the values from `first` on after what waits: `count` of them, which end at most a value past a page.
    fn put_values_from(&mut self, values: &Values, first: usize, count: usize) -> Result<(), Device>
        requires there { first + count ≤ count_of values.now }
        requires near { self.old.filled + count * size_of (type_of values.now) < self.old.full + 8 }
        ensures streams { Streams (W.put (sink_of self.old)) (W.put (sink_of self.new))
            (waiting self.old) (waiting self.new)
            (take (count * size_of (type_of values.now))
            (drop (first * size_of (type_of values.now)) (bytes_of values.now))) result }
        ensures pages { (front n : ℕ) → Paged front n self.old
            → OnOk result (Paged front (n + count * size_of (type_of values.now)) self.new) }
        ensures count { Counts (W.failures (sink_of self.old)) (W.failures (sink_of self.new)) result }
    {
        let end = put_at(&mut self.buffer, self.filled, values, first, count);
        self.hold(end)
    }

    /// How many values of this size fill a page: the last one ends with it, or is the only one that ends past it.
    fn room_for(&self, size: usize) -> usize
        requires { 0 < size }
        ensures some { 0 < result }
        ensures whole { self.now.full ≤ self.now.filled + result * size }
        ensures near { self.now.filled + result * size < self.now.full + size }
    {
        (self.full - self.filled - 1) / size + 1
    }

    /// Puts all values after what waits.
    pub(crate) fn put_values(&mut self, values: &Values) -> Result<(), Device>
        ensures streams { Streams (W.put (sink_of self.old)) (W.put (sink_of self.new))
            (waiting self.old) (waiting self.new)
            (bytes_of values.now) result }
        ensures pages { (first n : ℕ) → Paged first n self.old
            → OnOk result (Paged first (n + length (bytes_of values.now)) self.new) }
        ensures count { Counts (W.failures (sink_of self.old)) (W.failures (sink_of self.new)) result }
    {
        let size = values.xtype().size();
        let mut done = 0;
        while done < values.len() {
            let count = self.room_for(size).min(values.len() - done);
            self.put_values_from(values, done, count)?;
            done += count;
        }
        Ok(())
    }

    /// Puts bytes after what waits, which end at most where the page does.
    #[inline(always)]
    fn put_piece(&mut self, piece: &[u8]) -> Result<(), Device>
        requires { self.old.filled + length piece.now ≤ self.old.full }
        ensures streams { Streams (W.put (sink_of self.old)) (W.put (sink_of self.new))
            (waiting self.old) (waiting self.new) piece.now result }
        ensures pages { (first n : ℕ) → Paged first n self.old
            → OnOk result (Paged first (n + length piece.now) self.new) }
        ensures count { Counts (W.failures (sink_of self.old)) (W.failures (sink_of self.new)) result }
    {
        let end = self.filled + piece.len();
        copy_at(&mut self.buffer, self.filled, piece);
        self.hold(end)
    }

    /// Puts all of these bytes after what waits, piece by piece.
    #[inline(never)]
    fn put_pieces(&mut self, bytes: &[u8]) -> Result<(), Device>
        ensures streams { Streams (W.put (sink_of self.old)) (W.put (sink_of self.new))
            (waiting self.old) (waiting self.new) bytes.now result }
        ensures pages { (first n : ℕ) → Paged first n self.old
            → OnOk result (Paged first (n + length bytes.now) self.new) }
        ensures count { Counts (W.failures (sink_of self.old)) (W.failures (sink_of self.new)) result }
    {
        let mut done = 0;
        while done < bytes.len() {
            let more = (self.full - self.filled).min(bytes.len() - done);
            self.put_piece(&bytes[done..done + more])?;
            done += more;
        }
        Ok(())
    }

    /// Puts all of these bytes after what waits: a value, most often, by a few instructions.
    #[inline(always)]
    pub(crate) fn put_bytes(&mut self, bytes: &[u8]) -> Result<(), Device>
        ensures streams { Streams (W.put (sink_of self.old)) (W.put (sink_of self.new))
            (waiting self.old) (waiting self.new) bytes.now result }
        ensures pages { (first n : ℕ) → Paged first n self.old
            → OnOk result (Paged first (n + length bytes.now) self.new) }
        ensures count { Counts (W.failures (sink_of self.old)) (W.failures (sink_of self.new)) result }
    {
        if bytes.len() <= self.full - self.filled {
            return self.put_piece(bytes);
        }
        self.put_pieces(bytes)
    }

    /// Puts the bytes of a fill value after what waits, `count` times, so that they end at most one past a page.
    #[inline(always)]
    fn fill_some(&mut self, fill: &[u8], count: usize) -> Result<(), Device>
        requires { self.old.filled + count * length fill.now < self.old.full + 8 }
        ensures streams { Streams (W.put (sink_of self.old)) (W.put (sink_of self.new))
            (waiting self.old) (waiting self.new)
            (concat (replicate count fill.now)) result }
        ensures pages { (first n : ℕ) → Paged first n self.old
            → OnOk result (Paged first (n + count * length fill.now) self.new) }
        ensures count { Counts (W.failures (sink_of self.old)) (W.failures (sink_of self.new)) result }
    {
        let end = fill_at(&mut self.buffer, self.filled, fill, count);
        self.hold(end)
    }

    /// Puts the bytes of a fill value after what waits, `count` times, page by page.
    #[inline(never)]
    fn put_many(&mut self, fill: &[u8], count: u64) -> Result<(), Device>
        requires some { 0 < length fill.now }
        requires short { length fill.now ≤ 8 }
        ensures streams { Streams (W.put (sink_of self.old)) (W.put (sink_of self.new))
            (waiting self.old) (waiting self.new)
            (concat (replicate count fill.now)) result }
        ensures pages { (first n : ℕ) → Paged first n self.old
            → OnOk result (Paged first (n + length (concat (replicate count fill.now))) self.new) }
        ensures count { Counts (W.failures (sink_of self.old)) (W.failures (sink_of self.new)) result }
    {
        let mut left = count;
        while left > 0 {
            let room = self.room_for(fill.len());
            let more = left.min(room as u64) as usize;
            self.fill_some(fill, more)?;
            left -= more as u64;
        }
        Ok(())
    }

    /// Puts the bytes of a fill value after what waits, `count` times: few, most often, or none as padding.
    #[inline(always)]
    pub(crate) fn put_fills(&mut self, fill: &[u8], count: u64) -> Result<(), Device>
        requires some { 0 < length fill.now }
        requires short { length fill.now ≤ 8 }
        ensures streams { Streams (W.put (sink_of self.old)) (W.put (sink_of self.new))
            (waiting self.old) (waiting self.new)
            (concat (replicate count fill.now)) result }
        ensures pages { (first n : ℕ) → Paged first n self.old
            → OnOk result (Paged first (n + length (concat (replicate count fill.now))) self.new) }
        ensures count { Counts (W.failures (sink_of self.old)) (W.failures (sink_of self.new)) result }
    {
        if count == 0 {
            return Ok(());
        }
        // No more than these, of 8 bytes each, end within a page.
        if count <= 8_192 && count as usize * fill.len() <= self.full - self.filled {
            return self.fill_some(fill, count as usize);
        }
        self.put_many(fill, count)
    }

    /// Puts out all that waits.
    pub(crate) fn flush(&mut self) -> Result<(), Device>
        ensures streams { Streams (W.put (sink_of self.old)) (W.put (sink_of self.new))
            (waiting self.old) (waiting self.new)
            [] result }
        ensures empty { OnOk result (waiting self.new ≡ []) }
        ensures count { Counts (W.failures (sink_of self.old)) (W.failures (sink_of self.new)) result }
    {
        write_all(&mut self.sink, &self.buffer[..self.filled])?;
        self.full -= self.filled;
        self.filled = 0;
        Ok(())
    }

    pub(crate) fn into_sink(self) -> W
        ensures { result ≡ sink_of self }
    {
        self.sink
    }
}
