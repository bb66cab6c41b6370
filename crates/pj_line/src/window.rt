// A buffer of a fixed length, and the bytes of it that are in use.
ghost use Rattle.std.specs.Prelude.{◌≡◌, ◌≤◌, length, take, slice_range, vec_len};
ghost use Rattle.pj_line.specs.FirstFeed.{IsFeedAt, first_feed};
ghost use Rattle.pj_line.specs.Lines.{HasNo};

use crate::reading::read_behind;
use memchr::memchr;
use pj_io::{Failed, Source};

// The bytes from `start` to `end` are in use. `feed` says how many of them stand in front of the first line feed.
#[derive(Drop)]
pub(crate) struct Window {
    bytes: Vec<u8>,
    start: usize,
    end: usize,
    feed: Option<usize>,
    ghost ordered: { start ≤ end },
    ghost within: { end ≤ vec_len bytes },
    ghost found: { feed ≡ first_feed (slice_range bytes.items start end) },
}

impl Window {
    ghost use Rattle.std.specs.Prelude.{◌≡◌, ◌≢◌, ◌+◌, ◌-◌, ◌<◌, ◌≤◌, ℕ, IsTrue, IfOk, OnErr, [], length, take, drop, slice_range, vec_len};
    ghost use Rattle.pj_io.specs.Causes.{HasCause};
    ghost use Rattle.pj_io.specs.Pieces.{Consumes};
    ghost use Rattle.pj_line.specs.Filled.{FillsUp};
    ghost use Rattle.pj_line.specs.FirstFeed.{IsFeedAt};
    ghost use Rattle.pj_line.specs.Held.{held};

    // A window that holds nothing, over these bytes.
    pub(crate) fn new(bytes: Vec<u8>) -> Window
        ensures bytes { result.bytes ≡ bytes }
        ensures none { held result ≡ [] }
    {
        Window {
            bytes,
            start: 0,
            end: 0,
            feed: None,
        }
    }

    // How many bytes are in use.
    pub(crate) fn len(&self) -> usize
        ensures { result ≡ length (held self.now) }
    {
        self.end - self.start
    }

    // The bytes in use.
    pub(crate) fn as_slice(&self) -> &[u8]
        ensures { result.now ≡ held self.now }
    {
        self.part(self.start, self.end)
    }

    // The bytes between two places of the buffer.
    pub(crate) fn part(&self, start: usize, end: usize) -> &[u8]
        requires ordered { start ≤ end }
        requires within { end ≤ vec_len self.now.bytes }
        ensures { result.now ≡ slice_range self.now.bytes.items start end }
    {
        let all = self.bytes.as_slice();
        &all[start..end]
    }

    // How many bytes in use stand in front of the first line feed.
    pub(crate) fn feed(&self) -> Option<usize>
        ensures { IsFeedAt (held self.now) result }
    {
        self.feed
    }

    // Lets go of so many bytes at the front, and says where they began.
    pub(crate) fn skip(&mut self, count: usize) -> usize
        requires { count ≤ length (held self.old) }
        ensures bytes { self.new.bytes ≡ self.old.bytes }
        ensures held { held self.new ≡ drop count (held self.old) }
        ensures place { result ≡ self.old.start }
        ensures part { (n : ℕ) → n ≤ count → slice_range self.new.bytes.items result (result + n) ≡ take n (held self.old) }
        ensures within { result + count ≤ vec_len self.new.bytes }
    {
        let start = self.start;
        let feed = feed_behind(self.part(start + count, self.end), None, 0);
        self.start = start + count;
        self.feed = feed;
        start
    }

    // Lets go of all.
    pub(crate) fn clear(&mut self)
        ensures bytes { self.new.bytes ≡ self.old.bytes }
        ensures none { held self.new ≡ [] }
    {
        self.start = 0;
        self.end = 0;
        self.feed = None;
    }

    // Moves what is in use to the front where there is no room behind it, or where that is nothing.
    fn make_room(&mut self)
        requires { length (held self.old) < vec_len self.old.bytes }
        ensures len { vec_len self.new.bytes ≡ vec_len self.old.bytes }
        ensures held { held self.new ≡ held self.old }
        ensures room { self.new.end < vec_len self.new.bytes }
    {
        let (start, end) = (self.start, self.end);
        if start == end || end == self.bytes.len() {
            self.bytes.copy_within(start..end, 0);
            self.start = 0;
            self.end = end - start;
        }
    }

    // Reads once behind what is in use, at most so many bytes, and says how many.
    pub(crate) fn fill<S: Source>(&mut self, source: &mut S, most: u64) -> Result<usize, Failed>
        requires most { 0 < most }
        requires room { length (held self.old) < vec_len self.old.bytes }
        ensures len { vec_len self.new.bytes ≡ vec_len self.old.bytes }
        ensures some { IfOk result (λ n. FillsUp (S.state source.old) (S.state source.new) most (held self.old) (held self.new) n) }
        ensures none { OnErr result (held self.new ≡ held self.old) }
        ensures kept { IsTrue (S.state source.old).told → OnErr result (Consumes (S.state source.old) (S.state source.new) []) }
        ensures told { (S.state source.new).told ≡ (S.state source.old).told }
        ensures name { (S.state source.new).name ≡ (S.state source.old).name }
        ensures cause { HasCause (S.state source.old).faults (S.state source.new).faults result }
    {
        self.make_room();
        let (start, end) = (self.start, self.end);
        let count = read_behind(source, self.bytes.as_mut_slice(), end, most)?;
        let held = &self.bytes.as_slice()[start..end + count];
        let feed = feed_behind(held, self.feed, end - start);
        self.end = end + count;
        self.feed = feed;
        Ok(count)
    }
}

// How many of these bytes stand in front of the first line feed; `feed` says so of the first `searched` ones.
fn feed_behind(bytes: &[u8], feed: Option<usize>, searched: usize) -> Option<usize>
    requires within { searched ≤ length bytes.now }
    requires searched { IsFeedAt (take searched bytes.now) feed }
    ensures { IsFeedAt bytes.now result }
{
    match feed {
        Some(at) => Some(at),
        None => find_behind(bytes, searched),
    }
}

// The same, where there is none among the first ones.
fn find_behind(bytes: &[u8], searched: usize) -> Option<usize>
    requires within { searched ≤ length bytes.now }
    requires searched { HasNo 10 (take searched bytes.now) }
    ensures { IsFeedAt bytes.now result }
{
    let (_, rest) = bytes.split_at(searched);
    match memchr(b'\n', rest) {
        None => None,
        Some(at) => Some(searched + at),
    }
}
