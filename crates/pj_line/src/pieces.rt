// What a buffer of lines keeps.
ghost use Rattle.std.specs.Prelude.{◌≤◌, ◌<◌, vec_len};

use crate::buffer::LineStop;
use crate::held::holds_piece;
use crate::window::Window;
use pj_io::Source;
use pj_value::NoMemory;
use std::alloc::Global;

// How many bytes there is room for behind the longest piece, so that reads are large.
const READ: usize = 65_536;

// The longest piece and the most bytes that are taken; how many were; whether the end was read; and the stop that was answered.
#[derive(Drop)]
pub(crate) struct PieceBuf {
    pub(crate) window: Window,
    size: u32,
    limit: u64,
    count: u64,
    ended: bool,
    stopped: Option<LineStop>,
    ghost roomy: { size < vec_len window.bytes },
    ghost counts: { count ≤ limit },
}

// What a search found, and where in the buffer it stands.
#[derive(Clone, Copy)]
pub(crate) enum FoundPiece {
    Piece { start: usize, end: usize },
    LongPiece,
    NoPiece,
}

impl PieceBuf {
    ghost use Rattle.std.specs.Prelude.{◌≡◌, ◌≤◌, ◌<◌, ◌+◌, ◌^◌, [], false, None, IsTrue, IfOk, IfSome, length, take, drop};
    ghost use Rattle.pj_line.specs.Buffers.{fresh, line_is_held, KnowsEnd};
    ghost use Rattle.pj_line.specs.Searches.{buffered, Finds, FindsLine, IsTaken, PassesOver, ReadsOn, StandsIn};
    ghost use Rattle.pj_line.specs.Held.{held};

    // A buffer that has taken nothing.
    pub(crate) fn new(alloc: Global, size: u32, limit: u64) -> Result<PieceBuf, NoMemory>
        requires { size ≤ 2 ^ 20 }
        ensures { IfOk result (λ buffer. buffered buffer ≡ fresh size limit) }
    {
        let bytes = vec![in alloc; 0u8; size as usize + READ]?;
        Ok(PieceBuf {
            window: Window::new(bytes),
            size,
            limit,
            count: 0,
            ended: false,
            stopped: None,
        })
    }

    // Whether a stop was answered, the end was read, or a line that is not skipped is held up to its line feed.
    #[inline(always)]
    pub(crate) fn holds_line(&self) -> bool
        ensures { result ≡ line_is_held (buffered self.now) }
    {
        self.stopped.is_some()
            || self.ended
            || holds_piece(self.window.as_slice(), self.window.feed(), self.size)
    }

    // The next piece, or the stop that came before.
    pub(crate) fn advance<S: Source>(&mut self, source: &mut S) -> Result<FoundPiece, LineStop>
        requires { KnowsEnd (buffered self.old) (S.state source.old) }
        ensures called { FindsLine self.old self.new result (S.state source.old) (S.state source.new) }
        ensures places { IfOk result (λ found. StandsIn found self.new.window.bytes.items) }
        ensures told { (S.state source.new).told ≡ (S.state source.old).told }
        ensures name { (S.state source.new).name ≡ (S.state source.old).name }
        ensures later { (S.state source.old).faults ≤ (S.state source.new).faults }
    {
        match self.stopped {
            Some(stop) => Err(stop),
            None => self.search(source),
        }
    }

    // The next piece of a buffer that has not stopped.
    fn search<S: Source>(&mut self, source: &mut S) -> Result<FoundPiece, LineStop>
        requires goes_on { self.old.stopped ≡ None }
        requires ended { KnowsEnd (buffered self.old) (S.state source.old) }
        ensures called { FindsLine self.old self.new result (S.state source.old) (S.state source.new) }
        ensures places { IfOk result (λ found. StandsIn found self.new.window.bytes.items) }
        ensures told { (S.state source.new).told ≡ (S.state source.old).told }
        ensures name { (S.state source.new).name ≡ (S.state source.old).name }
        ensures later { (S.state source.old).faults ≤ (S.state source.new).faults }
    {
        let mut too_long = false;
        loop {
            match self.find_held(too_long) {
                Some(found) => return Ok(found),
                None => {}
            }
            too_long = self.pass_over(too_long);
            self.read_on(source)?;
        }
    }

    // Takes the next piece out of what is held, if its end is there; bytes of the same piece may have been passed over.
    fn find_held(&mut self, too_long: bool) -> Option<FoundPiece>
        ensures finds { Finds (buffered self.old) too_long (buffered self.new) self.new.window.bytes.items result }
        ensures same { buffered self.new ≡ record (buffered self.old) { held = held self.new.window } }
        ensures places { IfSome result (λ found. StandsIn found self.new.window.bytes.items) }
    {
        match self.window.feed() {
            Some(len) => Some(self.take_piece(len, 1, too_long)),
            None => {
                if !self.ended {
                    return None;
                }
                let len = self.window.len();
                if len == 0 && !too_long {
                    return Some(FoundPiece::NoPiece);
                }
                Some(self.take_piece(len, 0, too_long))
            }
        }
    }

    // Takes a piece of so many bytes off the front, with so many bytes behind it.
    fn take_piece(&mut self, len: usize, behind: usize, too_long: bool) -> FoundPiece
        requires { len + behind ≤ length (held self.old.window) }
        ensures held { held self.new.window ≡ drop (len + behind) (held self.old.window) }
        ensures same { buffered self.new ≡ record (buffered self.old) { held = held self.new.window } }
        ensures found { IsTaken self.old.size (take len (held self.old.window)) too_long self.new.window.bytes.items result }
        ensures places { StandsIn result self.new.window.bytes.items }
    {
        let start = self.window.skip(len + behind);
        if too_long || len > self.size as usize {
            FoundPiece::LongPiece
        } else {
            FoundPiece::Piece {
                start,
                end: start + len,
            }
        }
    }

    // Lets go of what is held where its piece is too long, and says whether it is.
    fn pass_over(&mut self, too_long: bool) -> bool
        ensures passes { PassesOver self.old.size (held self.old.window) too_long (held self.new.window) result }
        ensures same { buffered self.new ≡ record (buffered self.old) { held = held self.new.window } }
    {
        if too_long || self.window.len() > self.size as usize {
            self.window.clear();
            return true;
        }
        false
    }

    // Reads once behind what is held.
    fn read_on<S: Source>(&mut self, source: &mut S) -> Result<(), LineStop>
        requires room { length (held self.old.window) ≤ self.old.size }
        requires ended { self.old.ended ≡ false }
        ensures reads { ReadsOn (buffered self.old) (buffered self.new) result (S.state source.old) (S.state source.new) }
        ensures told { (S.state source.new).told ≡ (S.state source.old).told }
        ensures name { (S.state source.new).name ≡ (S.state source.old).name }
        ensures later { (S.state source.old).faults ≤ (S.state source.new).faults }
    {
        if self.count == self.limit {
            self.stopped = Some(LineStop::ByteLimit);
            return Err(LineStop::ByteLimit);
        }
        let most = self.limit - self.count;
        match self.window.fill(source, most) {
            Ok(count) => {
                self.count += count as u64;
                self.ended = count == 0;
                Ok(())
            }
            Err(_) => {
                self.stopped = Some(LineStop::Fault);
                Err(LineStop::Fault)
            }
        }
    }
}
