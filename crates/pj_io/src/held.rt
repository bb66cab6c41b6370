// Bytes that are held back until there are enough of them.
ghost use Rattle.std.specs.Prelude.{◌≡◌, ◌≤◌, ◌<◌, [], length, drop, vec_len, IfOk, OnOk, OnErr};
ghost use Rattle.pj_io.specs.Held.{HandsOn, HoldsBack};

use crate::Failed;
use pj_value::NoMemory;
use std::alloc::Global;
use std::io;
use std::io::{ErrorKind, Write};

/// How many bytes are held back until they are handed on.
const HELD: usize = 65536;

/// How many interruptions by signals, one right behind the other, a read or a write is tried again after.
pub const INTERRUPTIONS: usize = 1_000_000;

/// The bytes, of which so many were handed on.
#[derive(Drop)]
pub struct Held {
    pub bytes: Vec<u8>,
    pub sent: usize,
    ghost within: { sent ≤ vec_len bytes },
}

impl Held {
    /// Nothing, with its memory had at once.
    pub fn new(alloc: Global) -> Result<Held, NoMemory>
        ensures { IfOk result (λ h. drop h.sent h.bytes.items ≡ []) }
    {
        Ok(Held {
            bytes: Vec::with_capacity(alloc, HELD)?,
            sent: 0,
        })
    }

    /// Hands on all. On a fault what was not handed on is still held, and goes first the next time.
    #[tactic(auto, using(crate::proofs::Handing::hands_on_front))]
    pub fn hand_on<P: Print>(&mut self, rt: &P) -> Result<(), Failed>
        ensures none_held { OnOk result (self.new.bytes.items ≡ []) }
        ensures others_held { OnErr result (HandsOn (drop self.old.sent self.old.bytes.items) (drop self.new.sent self.new.bytes.items) []) }
    {
        while self.sent < self.bytes.len() {
            self.sent += write_some(rt, &self.bytes.as_slice()[self.sent..])?;
        }
        self.bytes.clear();
        self.sent = 0;
        Ok(())
    }

    // Hands on all, if there is no room for more.
    #[tactic(auto, using(crate::proofs::Handing::hands_on_front, crate::proofs::Handing::hands_on_all))]
    fn make_room<P: Print>(&mut self, rt: &P) -> Result<(), Failed>
        ensures room { OnOk result (vec_len self.new.bytes < HELD) }
        ensures held { HandsOn (drop self.old.sent self.old.bytes.items) (drop self.new.sent self.new.bytes.items) [] }
    {
        if self.bytes.len() < HELD {
            return Ok(());
        }
        self.hand_on(rt)
    }

    /// Holds back a front of the piece.
    #[tactic(auto, using(crate::proofs::Handing::hands_on_more))]
    pub fn hold<P: Print>(&mut self, rt: &P, piece: &[u8]) -> Result<usize, Failed>
        ensures bound { IfOk result (λ n. n ≤ length piece.now) }
        ensures progress { IfOk result (λ n. 0 < length piece.now → 0 < n) }
        ensures held { HoldsBack (drop self.old.sent self.old.bytes.items) (drop self.new.sent self.new.bytes.items) piece.now result }
    {
        self.make_room(rt)?;
        let count = piece.len().min(HELD - self.bytes.len());
        match self.bytes.extend_from_slice(&piece[..count]) {
            Ok(()) => Ok(count),
            Err(_) => Err(Failed),
        }
    }
}

// Writes a front of the bytes, at least one of them; again where a signal interrupts that. A write of none is a fault.
fn write_some<P: Print>(rt: &P, bytes: &[u8]) -> Result<usize, Failed>
    ensures bound { IfOk result (λ n. n ≤ length bytes.now) }
    ensures progress { IfOk result (λ n. 0 < n) }
{
    for _ in 0..INTERRUPTIONS {
        match io::writer(rt).write(bytes) {
            Ok(count) => {
                if count > 0 {
                    return Ok(count)
                } else {
                    return Err(Failed)
                }
            }
            Err(error) => {
                if error.kind() != ErrorKind::Interrupted {
                    return Err(Failed);
                }
            }
        }
    }
    Err(Failed)
}
