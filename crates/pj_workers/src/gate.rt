// What workers pass before their steps, and where they rest between rounds. No clause speaks of either.
use pj_events::Look;
use std::sync::Wait;

/// What a worker does.
#[derive(Clone, Copy, Debug, PartialEq, Eq)]
pub enum Role {
    Feeder,
    Prober,
    Sweeper,
    Writer,
}

/// What each worker passes before each of its steps.
pub trait Gate: Sync {
    /// A feeder passes before each arrival, a prober before each take, a sweeper before each sweep, the writer before each drain.
    /// `index` is the worker's place among those of its role; `nth` counts its earlier passes and stops at the greatest number.
    fn pass(&self, role: Role, index: u32, nth: u64);
}

/// A gate that lets each worker pass.
#[derive(Clone, Copy, Debug)]
pub struct OpenGate;

impl Gate for OpenGate {
    fn pass(&self, _role: Role, _index: u32, _nth: u64) {}
}

/// Where workers wait for one another. It gets no seat, so that what it does makes no entry.
pub trait Pause: Sync {
    /// Before the first round of a worker.
    fn begin<R: Wait>(&self, rt: &R, role: Role, index: u32);

    /// Between two rounds; the look is that of the round before.
    fn pause<R: Wait>(&self, rt: &R, role: Role, index: u32, look: &Look);

    /// Before a feeder reads on in its file, which may wait.
    fn before_read<R: Wait>(&self, rt: &R, index: u32);

    /// Once it has read.
    fn after_read<R: Wait>(&self, rt: &R, index: u32);

    /// Once a worker has ended.
    fn end<R: Wait>(&self, rt: &R, role: Role, index: u32);
}

/// A worker goes on at once.
#[derive(Clone, Copy, Debug)]
pub struct NoPause;

impl Pause for NoPause {
    fn begin<R: Wait>(&self, _rt: &R, _role: Role, _index: u32) {}

    fn pause<R: Wait>(&self, _rt: &R, _role: Role, _index: u32, _look: &Look) {}

    fn before_read<R: Wait>(&self, _rt: &R, _index: u32) {}

    fn after_read<R: Wait>(&self, _rt: &R, _index: u32) {}

    fn end<R: Wait>(&self, _rt: &R, _role: Role, _index: u32) {}
}
