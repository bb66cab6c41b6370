// Probes that are held, in order of join and ticket.
ghost use Rattle.std.specs.Prelude.{◌≡◌, false, [], IfOk, OnErr, OnOk};
ghost use Rattle.pj_hand.specs.Held.{IsDrawn, first_place, found_at, put_in, without};

use pj_core::{Found, Probe};
use pj_value::NoMemory;
use std::alloc::Global;
use std::collections::BTreeMap;
use std::marker::Model;

/// Probes that are held, by their joins and tickets.
///
/// A probe is taken before its place is known, so memory for the place can be wanting only once there is no way back. Such a probe
/// waits, and comes to its place before anything else is done.
#[derive(Drop)]
pub(crate) struct HeldProbes {
    placed: BTreeMap<(u32, u64), Probe>,
    waiting: Option<Probe>,
}

impl Model for HeldProbes {
    ghost use Rattle.std.specs.Prelude.{is_some};
    ghost use Rattle.std.specs.Map.{values_of};
    ghost use Rattle.pj_hand.specs.Held.{AreKeyed, HeldView, held_in};

    ghost Value = { HeldView };

    ghost view = { λ h. record { probes = held_in (values_of h.placed.entries) h.waiting; waits = is_some h.waiting } };

    ghost invariant = { λ h. AreKeyed h.placed.entries };
}

impl HeldProbes {
    // No probe is held.
    pub(crate) fn new(alloc: Global) -> HeldProbes
        ensures { result.probes ≡ [] }
    {
        HeldProbes {
            placed: BTreeMap::new(alloc),
            waiting: None,
        }
    }

    // Brings the probe that waits, if any, to its place.
    pub(crate) fn make_room(&mut self) -> Result<(), NoMemory>
        ensures same { self.new.probes ≡ self.old.probes }
        ensures ok { OnOk result (self.new.waits ≡ false) }
    {
        match self.waiting.take() {
            None => Ok(()),
            Some(probe) => {
                self.hold(probe);
                if self.waiting.is_none() {
                    Ok(())
                } else {
                    Err(NoMemory)
                }
            }
        }
    }

    // Puts the probe to its place; it waits where there is no memory for that.
    pub(crate) fn hold(&mut self, probe: Probe)
        requires { self.old.waits ≡ false }
        ensures { self.new.probes ≡ put_in probe self.old.probes }
    {
        let place = (probe.join(), probe.ticket());
        match self.placed.insert(place, probe) {
            Ok(_) => {}
            Err(failed) => self.waiting = Some(failed.value.1),
        }
    }

    // The place of the first probe.
    pub(crate) fn first(&mut self) -> Result<Option<(u32, u64)>, NoMemory>
        ensures same { self.new.probes ≡ self.old.probes }
        ensures ok { IfOk result (λ first. first ≡ first_place self.old.probes) }
    {
        match self.make_room() {
            Ok(()) => Ok(self.first_placed()),
            Err(NoMemory) => Err(NoMemory),
        }
    }

    // Works on the probe of this ticket of this join, where it is held, and takes it out with what its work found.
    pub(crate) fn draw(
        &mut self,
        alloc: Global,
        join: u32,
        ticket: u64,
    ) -> Result<Option<(Probe, Found)>, NoMemory>
        ensures ok { IfOk result (λ drawn. IsDrawn drawn self.old.probes join ticket self.new.probes) }
        ensures err { OnErr result (self.new.probes ≡ self.old.probes) }
    {
        match self.make_room() {
            Ok(()) => match self.work_at(alloc, join, ticket) {
                Ok(None) => Ok(None),
                Ok(Some(found)) => match self.take_out(join, ticket) {
                    None => unreachable!(),
                    Some(probe) => Ok(Some((probe, found))),
                },
                Err(NoMemory) => Err(NoMemory),
            },
            Err(NoMemory) => Err(NoMemory),
        }
    }

    fn first_placed(&self) -> Option<(u32, u64)>
        requires { self.now.waits ≡ false }
        ensures { result ≡ first_place self.now.probes }
    {
        match self.placed.first_key_value() {
            None => None,
            Some((place, _)) => Some(*place),
        }
    }

    fn work_at(&self, alloc: Global, join: u32, ticket: u64) -> Result<Option<Found>, NoMemory>
        requires { self.now.waits ≡ false }
        ensures { IfOk result (λ found. found ≡ found_at self.now.probes join ticket) }
    {
        match self.placed.get(&(join, ticket)) {
            None => Ok(None),
            Some(probe) => match probe.work(alloc) {
                Ok(found) => Ok(Some(found)),
                Err(NoMemory) => Err(NoMemory),
            },
        }
    }

    fn take_out(&mut self, join: u32, ticket: u64) -> Option<Probe>
        requires { self.old.waits ≡ false }
        ensures value { result ≡ found_at self.old.probes join ticket }
        ensures left { self.new.probes ≡ without self.old.probes join ticket }
    {
        self.placed.remove(&(join, ticket))
    }
}
