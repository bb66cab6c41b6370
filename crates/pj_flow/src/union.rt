// Unions.
ghost use Rattle.std.specs.Prelude.{◌≡◌, ◌<◌, ◌+◌, ◌++◌, ◌||◌, ◌==◌, ◌&&◌, [], All, not, filter, false, map, length, OnOk, OnErr, IfOk, IfSome};
ghost use Rattle.pj_value.specs.Texts.{IsFront};
ghost use Rattle.pj_events.specs.Operators.{all_sent_from, union_after, union_hands};
ghost use Rattle.pj_flow.specs.Unions.{start, puncts};
ghost use Rattle.pj_flow.specs.Insides.{AreAsked, IsAsked, has_covering, is_ready, patterns_at, with_newest};
ghost use Rattle.pj_flow.specs.Stored.{AreStored, FitsNewest, IsSampleOf, older};

use crate::heard::Heard;
use crate::sample::{Sample, sample_of};
use crate::stores::{file, fill, looked_up};
use pj_pattern::{Element, Punct};
use pj_puncts::PunctStore;
use pj_value::{List, NoMemory};
use std::alloc::Global;
use std::marker::Model;

/// The union of some inputs of equal columns, which hands up each tuple as it comes. It keeps the punctuations that came, by
/// their order and in a store for each input, and the places of those that wait for the other inputs. A contract sees how
/// many inputs and columns it has, and both lists.
#[derive(Drop)]
pub struct Union {
    alloc: Global,
    inputs: u32,
    arity: u32,
    stores: Vec<PunctStore>,
    came: List<Heard>,
    waiting: Vec<usize>,
}

impl Model for Union {
    ghost use Rattle.pj_flow.specs.Unions.{UnionView};
    ghost use Rattle.pj_flow.specs.Insides.{seen, AreHeld};
    ghost use Rattle.pj_flow.specs.Stored.{AreStored};

    ghost Value = { UnionView };

    ghost view = { λ u. seen u.inputs u.arity u.came u.waiting.items };

    ghost invariant = { λ u. AreHeld u.inputs u.came u.waiting.items × AreStored u.arity u.came 0 u.stores.items };
}

impl Union {
    /// A union of so many inputs of so many columns, to which nothing has come. It takes no memory yet.
    pub fn new(alloc: Global, inputs: u32, arity: u32) -> Union
        ensures { result ≡ record { inputs = inputs; arity = arity; state = start } }
    {
        Union {
            alloc,
            inputs,
            arity,
            stores: Vec::new(alloc),
            came: List::new(alloc),
            waiting: Vec::new(alloc),
        }
    }

    /// Takes a punctuation of an input, and puts at the end of `out` those that no input holds back any more, in the order in
    /// which they came. A punctuation is held back until every other input has sent one that covers it. On a refusal the union
    /// and `out` are as before.
    #[tactic(auto, using(crate::proofs::Holding::go_seen))]
    pub fn punct(&mut self, input: u32, punct: Punct, out: &mut List<Punct>) -> Result<(), NoMemory>
        requires fits { (input < self.old.inputs) × (length punct ≡ self.old.arity) }
        ensures keeps { OnOk result (self.new ≡ record self.old { state = union_after self.old.inputs self.old.state input (Element.Punct punct) }) }
        ensures hands { OnOk result (puncts out.new ≡ puncts out.old ++ union_hands self.old.inputs self.old.state input (Element.Punct punct)) }
        ensures refused { OnErr result ((self.new ≡ self.old) × (out.new ≡ out.old)) }
    {
        let count = self.came.len();
        let handed = out.len();
        fill(
            self.alloc,
            self.arity,
            self.inputs,
            self.came.as_slice(),
            &mut self.stores,
        )?;
        self.came.push(Heard::new(input, punct))?;
        match taken(
            self.alloc,
            self.arity,
            self.inputs,
            &mut self.stores,
            self.came.as_slice(),
            self.waiting.as_slice(),
            out,
        ) {
            Ok(waiting) => {
                self.waiting = waiting;
                Ok(())
            }
            Err(stop) => {
                self.came.truncate(count);
                out.truncate(handed);
                Err(stop)
            }
        }
    }
}

// The places of punctuations, in order.
#[derive(Drop)]
struct Places {
    going: Vec<usize>,
    staying: Vec<usize>,
}

// Hands out those that nothing holds back, of the ones that wait and the newest, files the newest, and answers which ones
// stay.
fn taken(
    alloc: Global,
    arity: u32,
    inputs: u32,
    stores: &mut Vec<PunctStore>,
    came: &[Heard],
    waiting: &[usize],
    out: &mut List<Punct>,
) -> Result<Vec<usize>, NoMemory>
    requires some { 0 < length came.now }
    requires fits { FitsNewest arity came.now }
    requires asked { AreAsked inputs came.now waiting.now }
    requires stored { AreStored arity (older came.now) 0 stores.old.items }
    ensures stay { IfOk result (λ left. left.items ≡ filter (λ at. not (is_ready inputs came.now at)) (with_newest came.now waiting.now)) }
    ensures go { OnOk result (out.new ≡ out.old ++ map (patterns_at came.now) (filter (is_ready inputs came.now) (with_newest came.now waiting.now))) }
    ensures filed { OnOk result (AreStored arity came.now 0 stores.new.items) }
    ensures stored { OnErr result (AreStored arity (older came.now) 0 stores.new.items) }
    ensures refused { OnErr result (IsFront out.old out.new) }
{
    let staying = settled(alloc, arity, inputs, stores.as_slice(), came, waiting, out)?;
    let (older, newest) = came.split_at(came.len() - 1);
    file(alloc, arity, older, &newest[0], stores)?;
    Ok(staying)
}

fn settled(
    alloc: Global,
    arity: u32,
    inputs: u32,
    stores: &[PunctStore],
    came: &[Heard],
    waiting: &[usize],
    out: &mut List<Punct>,
) -> Result<Vec<usize>, NoMemory>
    requires some { 0 < length came.now }
    requires asked { AreAsked inputs came.now waiting.now }
    requires stored { AreStored arity (older came.now) 0 stores.now }
    ensures stay { IfOk result (λ left. left.items ≡ filter (λ at. not (is_ready inputs came.now at)) (with_newest came.now waiting.now)) }
    ensures go { OnOk result (out.new ≡ out.old ++ map (patterns_at came.now) (filter (is_ready inputs came.now) (with_newest came.now waiting.now))) }
    ensures refused { OnErr result (out.new ≡ out.old) }
{
    let places = parted_all(alloc, arity, inputs, stores, came, waiting)?;
    hand_out(alloc, came, places.going.as_slice(), out)?;
    Ok(places.staying)
}

// Those that wait and the newest, by whether anything holds them back.
fn parted_all(
    alloc: Global,
    arity: u32,
    inputs: u32,
    stores: &[PunctStore],
    came: &[Heard],
    waiting: &[usize],
) -> Result<Places, NoMemory>
    requires some { 0 < length came.now }
    requires asked { AreAsked inputs came.now waiting.now }
    requires stored { AreStored arity (older came.now) 0 stores.now }
    ensures go { IfOk result (λ places. places.going.items ≡ filter (is_ready inputs came.now) (with_newest came.now waiting.now)) }
    ensures stay { IfOk result (λ places. places.staying.items ≡ filter (λ at. not (is_ready inputs came.now at)) (with_newest came.now waiting.now)) }
{
    let mut places = parted(alloc, arity, inputs, stores, came, waiting)?;
    let newest = came.len() - 1;
    if is_ready(alloc, arity, inputs, stores, came, newest) {
        places.going.push(newest)?;
    } else {
        places.staying.push(newest)?;
    }
    Ok(places)
}

// Those that wait, by whether anything holds them back still: each is asked against the newest alone, where that does not
// bear on it.
fn parted(
    alloc: Global,
    arity: u32,
    inputs: u32,
    stores: &[PunctStore],
    came: &[Heard],
    waiting: &[usize],
) -> Result<Places, NoMemory>
    requires some { 0 < length came.now }
    requires asked { AreAsked inputs came.now waiting.now }
    requires stored { AreStored arity (older came.now) 0 stores.now }
    ensures go { IfOk result (λ places. places.going.items ≡ filter (is_ready inputs came.now) waiting.now) }
    ensures stay { IfOk result (λ places. places.staying.items ≡ filter (λ at. not (is_ready inputs came.now at)) waiting.now) }
{
    let mut going = Vec::new(alloc);
    let mut staying = Vec::new(alloc);
    for place in waiting {
        if is_let_go(alloc, arity, inputs, stores, came, *place) {
            going.push(*place)?;
        } else {
            staying.push(*place)?;
        }
    }
    Ok(Places { going, staying })
}

// Whether nothing holds back one that waits.
fn is_let_go(
    alloc: Global,
    arity: u32,
    inputs: u32,
    stores: &[PunctStore],
    came: &[Heard],
    place: usize,
) -> bool
    requires some { 0 < length came.now }
    requires asked { IsAsked inputs came.now place }
    requires stored { AreStored arity (older came.now) 0 stores.now }
    ensures { result ≡ is_ready inputs came.now place }
{
    came[came.len() - 1].bears_on(&came[place])
        && is_ready(alloc, arity, inputs, stores, came, place)
}

// Whether every other input has sent a punctuation that covers the one at this place.
fn is_ready(
    alloc: Global,
    arity: u32,
    inputs: u32,
    stores: &[PunctStore],
    came: &[Heard],
    place: usize,
) -> bool
    requires there { place < length came.now }
    requires stored { AreStored arity (older came.now) 0 stores.now }
    ensures { result ≡ is_ready inputs came.now place }
{
    all_sent(alloc, arity, inputs, stores, came, &came[place])
}

fn all_sent(
    alloc: Global,
    arity: u32,
    inputs: u32,
    stores: &[PunctStore],
    came: &[Heard],
    waits: &Heard,
) -> bool
    requires some { 0 < length came.now }
    requires stored { AreStored arity (older came.now) 0 stores.now }
    ensures { result ≡ all_sent_from 0 inputs came.now waits.now }
{
    let sample = sample_of(alloc, arity, waits.punct());
    all_let_go(arity, inputs, stores, came, waits, &sample)
}

#[tactic(auto, using(crate::proofs::Asking::sent_start, crate::proofs::Asking::sent_more, crate::proofs::Asking::sent_not, crate::proofs::Asking::sent_end))]
fn all_let_go(
    arity: u32,
    inputs: u32,
    stores: &[PunctStore],
    came: &[Heard],
    waits: &Heard,
    sample: &Option<Sample<'_>>,
) -> bool
    requires some { 0 < length came.now }
    requires stored { AreStored arity (older came.now) 0 stores.now }
    requires fits { IfSome sample.now (λ sample. IsSampleOf arity waits.now.patterns sample) }
    ensures { result ≡ all_sent_from 0 inputs came.now waits.now }
{
    for input in 0..inputs {
        if !lets_go(arity, input, stores, came, waits, sample) {
            return false;
        }
    }
    true
}

// Whether it came at this input, or this input has sent a punctuation that covers it.
fn lets_go(
    arity: u32,
    input: u32,
    stores: &[PunctStore],
    came: &[Heard],
    waits: &Heard,
    sample: &Option<Sample<'_>>,
) -> bool
    requires some { 0 < length came.now }
    requires stored { AreStored arity (older came.now) 0 stores.now }
    requires fits { IfSome sample.now (λ sample. IsSampleOf arity waits.now.patterns sample) }
    ensures { result ≡ ((input == waits.now.input) || has_covering came.now waits.now input) }
{
    input == waits.input() || has_covering(arity, input, stores, came, waits, sample)
}

// The newest is in no store yet.
fn has_covering(
    arity: u32,
    input: u32,
    stores: &[PunctStore],
    came: &[Heard],
    waits: &Heard,
    sample: &Option<Sample<'_>>,
) -> bool
    requires some { 0 < length came.now }
    requires stored { AreStored arity (older came.now) 0 stores.now }
    requires fits { IfSome sample.now (λ sample. IsSampleOf arity waits.now.patterns sample) }
    ensures { result ≡ has_covering came.now waits.now input }
{
    let (older, newest) = came.split_at(came.len() - 1);
    any_covers(input, newest, waits) || older_covers(arity, input, stores, older, waits, sample)
}

fn older_covers(
    arity: u32,
    input: u32,
    stores: &[PunctStore],
    older: &[Heard],
    waits: &Heard,
    sample: &Option<Sample<'_>>,
) -> bool
    requires stored { AreStored arity older.now 0 stores.now }
    requires fits { IfSome sample.now (λ sample. IsSampleOf arity waits.now.patterns sample) }
    ensures { result ≡ has_covering older.now waits.now input }
{
    match sample {
        None => any_covers(input, older, waits),
        Some(sample) => match looked_up(arity, input, stores, older, waits, sample) {
            None => any_covers(input, older, waits),
            Some(told) => told,
        },
    }
}

fn any_covers(input: u32, came: &[Heard], waits: &Heard) -> bool
    ensures { result ≡ has_covering came.now waits.now input }
{
    came.iter().any(|heard| heard.lets_go(input, waits))
}

// Puts copies of the punctuations at these places at the end of `out`, or none.
fn hand_out(
    alloc: Global,
    came: &[Heard],
    places: &[usize],
    out: &mut List<Punct>,
) -> Result<(), NoMemory>
    requires { All (λ at. at < length came.now) places.now }
    ensures ok { OnOk result (out.new ≡ out.old ++ map (patterns_at came.now) places.now) }
    ensures err { OnErr result (out.new ≡ out.old) }
{
    let count = out.len();
    match append_copies(alloc, came, places, out) {
        Ok(()) => Ok(()),
        Err(stop) => {
            out.truncate(count);
            Err(stop)
        }
    }
}

fn append_copies(
    alloc: Global,
    came: &[Heard],
    places: &[usize],
    out: &mut List<Punct>,
) -> Result<(), NoMemory>
    requires { All (λ at. at < length came.now) places.now }
    ensures ok { OnOk result (out.new ≡ out.old ++ map (patterns_at came.now) places.now) }
    ensures err { OnErr result (IsFront out.old out.new) }
{
    for place in places {
        out.push(came[*place].punct().copy(alloc)?)?;
    }
    Ok(())
}
