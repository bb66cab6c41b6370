// Replays of the auction that are stepped by hand, with several probes under way at once.
ghost use Rattle.std.specs.Prelude.{◌≡◌, ◌<◌, true, false, length, IfOk, IfSome, IsTrue};
ghost use Rattle.pj_shape.specs.Columns.{domains_of};
ghost use Rattle.pj_pattern.specs.Fitting.{FitsDomains};
ghost use Rattle.pj_plan.specs.Canonical.{node_at};
ghost use Rattle.pj_plan.specs.Nodes.{inputs_of, is_join, streams_of, stream_columns, streams_in};
ghost use Rattle.pj_safety.specs.Certificates.{AreCertificates, certificates_of};
ghost use Rattle.pj_hand.specs.Hands.{StandsForOne};
ghost use Rattle.pj_test_scripts.specs.Replays.{HasClosed, IsAuctionPlan, IsRunning, bid_domains, item_domains, kinds_at};

use crate::scripts::{AUCTION, JOIN, give, sweep};
use pj_core::Out;
use pj_element::{punct_text, row_text};
use pj_hand::Hand;
use pj_judge::{Judged, judge};
use pj_pattern::{Element, Pattern, Punct};
use pj_plan::{Node, Plan};
use pj_plan_text::read_plan;
use pj_safe_core::safe_core;
use pj_script::ScriptStep;
use pj_shape::{Cert, Column};
use pj_value::{Kind, List, NoMemory, Row, SharedText, Value};
use std::alloc::Global;

const TAKE: ScriptStep = ScriptStep::Take;

// ---- elements

fn item(alloc: Global) -> Result<Row, NoMemory>
    ensures { IfOk result (λ row. FitsDomains item_domains (Element.Tuple row)) }
{
    let seller = SharedText::copy_of(alloc, b"ann")?;
    let mut values = List::new(alloc);
    values.push(Value::Int(1))?;
    values.push(Value::Text(seller))?;
    Ok(Row::of(values))
}

fn bid(alloc: Global, price: i64) -> Result<Row, NoMemory>
    ensures { IfOk result (λ row. FitsDomains bid_domains (Element.Tuple row)) }
{
    let mut values = List::new(alloc);
    values.push(Value::Int(1))?;
    values.push(Value::Int(price))?;
    Ok(Row::of(values))
}

// No further tuple of the item's number.
fn no_more(alloc: Global) -> Result<Punct, NoMemory>
    ensures items { IfOk result (λ punct. FitsDomains item_domains (Element.Punct punct)) }
    ensures bids { IfOk result (λ punct. FitsDomains bid_domains (Element.Punct punct)) }
{
    let mut patterns = List::new(alloc);
    patterns.push(Pattern::constant(Value::Int(1)))?;
    patterns.push(Pattern::wild())?;
    Ok(Punct::of(patterns))
}

// ---- the hand

fn are_items(columns: &[Column]) -> bool
    ensures { IsTrue result → domains_of columns.now ≡ item_domains }
{
    columns.len() == 2 && columns[0].kind == Kind::Int && columns[1].kind == Kind::Text
}

fn are_bids(columns: &[Column]) -> bool
    ensures { IsTrue result → domains_of columns.now ≡ bid_domains }
{
    columns.len() == 2 && columns[0].kind == Kind::Int && columns[1].kind == Kind::Int
}

// The columns of a stream, by its number among the streams.
#[tactic(auto, using(pj_core::proofs::Streams::number_below, pj_core::proofs::Streams::columns_there))]
fn columns_at(plan: &Plan, stream: u32) -> &[Column]
    requires { stream < length (streams_of plan.now.nodes) }
    ensures { result.now ≡ stream_columns (streams_in plan.now.nodes) stream }
{
    let node = plan.streams()[stream as usize];
    plan.schema(node).columns()
}

fn is_auction(plan: &Plan) -> bool
    ensures { IsTrue result → IsAuctionPlan plan.now.nodes }
{
    if plan.streams().len() == 2 {
        are_items(columns_at(plan, 0)) && are_bids(columns_at(plan, 1))
    } else {
        false
    }
}

// A hand over a core of this plan, with a trace.
#[tactic(auto, using(crate::proofs::Replays::new_runs))]
fn hand_over(alloc: Global, plan: Plan, certs: List<List<Cert>>) -> Result<Hand, NoMemory>
    requires certs { (certs ≡ certificates_of plan.nodes) × AreCertificates plan.nodes }
    requires auction { IsAuctionPlan plan.nodes }
    ensures { IfOk result (λ hand. IsRunning true hand) }
{
    let core = safe_core(alloc, plan, certs, 9, true)?;
    Ok(Hand::new(alloc, core))
}

fn opened(alloc: Global) -> Option<Hand>
    ensures { IfSome result (λ hand. IsRunning true hand) }
{
    match read_plan(alloc, AUCTION) {
        Ok(plan) => {
            if !is_auction(&plan) {
                return None;
            }
            match judge(alloc, &plan) {
                Ok(Judged::Safe { certs }) => hand_over(alloc, plan, certs).ok(),
                Ok(Judged::Unsafe { found: _ }) => None,
                Err(NoMemory) => None,
            }
        }
        Err(_) => None,
    }
}

// ---- what comes

// Whether a row came to a stream.
#[tactic(auto, using(crate::proofs::Replays::is_there, crate::proofs::Replays::fits_there))]
fn comes(hand: &mut Hand, stream: u32, row: Row) -> bool
    requires running { IsRunning true hand.old }
    requires fits { (stream < 2) × FitsDomains (kinds_at stream) (Element.Tuple row) }
    ensures { IsTrue result → IsRunning true hand.new }
{
    match hand.arrive(stream, Element::Tuple(row)) {
        Ok(()) => true,
        Err(_) => false,
    }
}

// Whether a punctuation came to a stream.
#[tactic(auto, using(crate::proofs::Replays::is_there, crate::proofs::Replays::fits_there))]
fn closes(hand: &mut Hand, stream: u32, punct: Punct) -> bool
    requires running { IsRunning false hand.old }
    requires fits { (stream < 2) × FitsDomains (kinds_at stream) (Element.Punct punct) }
    ensures { IsTrue result → IsRunning false hand.new }
{
    match hand.arrive(stream, Element::Punct(punct)) {
        Ok(()) => true,
        Err(_) => false,
    }
}

fn item_comes(alloc: Global, hand: &mut Hand) -> bool
    requires { IsRunning true hand.old }
    ensures { IsTrue result → IsRunning true hand.new }
{
    match item(alloc) {
        Ok(row) => comes(hand, 0, row),
        Err(NoMemory) => false,
    }
}

fn bid_comes(alloc: Global, hand: &mut Hand, price: i64) -> bool
    requires { IsRunning true hand.old }
    ensures { IsTrue result → IsRunning true hand.new }
{
    match bid(alloc, price) {
        Ok(row) => comes(hand, 1, row),
        Err(NoMemory) => false,
    }
}

fn bids_come(alloc: Global, hand: &mut Hand, prices: &[i64]) -> bool
    requires { IsRunning true hand.old }
    ensures { IsTrue result → IsRunning true hand.new }
{
    for price in prices {
        if !bid_comes(alloc, hand, *price) {
            return false;
        }
    }
    true
}

// A hand to which the item came, and then bids at these prices.
#[tactic(auto, using(crate::proofs::Replays::runs_on))]
fn auctioned(alloc: Global, prices: &[i64]) -> Option<Hand>
    ensures { IfSome result (λ hand. IsRunning false hand) }
{
    let mut hand = opened(alloc)?;
    if !item_comes(alloc, &mut hand) {
        return None;
    }
    if bids_come(alloc, &mut hand, prices) {
        Some(hand)
    } else {
        None
    }
}

// Whether it came that no other item of the number comes, and no other bid for it.
fn no_more_come(alloc: Global, hand: &mut Hand) -> bool
    requires { IsRunning false hand.old }
    ensures { IsTrue result → IsRunning false hand.new }
{
    match (no_more(alloc), no_more(alloc)) {
        (Ok(items), Ok(bids)) => {
            if !closes(hand, 0, items) {
                return false;
            }
            closes(hand, 1, bids)
        }
        _ => false,
    }
}

// Whether a stream ended.
fn end(hand: &mut Hand, stream: u32) -> bool
    ensures { IsTrue result → HasClosed hand.old hand.new stream }
{
    if (stream as usize) < hand.core().plan().streams().len() {
        match hand.close_stream(stream) {
            Ok(()) => true,
            Err(_) => false,
        }
    } else {
        false
    }
}

fn end_both(hand: &mut Hand) -> bool
    requires { IsRunning false hand.old }
    ensures { IsTrue result → StandsForOne hand.new }
{
    if !end(hand, 0) {
        return false;
    }
    end(hand, 1)
}

// ---- steps

// Whether a ticket was taken; none where the hand stopped.
#[tactic(auto, using(crate::proofs::Replays::step_runs))]
fn taken(hand: &mut Hand) -> Option<bool>
    requires { IsRunning false hand.old }
    ensures { IfSome result (λ made. IsRunning false hand.new) }
{
    match hand.take() {
        Ok(made) => Some(made),
        Err(_) => None,
    }
}

#[tactic(auto, using(crate::proofs::Replays::stands_for_one, crate::proofs::Replays::step_runs))]
fn given(hand: &mut Hand, join: u32, ticket: u64) -> Option<bool>
    requires { IsRunning false hand.old }
    ensures { IfSome result (λ made. IsRunning false hand.new) }
{
    match hand.give(join, ticket) {
        Ok(made) => Some(made),
        Err(_) => None,
    }
}

fn has_input(plan: &Plan, join: u32, input: u32) -> bool
    ensures there { IsTrue result → join < length plan.now.nodes }
    ensures join { IsTrue result → is_join (node_at plan.now.nodes join) ≡ true }
    ensures input { IsTrue result → input < length (inputs_of (node_at plan.now.nodes join)) }
{
    if join < plan.nodes() {
        match plan.node(join) {
            Node::Join { inputs, spec: _ } => (input as usize) < inputs.len(),
            Node::Stream { schemes: _ } => false,
            Node::Select { input: _, test: _ } => false,
            Node::Project {
                input: _,
                columns: _,
            } => false,
            Node::Union { inputs: _ } => false,
            Node::Group { input: _, spec: _ } => false,
        }
    } else {
        false
    }
}

fn swept(hand: &mut Hand, join: u32, input: u32) -> Option<bool>
    requires { IsRunning false hand.old }
    ensures { IfSome result (λ made. IsRunning false hand.new) }
{
    if has_input(hand.core().plan(), join, input) {
        match hand.sweep(join, input) {
            Ok(()) => Some(true),
            Err(_) => None,
        }
    } else {
        None
    }
}

// Whether the step, which is a take, a give or a sweep, was made; none where the hand stopped.
fn made(hand: &mut Hand, step: ScriptStep) -> Option<bool>
    requires { IsRunning false hand.old }
    ensures { IfSome result (λ made. IsRunning false hand.new) }
{
    match step {
        ScriptStep::Arrive(_) => None,
        ScriptStep::Take => taken(hand),
        ScriptStep::Give { join, ticket } => given(hand, join, ticket),
        ScriptStep::Sweep { join, input } => swept(hand, join, input),
        ScriptStep::Drain => None,
    }
}

fn is_made_so(hand: &mut Hand, step: ScriptStep, want: bool) -> bool
    requires { IsRunning false hand.old }
    ensures { IsTrue result → IsRunning false hand.new }
{
    match made(hand, step) {
        Some(made) => made == want,
        None => false,
    }
}

// Whether each of these steps is answered so.
fn plays(hand: &mut Hand, steps: &[(ScriptStep, bool)]) -> bool
    requires { IsRunning false hand.old }
    ensures { IsTrue result → IsRunning false hand.new }
{
    for (step, want) in steps {
        if !is_made_so(hand, *step, *want) {
            return false;
        }
    }
    true
}

// What settling the run hands out.
#[tactic(auto, using(crate::proofs::Replays::stands_for_one))]
fn settled(hand: &mut Hand) -> Option<List<Out>>
    requires { IsRunning false hand.old }
    ensures { IfSome result (λ outs. IsRunning false hand.new) }
{
    match hand.settle() {
        Ok(outs) => Some(outs),
        Err(_) => None,
    }
}

// What settling the run hands out once both streams have ended.
fn ended(hand: &mut Hand) -> Option<List<Out>>
    requires { IsRunning false hand.old }
{
    if end_both(hand) {
        hand.settle().ok()
    } else {
        None
    }
}

// ---- what is handed out

// A row and a punctuation as they are written, and a row that was removed behind its join and input.
fn append_out(alloc: Global, out: &Out, text: &mut List<u8>) -> Result<(), NoMemory> {
    match out {
        Out::Tuple(row) => row_text(alloc, row, text)?,
        Out::Punct(punct) => punct_text(alloc, punct, text)?,
        Out::Purged { join, input, row } => {
            text.append(if *join == JOIN {
                b"purge j "
            } else {
                b"purge ? "
            })?;
            text.append(if *input == 0 {
                b"items ".as_slice()
            } else {
                b"bids ".as_slice()
            })?;
            row_text(alloc, row, text)?;
        }
    }
    text.push(b'\n')
}

fn text_of(alloc: Global, outs: &List<Out>) -> Result<List<u8>, NoMemory> {
    let mut text = List::new(alloc);
    for out in outs.as_slice() {
        append_out(alloc, out, &mut text)?;
    }
    Ok(text)
}

// Whether these lines are handed out, in order.
fn are_lines(alloc: Global, outs: &List<Out>, lines: &[u8]) -> bool {
    match text_of(alloc, outs) {
        Ok(text) => text.as_slice() == lines,
        Err(NoMemory) => false,
    }
}

// ---- replays

// What is handed out where the steps are answered so.
fn replayed(mut hand: Hand, steps: &[(ScriptStep, bool)]) -> Option<List<Out>>
    requires { IsRunning false hand }
{
    if plays(&mut hand, steps) {
        Some(hand.drain())
    } else {
        None
    }
}

// Three tickets are taken, and given from the last to the first. A step that is not enabled changes nothing.
fn given_from_the_last(alloc: Global) -> Option<List<Out>> {
    let steps = [
        (TAKE, true),
        (TAKE, true),
        (TAKE, true),
        (TAKE, false),
        (give(2), true),
        (give(1), true),
        (give(1), false),
        (give(7), false),
        (sweep(1), true),
        (give(0), true),
        (give(0), false),
    ];
    replayed(auctioned(alloc, &[50, 60])?, &steps)
}

#[test]
fn tickets_are_given_in_any_order(rt: HostRuntime) {
    let alloc = rt.alloc();
    match given_from_the_last(alloc) {
        Some(outs) => {
            assert!(rt; are_lines(alloc, &outs, b"t 1 \"ann\" 1 60\nt 1 \"ann\" 1 50\n"));
        }
        None => assert!(rt; false),
    }
}

// Both inputs are swept while a ticket is pending, while one is under way, and once all are given.
fn swept_under_way(alloc: Global) -> Option<List<Out>> {
    let mut hand = auctioned(alloc, &[50])?;
    if !no_more_come(alloc, &mut hand) {
        return None;
    }
    let steps = [
        (sweep(0), true),
        (sweep(1), true),
        (TAKE, true),
        (give(0), true),
        (TAKE, true),
        (sweep(0), true),
        (give(1), true),
        (sweep(0), true),
        (sweep(1), true),
    ];
    replayed(hand, &steps)
}

// So the early sweeps remove nothing, since the row that they might remove is still to be joined.
#[test]
fn sweeps_stay_below_what_is_not_given(rt: HostRuntime) {
    let alloc = rt.alloc();
    match swept_under_way(alloc) {
        Some(outs) => {
            let lines =
                b"t 1 \"ann\" 1 50\npurge j items t 1 \"ann\"\np 1 * * *\npurge j bids t 1 50\np * * 1 *\n";
            assert!(rt; are_lines(alloc, &outs, lines));
        }
        None => assert!(rt; false),
    }
}

// Two tickets are under way and a third is pending where the run is settled, and again once both streams have ended.
fn settled_under_way(alloc: Global) -> Option<(List<Out>, List<Out>)> {
    let mut hand = auctioned(alloc, &[50, 60, 70])?;
    let steps = [(TAKE, true), (give(0), true), (TAKE, true), (TAKE, true)];
    if !plays(&mut hand, &steps) {
        return None;
    }
    let first = settled(&mut hand)?;
    let last = ended(&mut hand)?;
    Some((first, last))
}

#[test]
fn settling_gives_what_is_under_way(rt: HostRuntime) {
    let alloc = rt.alloc();
    match settled_under_way(alloc) {
        Some((first, last)) => {
            let rows = b"t 1 \"ann\" 1 50\nt 1 \"ann\" 1 60\nt 1 \"ann\" 1 70\n";
            let rest =
                b"purge j items t 1 \"ann\"\np * * * *\npurge j bids t 1 50\npurge j bids t 1 60\npurge j bids t 1 70\np * * * *\n";
            assert!(rt; are_lines(alloc, &first, rows));
            assert!(rt; are_lines(alloc, &last, rest));
        }
        None => assert!(rt; false),
    }
}
