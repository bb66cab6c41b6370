// What no clause says: that the calls succeed with ample memory, and that many of them agree with a plain list.
ghost use Rattle.std.specs.Prelude.{◌≡◌, ◌<◌, All, IfOk, IfSome, IsTrue, [], ◌∷◌, length};
ghost use Rattle.pj_value.specs.Lists.{In};

use pj_state::{Matching, NextNumber, Seek, Shared, Spot, State};
use pj_value::{List, NoMemory, Row, SharedText, Value};
use std::alloc::Global;

// The step at which an order is first kept.
const KEPT: u64 = 40;

// A row of the plain list: an integer, and a text of one byte.
#[derive(Clone, Copy)]
struct Plain {
    ticket: u64,
    number: i64,
    letter: u8,
}

// The row with a ticket that a number draws.
fn drawn(ticket: u64, draw: u64) -> Plain {
    let letter = match draw / 8 % 3 {
        0 => b'a',
        1 => b'b',
        _ => b'c',
    };
    Plain {
        ticket,
        number: (draw % 97) as i64 - 48,
        letter,
    }
}

fn shared(alloc: Global, plain: &Plain) -> Result<Shared, NoMemory>
    ensures { IfOk result (λ r. length r ≡ 2) }
{
    let text = SharedText::copy_of(alloc, &[plain.letter])?;
    let mut values = List::new(alloc);
    values.push(Value::Int(plain.number))?;
    values.push(Value::Text(text))?;
    Shared::new(alloc, Row::of(values))
}

// Whether the row has a value in a column.
fn has(plain: &Plain, column: u32, value: &Value) -> bool {
    match value {
        Value::Int(number) => column == 0 && *number == plain.number,
        Value::Text(text) => column == 1 && text.as_slice() == [plain.letter].as_slice(),
    }
}

fn is_row(row: &Row, plain: &Plain) -> bool {
    if row.len() != 2 {
        return false;
    }
    has(plain, 0, row.at(0)) && has(plain, 1, row.at(1))
}

// Whether the ticket is greater than all that are there.
fn is_later(state: &State, ticket: u64) -> bool
    ensures { IsTrue result → All (λ s. s.ticket < ticket) state.now.rows }
{
    for at in 0..state.len() {
        if state.nth(at).0 >= ticket {
            return false;
        }
    }
    true
}

fn put(alloc: Global, state: &mut State, plain: Plain) -> Result<bool, NoMemory>
    requires { state.old.columns ≡ 0 ∷ 1 ∷ [] }
    ensures { state.new.columns ≡ 0 ∷ 1 ∷ [] }
{
    if !is_later(state, plain.ticket) {
        return Ok(false);
    }
    let row = shared(alloc, &plain)?.share(alloc)?;
    state.insert(plain.ticket, row)?;
    Ok(true)
}

fn place_in(list: &[Plain], ticket: u64) -> Option<usize>
    ensures { IfSome result (λ at. at < length list.now) }
{
    for at in 0..list.len() {
        if list[at].ticket == ticket {
            return Some(at);
        }
    }
    None
}

// Takes a ticket out of both.
fn pull(state: &mut State, list: &mut Vec<Plain>, ticket: u64) -> bool
    requires { state.old.columns ≡ 0 ∷ 1 ∷ [] }
    ensures { state.new.columns ≡ 0 ∷ 1 ∷ [] }
{
    match (state.remove(ticket), place_in(list.as_slice(), ticket)) {
        (Some(row), Some(at)) => is_row(row.row(), &list.remove(at)),
        (None, None) => state.get(ticket).is_none(),
        _ => false,
    }
}

// Whether the state has the rows of the list, in order, and a cursor finds them that jumps from either end to the other.
fn is_same(state: &State, list: &[Plain]) -> bool {
    let count = state.len();
    if count != list.len() {
        return false;
    }
    let mut cursor = state.cursor();
    for at in 0..count {
        let (ticket, row) = state.nth(at);
        if ticket != list[at].ticket || !is_row(row, &list[at]) {
            return false;
        }
        let place = if at % 2 == 0 { at } else { count - at };
        let (ticket, row) = cursor.nth(place);
        if ticket != list[place].ticket || !is_row(row, &list[place]) {
            return false;
        }
    }
    true
}

// Whether these are the rows of the list with smaller tickets, in order, that have the value in the column, or all.
fn are_found(
    found: &[(u64, Shared)],
    list: &[Plain],
    wanted: Option<(u32, &Value)>,
    below: u64,
) -> bool {
    let mut at = 0;
    for plain in list {
        let fits = match wanted {
            None => true,
            Some((column, value)) => has(plain, column, value),
        };
        if fits && plain.ticket < below {
            if at >= found.len() {
                return false;
            }
            if found[at].0 != plain.ticket || !is_row(found[at].1.row(), plain) {
                return false;
            }
            at += 1;
        }
    }
    at == found.len()
}

// Whether these are the tickets of the rows that have the value in the column, in order.
fn are_tickets(tickets: &[u64], list: &[Plain], column: u32, value: &Value) -> bool {
    let mut at = 0;
    for plain in list {
        if has(plain, column, value) {
            if at >= tickets.len() || tickets[at] != plain.ticket {
                return false;
            }
            at += 1;
        }
    }
    at == tickets.len()
}

fn finds_all(alloc: Global, state: &State, list: &[Plain], below: u64) -> Result<bool, NoMemory> {
    let found = state.all(alloc, below)?;
    Ok(are_found(found.as_slice(), list, None, below))
}

fn finds(
    alloc: Global,
    state: &State,
    list: &[Plain],
    column: u32,
    value: &Value,
    below: u64,
) -> Result<bool, NoMemory>
    requires { In column state.now.columns }
{
    let found = state.candidates(alloc, column, value, below)?;
    Ok(
        are_found(found.as_slice(), list, Some((column, value)), below)
            && are_tickets(state.tickets(column, value), list, column, value),
    )
}

// The least integer of the list from one on; untold where no order is kept.
fn next_in(list: &[Plain], from: i64, is_kept: bool) -> NextNumber {
    if !is_kept {
        return NextNumber::Untold;
    }
    let mut least = i64::MAX;
    for plain in list {
        if from <= plain.number {
            least = least.min(plain.number);
        }
    }
    if least == i64::MAX {
        NextNumber::Nothing
    } else {
        NextNumber::At(least)
    }
}

// The greatest integer of the list up to one; untold where no order is kept.
fn last_in(list: &[Plain], to: i64, is_kept: bool) -> NextNumber {
    if !is_kept {
        return NextNumber::Untold;
    }
    let mut greatest = i64::MIN;
    for plain in list {
        if plain.number <= to {
            greatest = greatest.max(plain.number);
        }
    }
    if greatest == i64::MIN {
        NextNumber::Nothing
    } else {
        NextNumber::At(greatest)
    }
}

// Whether the state tells the nearest integers above and below one, the least and the greatest as the list does.
fn tells(state: &State, list: &[Plain], from: i64, is_kept: bool) -> bool
    requires { state.now.columns ≡ 0 ∷ 1 ∷ [] }
{
    state.nearest_number(0, Seek::AtLeast(Some(from))) == next_in(list, from, is_kept)
        && state.nearest_number(0, Seek::AtLeast(None)) == next_in(list, i64::MIN, is_kept)
        && state.nearest_number(0, Seek::AtMost(Some(from))) == last_in(list, from, is_kept)
        && state.nearest_number(0, Seek::AtMost(None)) == last_in(list, i64::MAX, is_kept)
}

// Whether each row is the same one where it is looked for near the last.
fn is_near_same(matching: &Matching<'_>, near: &mut Spot) -> bool {
    for at in 0..matching.len() {
        let (ticket, row) = matching.nth(at);
        let (near_ticket, near_row) = matching.nth_near(at, near);
        if ticket != near_ticket || !row.same(near_row) {
            return false;
        }
    }
    true
}

// The next number of a small generator.
fn next(seed: u64) -> u64 {
    seed.wrapping_mul(6364136223846793005)
        .wrapping_add(1442695040888963407)
}

// Puts a row into both, or takes one out of both.
fn change(
    alloc: Global,
    state: &mut State,
    list: &mut Vec<Plain>,
    ticket: u64,
    draw: u64,
) -> Result<bool, NoMemory>
    requires { state.old.columns ≡ 0 ∷ 1 ∷ [] }
    ensures { state.new.columns ≡ 0 ∷ 1 ∷ [] }
{
    if draw % 5 > 2 {
        return Ok(pull(state, list, ticket.saturating_sub(draw % 200)));
    }
    let plain = drawn(ticket, draw);
    list.push(plain)?;
    put(alloc, state, plain)
}

// Whether the state finds the values of a row, and the rows below a ticket, as the list has them.
fn finds_as(
    alloc: Global,
    state: &State,
    list: &[Plain],
    wanted: &Row,
    below: u64,
) -> Result<bool, NoMemory>
    requires state { state.now.columns ≡ 0 ∷ 1 ∷ [] }
    requires wanted { length wanted.now ≡ 2 }
{
    Ok(
        finds_all(alloc, state, list, below)?
            && finds(alloc, state, list, 0, wanted.at(0), below)?
            && finds(alloc, state, list, 1, wanted.at(1), below)?,
    )
}

// Whether the state agrees with the list, and finds what is there.
fn agrees(
    alloc: Global,
    state: &State,
    list: &[Plain],
    step: (u64, u64),
    near: &mut Spot,
) -> Result<bool, NoMemory>
    requires { state.now.columns ≡ 0 ∷ 1 ∷ [] }
{
    let (ticket, draw) = step;
    let plain = drawn(ticket, draw);
    let wanted = shared(alloc, &plain)?;
    if !finds_as(alloc, state, list, wanted.row(), draw % 600)? {
        return Ok(false);
    }
    Ok(
        is_same(state, list)
            && tells(state, list, plain.number, ticket >= KEPT)
            && is_near_same(&state.matching(1, wanted.row().at(1)), near),
    )
}

// How many of these steps agree with the list, up to the first that does not.
fn run(alloc: Global, state: &mut State, list: &mut Vec<Plain>, count: u64) -> Result<u64, NoMemory>
    requires { state.old.columns ≡ 0 ∷ 1 ∷ [] }
{
    let mut near = Spot::new();
    let mut seed = 7;
    for ticket in 0..count {
        seed = next(seed);
        if ticket == KEPT {
            state.keep_order(0);
        }
        if !change(alloc, state, list, ticket, seed >> 33)? {
            return Ok(ticket);
        }
        if !agrees(
            alloc,
            state,
            list.as_slice(),
            (ticket, seed >> 40),
            &mut near,
        )? {
            return Ok(ticket);
        }
    }
    Ok(count)
}

// Puts a row under each of the tickets into both.
fn put_all(
    alloc: Global,
    state: &mut State,
    list: &mut Vec<Plain>,
    tickets: &[u64],
) -> Result<bool, NoMemory>
    requires { state.old.columns ≡ 0 ∷ 1 ∷ [] }
    ensures { state.new.columns ≡ 0 ∷ 1 ∷ [] }
{
    for ticket in tickets {
        let plain = Plain {
            ticket: *ticket,
            number: 1,
            letter: b'a',
        };
        list.push(plain)?;
        if !put(alloc, state, plain)? {
            return Ok(false);
        }
    }
    Ok(true)
}

// Whether rows stand in order, and are found and taken out, whose tickets lie far apart.
fn far(alloc: Global, tickets: &[u64], taken: u64) -> Result<bool, NoMemory> {
    let mut state = State::new(alloc, &[0, 1])?;
    let mut list = Vec::new(alloc);
    let is_put = put_all(alloc, &mut state, &mut list, tickets)?;
    Ok(is_put && pull(&mut state, &mut list, taken) && is_same(&state, list.as_slice()))
}

fn steps(alloc: Global, count: u64) -> Result<u64, NoMemory> {
    let mut state = State::new(alloc, &[0, 1])?;
    let mut list = Vec::new(alloc);
    run(alloc, &mut state, &mut list, count)
}

#[test]
fn steps_agree_with_a_plain_list(rt: HostRuntime) {
    assert_eq!(rt; steps(rt.alloc(), 600), Ok(600));
}

#[test]
fn tickets_may_lie_far_apart(rt: HostRuntime) {
    let tickets = [3, 4, 4294967299, 4294967300, u64::MAX - 1, u64::MAX];
    for taken in [3, 4294967299, u64::MAX] {
        assert_eq!(rt; far(rt.alloc(), tickets.as_slice(), taken), Ok(true));
    }
}
