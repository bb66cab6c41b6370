// Step functions made one, so that each is at most half as long as the one before it.
ghost use Rattle.std.specs.Prelude.{◌≡◌, ◌≤◌, ◌+◌, [], ◌∷◌, ◌++◌, length, IfSome};
ghost use Rattle.std.specs.Vec.{vec_len, vec_capacity};
ghost use Rattle.pj_intervals.specs.Steps.{GivesNext, merged, with_place};
ghost use Rattle.pj_intervals.specs.Intervals.{IsAsGood};

use crate::steps::Step;
use pj_value::List;
use std::alloc::Global;
use std::collections::VecDeque;

/// Makes one of the last two step functions while the last is more than half as long as the one before. Where memory is
/// wanting they stay two.
pub(crate) fn settle(alloc: Global, levels: &mut Vec<List<Step>>)
    ensures { IsAsGood levels.old.items levels.new.items }
{
    for _ in 0..levels.len() {
        if !merge_last(alloc, levels) {
            return;
        }
    }
}

// Makes one of the last two, and answers whether it did.
fn merge_last(alloc: Global, levels: &mut Vec<List<Step>>) -> bool
    ensures { IsAsGood levels.old.items levels.new.items }
{
    match levels.pop() {
        None => false,
        Some(newer) => match levels.pop() {
            None => {
                levels.push_reserved(newer);
                false
            }
            Some(older) => put_both(alloc, levels, older, newer),
        },
    }
}

// Puts two behind the others, as one where that is due and there is memory, and answers whether it is one.
fn put_both(
    alloc: Global,
    levels: &mut Vec<List<Step>>,
    older: List<Step>,
    newer: List<Step>,
) -> bool
    requires { vec_len levels.old + 2 ≤ vec_capacity levels.old }
    ensures { IsAsGood (levels.old.items ++ older ∷ newer ∷ []) levels.new.items }
{
    match room_for(alloc, &older, &newer) {
        None => {
            levels.push_reserved(older);
            levels.push_reserved(newer);
            false
        }
        Some(room) => {
            levels.push_reserved(merged(older, newer, room));
            true
        }
    }
}

// Room for both, where the newer is more than half as long as the older and there is memory.
fn room_for(alloc: Global, older: &List<Step>, newer: &List<Step>) -> Option<Vec<Step>>
    ensures empty { IfSome result (λ room. room.items ≡ []) }
    ensures fits { IfSome result (λ room. length older.now + length newer.now ≤ vec_capacity room) }
{
    if newer.len() <= older.len() / 2 {
        return None;
    }
    match older.len().checked_add(newer.len()) {
        None => None,
        Some(both) => Vec::with_capacity(alloc, both).ok(),
    }
}

// Both as one, in this room.
fn merged(older: List<Step>, newer: List<Step>, room: Vec<Step>) -> List<Step>
    requires empty { room.items ≡ [] }
    requires fits { length older + length newer ≤ vec_capacity room }
    ensures { result ≡ merged older newer }
{
    let mut merged = room;
    let mut older = VecDeque::from_vec(older.into_vec());
    let mut newer = VecDeque::from_vec(newer.into_vec());
    while let Some(step) = next_step(&mut older, &mut newer) {
        merged.push_reserved(step);
    }
    List::of(merged)
}

// The next step of both as one, which leaves the two.
fn next_step(older: &mut VecDeque<Step>, newer: &mut VecDeque<Step>) -> Option<Step>
    ensures { GivesNext result older.old.items newer.old.items older.new.items newer.new.items }
{
    match (older.front(), newer.front()) {
        (None, _) => newer.pop_front(),
        (Some(_), None) => older.pop_front(),
        (Some(one), Some(other)) => {
            let place = one.place.or(other.place);
            if other.from.is_not_above(&one.from) {
                with_place(older.pop_front(), place)
            } else {
                with_place(newer.pop_front(), place)
            }
        }
    }
}

// The step with this place.
fn with_place(step: Option<Step>, place: Option<usize>) -> Option<Step>
    ensures { result ≡ with_place step place }
{
    match step {
        None => None,
        Some(Step { from, place: _ }) => Some(Step { from, place }),
    }
}
