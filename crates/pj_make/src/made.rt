// The files of a made input.
ghost use Rattle.std.specs.Prelude.{◌≡◌, ◌≤◌, ◌<◌, ◌+◌, ◌^◌, ◌++◌, IfOk, OnOk};
ghost use Rattle.std.specs.Fmt.{decimal};
ghost use Rattle.pj_make.specs.Draws.{next_state as state_behind};
ghost use Rattle.pj_make.specs.Inputs.{bids_text, bids_up_to, closed_at, closed_up_to, closing_line, items_text, items_up_to, plan_text, tuple_line, two_bids, two_items};

use crate::draws::{next_state, price};
use itoa::Buffer;
use pj_value::{Bytes, List, NoMemory};
use std::alloc::Global;

const PLAN: &[u8] =
    b"plan 1\nstream items item:int seller:text\nscheme items + _\nstream bids bitem:int price:int\nscheme bids + _\njoin j items bids on item=bitem\ngroup g j by item of n=count top=max:price\noutput g\n";

/// A plan, and the file of each of its streams.
#[derive(Drop)]
pub struct Made {
    /// An auction, of whose join a group counts the bids on each item and takes the highest.
    pub plan: Bytes,
    /// The items, by rising numbers, each sold by two; an item is closed ten items later, the last ten at the end.
    pub items: Bytes,
    /// Two bids on each item at prices that are drawn, closed as the items are.
    pub bids: Bytes,
}

/// The input of so many items, from 1 to 1,000,000; prices are drawn from the seed on, which is below 2^31.
pub fn make(alloc: Global, seed: u32, count: u32) -> Result<Made, NoMemory>
    requires seed { seed < 2 ^ 31 }
    requires count { (1 ≤ count) × (count ≤ 1000000) }
    ensures plan { IfOk result (λ made. made.plan ≡ plan_text) }
    ensures items { IfOk result (λ made. made.items ≡ items_text count) }
    ensures bids { IfOk result (λ made. made.bids ≡ bids_text seed count) }
{
    let plan = List::copy_of(alloc, PLAN)?;
    let mut items = List::new(alloc);
    append_items(count, &mut items)?;
    append_closings(count, &mut items)?;
    let mut bids = List::new(alloc);
    append_bids(seed, count, &mut bids)?;
    append_closings(count, &mut bids)?;
    Ok(Made { plan, items, bids })
}

// Appends the items of so many numbers, and what closes those before the last ten.
fn append_items(count: u32, text: &mut List<u8>) -> Result<(), NoMemory>
    requires { count ≤ 1000000 }
    ensures { OnOk result (text.new ≡ text.old ++ items_up_to count) }
{
    for before in 0..count {
        let number = before + 1;
        append_tuple(number, b"\"a\"", text)?;
        append_tuple(number, b"\"b\"", text)?;
        append_closed(number, text)?;
    }
    Ok(())
}

// Appends the bids of so many numbers, and what closes those before the last ten.
fn append_bids(seed: u32, count: u32, text: &mut List<u8>) -> Result<(), NoMemory>
    requires seed { seed < 2 ^ 31 }
    requires count { count ≤ 1000000 }
    ensures { OnOk result (text.new ≡ text.old ++ bids_up_to seed count) }
{
    let mut state = u64::from(seed);
    for before in 0..count {
        let number = before + 1;
        state = append_two_bids(state, number, text)?;
        append_closed(number, text)?;
    }
    Ok(())
}

// Appends two bids at the next prices, and gives the state behind them.
fn append_two_bids(state: u64, number: u32, text: &mut List<u8>) -> Result<u64, NoMemory>
    requires { state < 2147483648 }
    ensures bids { OnOk result (text.new ≡ text.old ++ two_bids state number) }
    ensures next { IfOk result (λ next. next ≡ state_behind (state_behind state)) }
    ensures small { IfOk result (λ next. next < 2147483648) }
{
    let first = next_state(state);
    append_bid(number, price(first), text)?;
    let second = next_state(first);
    append_bid(number, price(second), text)?;
    Ok(second)
}

fn append_bid(number: u32, price: u64, text: &mut List<u8>) -> Result<(), NoMemory>
    ensures { OnOk result (text.new ≡ text.old ++ tuple_line number (decimal price)) }
{
    let mut digits = Buffer::new();
    let cell = digits.format(price);
    append_tuple(number, cell.as_bytes(), text)
}

// Appends the line of a tuple.
fn append_tuple(number: u32, cell: &[u8], text: &mut List<u8>) -> Result<(), NoMemory>
    ensures { OnOk result (text.new ≡ text.old ++ tuple_line number cell.now) }
{
    text.append(b"t ")?;
    append_number(number, text)?;
    text.append(b" ")?;
    text.append(cell)?;
    text.append(b"\n")?;
    Ok(())
}

// Appends the line that closes the number ten before this one, if there is one.
fn append_closed(number: u32, text: &mut List<u8>) -> Result<(), NoMemory>
    ensures { OnOk result (text.new ≡ text.old ++ closed_at number) }
{
    if number > 10 {
        append_closing(number - 10, text)?;
    }
    Ok(())
}

// Appends the lines that close the last ten of so many numbers.
fn append_closings(count: u32, text: &mut List<u8>) -> Result<(), NoMemory>
    requires { count ≤ 1000000 }
    ensures { OnOk result (text.new ≡ text.old ++ closed_up_to count count) }
{
    for before in 0..count {
        let number = before + 1;
        if count < number + 10 {
            append_closing(number, text)?;
        }
    }
    Ok(())
}

// Appends the line that closes a number.
fn append_closing(number: u32, text: &mut List<u8>) -> Result<(), NoMemory>
    ensures { OnOk result (text.new ≡ text.old ++ closing_line number) }
{
    text.append(b"p ")?;
    append_number(number, text)?;
    text.append(b" *\n")?;
    Ok(())
}

fn append_number(number: u32, text: &mut List<u8>) -> Result<(), NoMemory>
    ensures { OnOk result (text.new ≡ text.old ++ decimal number) }
{
    let mut digits = Buffer::new();
    let spelling = digits.format(number);
    text.append(spelling.as_bytes())
}
