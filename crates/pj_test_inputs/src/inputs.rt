// A made input by its exact bytes, its plan, and a source that gives its bytes.
use pj_io::{Source, SteadySource};
use pj_judge::{Judged, judge};
use pj_make::make;
use pj_plan_text::read_plan;
use pj_value::List;
use std::test::Fail;

const ONE_ITEM: &[u8] = b"t 1 \"a\"\nt 1 \"b\"\np 1 *\n";

const TWO_BIDS: &[u8] = b"t 1 565\nt 1 807\np 1 *\n";

// The first item is closed behind the eleventh, and the last ten at the end.
const ELEVEN_ITEMS: &[u8] =
    b"t 1 \"a\"\nt 1 \"b\"\nt 2 \"a\"\nt 2 \"b\"\nt 3 \"a\"\nt 3 \"b\"\nt 4 \"a\"\nt 4 \"b\"\nt 5 \"a\"\nt 5 \"b\"\nt 6 \"a\"\nt 6 \"b\"\nt 7 \"a\"\nt 7 \"b\"\nt 8 \"a\"\nt 8 \"b\"\nt 9 \"a\"\nt 9 \"b\"\nt 10 \"a\"\nt 10 \"b\"\nt 11 \"a\"\nt 11 \"b\"\np 1 *\np 2 *\np 3 *\np 4 *\np 5 *\np 6 *\np 7 *\np 8 *\np 9 *\np 10 *\np 11 *\n";

#[test]
fn inputs_are_made(rt: HostRuntime) -> Result<(), Fail> {
    let made = make(rt.alloc(), 7, 1)?;
    assert_eq!(rt; made.items.as_slice(), ONE_ITEM);
    assert_eq!(rt; made.bids.as_slice(), TWO_BIDS);
    let made = make(rt.alloc(), 0, 11)?;
    assert_eq!(rt; made.items.as_slice(), ELEVEN_ITEMS);
    Ok(())
}

#[test]
fn the_plan_of_an_input_is_safe(rt: HostRuntime) -> Result<(), Fail> {
    let made = make(rt.alloc(), 7, 1)?;
    let safe = match read_plan(rt.alloc(), made.plan.as_slice()) {
        Ok(plan) => matches!(judge(rt.alloc(), &plan)?, Judged::Safe { .. }),
        Err(_) => false,
    };
    assert!(rt; safe);
    Ok(())
}

#[test]
fn a_steady_source_gives_all_its_bytes(rt: HostRuntime) -> Result<(), Fail> {
    let mut source = SteadySource::new(rt.alloc(), ELEVEN_ITEMS, 7)?;
    let mut read = List::new(rt.alloc());
    let mut piece = [0u8; 16];
    for _ in 0..ELEVEN_ITEMS.len() {
        let Ok(count) = source.read(&mut piece) else {
            break;
        };
        read.append(&piece[..count])?;
    }
    assert_eq!(rt; read.as_slice(), ELEVEN_ITEMS);
    Ok(())
}
