// The worked call of the page of `pj_group`.
ghost use Rattle.std.specs.Prelude.{◌≡◌, length, IfOk};

use crate::lines::are;
use pj_group::Group;
use pj_pattern::{Pattern, Punct};
use pj_shape::{Agg, GroupSpec};
use pj_value::{List, NoMemory, Row, Value};
use std::alloc::Global;
use std::test::Fail;

fn bid(alloc: Global, item: i64, price: i64) -> Result<Row, NoMemory>
    ensures { IfOk result (λ row. length row ≡ 2) }
{
    let mut values = List::new(alloc);
    values.push(Value::Int(item))?;
    values.push(Value::Int(price))?;
    Ok(Row::of(values))
}

// No more bids for the item come.
fn closing(alloc: Global, item: i64) -> Result<Punct, NoMemory>
    ensures { IfOk result (λ punct. length punct ≡ 2) }
{
    let mut patterns = List::new(alloc);
    patterns.push(Pattern::constant(Value::Int(item)))?;
    patterns.push(Pattern::wild())?;
    Ok(Punct::of(patterns))
}

#[test]
fn a_closed_group_is_handed_out(rt: HostRuntime) -> Result<(), Fail> {
    let alloc = rt.alloc();
    let keys = List::copy_of(alloc, &[0])?;
    let aggs = List::copy_of(alloc, &[Agg::Count, Agg::Sum(1)])?;
    let mut group = Group::new(alloc, GroupSpec { keys, aggs }, 1_000)?;
    group.tuple(bid(alloc, 1, 50)?)?;
    group.tuple(bid(alloc, 1, 60)?)?;
    let mut handed_out = List::new(alloc);
    group.punct(closing(alloc, 1)?, &mut handed_out)?;
    assert_eq!(rt;
        are(alloc, handed_out.as_slice(), "t 1 2 110\np 1 * *\n"),
        Ok(true)
    );
    Ok(())
}
