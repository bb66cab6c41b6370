// What no clause says: that the calls succeed with ample memory, and that the definitions mean the format.
ghost use Rattle.std.specs.Prelude.{◌≡◌, pos, negsuc, true, false, [], ◌∷◌, Some, None, IfOk};
ghost use Rattle.pj_value.specs.declared.values.Value.TheVariants.{Int, Text};
ghost use Rattle.pj_pattern.specs.declared.pattern.Form.TheVariants.{Wild, Empty, Constant, Range, Members};
ghost use Rattle.pj_pattern.specs.Patterns.{covers_pattern, matches_value};
ghost use Rattle.pj_value.specs.Storable.{greatest_int, least_int};
ghost use Rattle.pj_pattern.specs.Normal.{normal_of};
ghost use Rattle.pj_pattern.specs.Meets.{meet_of};
ghost use Rattle.pj_pattern.specs.Columns.{keep_of, widen_of};

use pj_pattern::{Pattern, Punct, Shape};
use pj_value::{List, NoMemory, Value, copy_values};
use std::alloc::Global;
use std::test::Fail;

// The list of 1 and 3, from 3, 1 and 3.
fn one_and_three(alloc: Global) -> Result<Pattern, NoMemory>
    ensures { IfOk result (λ p. p ≡ Members (Int (pos 1) ∷ Int (pos 3) ∷ [])) }
{
    let values = copy_values(alloc, &[Value::Int(3), Value::Int(1), Value::Int(3)])?;
    Pattern::list(alloc, values)
}

#[test]
fn lists_are_copied(rt: HostRuntime) -> Result<(), Fail> {
    let list = one_and_three(rt.alloc())?;
    let copy = list.copy(rt.alloc())?;
    assert!(rt; matches!(copy.shape(), Shape::Members([Value::Int(1), Value::Int(3)])));
    Ok(())
}

#[test]
fn patterns_meet(rt: HostRuntime) -> Result<(), Fail> {
    let list = one_and_three(rt.alloc())?;
    let range = Pattern::range(Some(Value::Int(2)), Some(Value::Int(9)));
    let meet = list.meet(rt.alloc(), &range)?;
    assert!(rt; matches!(meet.as_constant(), Some(Value::Int(3))));
    Ok(())
}

// The punctuation of a wildcard and 5.
fn wild_and_five(alloc: Global) -> Result<Punct, NoMemory>
    ensures { IfOk result (λ p. p ≡ Wild ∷ Constant (Int (pos 5)) ∷ []) }
{
    let mut patterns = List::new(alloc);
    patterns.push(Pattern::wild())?;
    patterns.push(Pattern::constant(Value::Int(5)))?;
    Ok(Punct::of(patterns))
}

fn is_five(pattern: &Pattern) -> bool {
    matches!(pattern.as_constant(), Some(Value::Int(5)))
}

#[test]
fn punctuations_are_cut(rt: HostRuntime) -> Result<(), Fail> {
    let punct = wild_and_five(rt.alloc())?;
    assert!(rt; punct.keep(rt.alloc(), &[0])?.is_none());
    match punct.keep(rt.alloc(), &[1, 1])? {
        Some(twice) => {
            assert!(rt; matches!(twice.as_slice(), [one, two] if is_five(one) && is_five(two)))
        }
        None => assert!(rt; false),
    }
    Ok(())
}

#[test]
fn punctuations_are_widened(rt: HostRuntime) -> Result<(), Fail> {
    let punct = wild_and_five(rt.alloc())?;
    let wide = punct.widen(rt.alloc(), 0, 1)?;
    let copy = wide.copy(rt.alloc())?;
    assert!(rt; matches!(copy.as_slice(), [_, five, _] if is_five(five)));
    let all = Punct::all_wild(rt.alloc(), 3)?;
    assert!(rt; all.covers(&copy) && !copy.covers(&all));
    Ok(())
}

// The definitions, computed on a few patterns.
fn worked_patterns()
    ensures greatest { normal_of (Range (Some (Int greatest_int)) None) ≡ Constant (Int greatest_int) }
    ensures empty_text { normal_of (Range None (Some (Text []))) ≡ Constant (Text []) }
    ensures all_texts { normal_of (Range (Some (Text [])) None) ≡ Wild }
    ensures all_ints { normal_of (Range (Some (Int least_int)) (Some (Int greatest_int))) ≡ Wild }
    ensures below { normal_of (Range (Some (Int least_int)) (Some (Int (pos 4)))) ≡ Range None (Some (Int (pos 4))) }
    ensures above { normal_of (Range (Some (Int (pos 5))) (Some (Int (pos 4)))) ≡ Empty }
    ensures list { normal_of (Members (Int (pos 3) ∷ Int (negsuc 0) ∷ Int (pos 3) ∷ [])) ≡ Members (Int (negsuc 0) ∷ Int (pos 3) ∷ []) }
    ensures one { normal_of (Members (Text [] ∷ Text [] ∷ [])) ≡ Constant (Text []) }
    ensures covers { covers_pattern (Members (Int (pos 1) ∷ Int (pos 2) ∷ Int (pos 3) ∷ [])) (Range (Some (Int (pos 1))) (Some (Int (pos 3)))) ≡ false }
    ensures part { covers_pattern (Members (Int (pos 1) ∷ Int (pos 2) ∷ Int (pos 3) ∷ [])) (Members (Int (pos 1) ∷ Int (pos 3) ∷ [])) ≡ true }
    ensures no_part { covers_pattern (Members (Int (pos 1) ∷ Int (pos 3) ∷ [])) (Members (Int (pos 1) ∷ Int (pos 2) ∷ [])) ≡ false }
    ensures kinds { matches_value (Range (Some (Int (pos 1))) None) (Text []) ≡ false }
    ensures meet { meet_of (Range (Some (Int (pos 1))) None) (Range None (Some (Int (pos 1)))) ≡ Constant (Int (pos 1)) }
    ensures keep { keep_of (1 ∷ []) (Wild ∷ Empty ∷ []) ≡ Some (Empty ∷ []) }
    ensures widen { widen_of 1 0 (Empty ∷ []) ≡ Wild ∷ Empty ∷ [] }
{}
