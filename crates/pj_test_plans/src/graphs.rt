// Worked joins: what each input of a join reaches.
ghost use Rattle.pj_test_plans.specs.ThreeInputs.{SampleReaches};

use crate::cases::{Question, is_told};
use crate::joins::{SAMPLE, STUCK};

#[test]
fn each_input_has_its_certificate(rt: HostRuntime) {
    let want = "by 2.0 1.0;by 0.1 2.0;by 0.1 1.0;";
    let told = is_told(rt.alloc(), SAMPLE, Question::Reaches, want);
    assert_eq!(rt; told, Ok(true));
}

#[test]
fn an_input_is_stuck_where_one_of_two_marked_columns_is_bound(rt: HostRuntime) {
    let want = "[0] without 1;by 0.1 2.0;by 0.1 1.0;";
    let told = is_told(rt.alloc(), STUCK, Question::Reaches, want);
    assert_eq!(rt; told, Ok(true));
}

// The definition gives the worked answers.
fn sample_reaches_are_the_worked_ones()
    ensures { SampleReaches }
{}
