// What no clause says: that schemes are derived with ample memory, and that the definitions mean those of the plan language.
use crate::cases::{Question, is_told};

// Two streams, of which one is selected and projected, their union, and a join and a group of it.
const PLAN: &str = concat!(
    "plan 1;stream a x:int y:int;scheme a + _;scheme a _ +;select s a where x *;project p s k=x m=x;",
    "stream b u:int v:int;scheme b + _;union q p b;stream c z:int w:int;scheme c + _;",
    "join j q c on k=z;group g j by z k of n=count;output g",
);

// The project drops the scheme of the column that it drops, the union that of its second input, which marks less than the first
// input's, and the group the one with a mark that is no key.
#[test]
fn each_node_has_its_schemes(rt: HostRuntime) {
    let want = "+_,_+,;+_,_+,;++,;+_,;++,;+_,;++__,__+_,;+__,;";
    let told = is_told(rt.alloc(), PLAN, Question::Schemes, want);
    assert_eq!(rt; told, Ok(true));
}

#[test]
fn a_join_has_the_schemes_of_its_inputs(rt: HostRuntime) {
    let told = is_told(rt.alloc(), PLAN, Question::InputSchemes, "++,;+_,;");
    assert_eq!(rt; told, Ok(true));
}
