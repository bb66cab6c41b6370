// What no clause says: that plans are judged with ample memory, and that the definitions mean the format.
use crate::cases::{Question, first_wrong};

// A pair of streams, three of them, a chain, a circle, a join above a project of a select, one above another join, and none.
const VERDICTS: &str = concat!(
    "plan 1;stream a x:int y:int;stream b bx:int bz:int;scheme a + _;scheme b + +;join j a b on x=bx;output j",
    " => 2 0 1;# unsafe join j input a: cannot reach b;# reached: a;# partner b t 0 1;# safe join j input b: a by + _;\n",
    "plan 1;stream a x:int y:int;stream b bx:int bz:int;stream c cx:int cz:int;scheme a + _;scheme b + +;scheme c + _;",
    "join j a b c on x=bx=cx bz=cz;output j",
    " => safe;# safe join j input a: c by + _, b by + +;# safe join j input b: a by + _, c by + _;",
    "# safe join j input c: a by + _, b by + +;\n",
    "plan 1;stream a x:int;scheme a +;stream b y:int z:int;scheme b + _;scheme b _ +;stream c w:int;scheme c +;",
    "join j a b c on x=y z=w;output j",
    " => safe;# safe join j input a: b by + _, c by +;# safe join j input b: a by +, c by +;# safe join j input c: b by _ +, a by +;\n",
    "plan 1;stream a s:int t:int;scheme a + _;stream b u:int v:int;scheme b + _;stream c w:int x:int;scheme c + _;",
    "join j a b c on t=u v=w x=s;output j",
    " => safe;# safe join j input a: b by + _, c by + _;# safe join j input b: c by + _, a by + _;",
    "# safe join j input c: a by + _, b by + _;\n",
    "plan 1;stream a k:int v:text;scheme a + _;scheme a + +;select s a where v \"x\";project p s v k;stream b l:int;scheme b +;",
    "join j p b on k=l;output j",
    " => safe;# safe join j input p: b by +;# safe join j input b: p by _ +;\n",
    "plan 1;stream a x:int;scheme a +;stream b y:int;scheme b +;join i a b on x=y;stream c z:int;join j i c on x=z;output j",
    " => 4 0 1;# safe join i input a: b by +;# safe join i input b: a by +;# unsafe join j input i: cannot reach c;# reached: i;",
    "# partner c t 0;# safe join j input c: i by + _;\n",
    "plan 1;stream a x:int;output a",
    " => safe;",
);

// The plan first: two streams, joins above a join, a union and a project, and a group, and a join of a join that is safe.
const PRINTED: &str = concat!(
    "plan 1;stream items item:int seller:text;stream bids bitem:int price:int;scheme items + _;scheme bids + _;",
    "join j items bids on item=bitem;output j",
    " => safe;plan 1;stream items item:int seller:text;scheme items + _;stream bids bitem:int price:int;scheme bids + _;",
    "join j items bids on item=bitem;output j;# safe join j input items: bids by + _;# safe join j input bids: items by + _;\n",
    "plan 1;stream stream on:int by:int;stream stream7 where:int c4:int;scheme stream7 _ +;scheme stream7 + +;",
    "stream r6 c5:text c6:int;scheme r6 _ +;scheme r6 + _;join q23 stream stream7 r6 on by=c4=c6;stream plan c7:int c8:int;",
    "scheme plan + _;scheme stream + +;join out_1 q23 plan on c8=where c7=c4;project p3 out_1 by c4;output p3",
    " => 3 1 0;plan 1;stream stream on:int by:int;scheme stream + +;stream stream7 where:int c4:int;scheme stream7 _ +;",
    "scheme stream7 + +;stream r6 c5:text c6:int;scheme r6 _ +;scheme r6 + _;join q23 stream stream7 r6 on by=c4=c6;",
    "stream plan c7:int c8:int;scheme plan + _;join out_1 q23 plan on where=c8 c4=c7;project p3 out_1 by c4;output p3;",
    "# safe join q23 input stream: stream7 by _ +, r6 by _ +;# unsafe join q23 input stream7: cannot reach stream;",
    "# reached: stream7 r6;# partner stream t 1 0;# partner r6 t \"\" 0;# unsafe join q23 input r6: cannot reach stream;",
    "# reached: stream7 r6;# partner stream t 1 0;# partner stream7 t 0 0;# safe join out_1 input q23: plan by + _;",
    "# safe join out_1 input plan: q23 by _ _ _ + _ _;\n",
    "plan 1;stream r7 c1:int c2:int;scheme r7 _ +;stream bids c3:int c4:int;stream items c5:int c6:int;scheme items _ +;",
    "stream a c7:int c8:int;scheme a + _;scheme a _ +;stream items0 c9:int c10:int;scheme items0 + _;union q1 r7 bids;",
    "project take items c5;union g a items0;scheme bids _ +;join g0 q1 take g on c2=c5=c7;output g0",
    " => 8 0 1;plan 1;stream r7 c1:int c2:int;scheme r7 _ +;stream bids c3:int c4:int;scheme bids _ +;stream items c5:int c6:int;",
    "scheme items _ +;stream a c7:int c8:int;scheme a + _;scheme a _ +;stream items0 c9:int c10:int;scheme items0 + _;",
    "union q1 r7 bids;project take items c5;union g a items0;join g0 q1 take g on c2=c5=c7;output g0;",
    "# unsafe join g0 input q1: cannot reach take;# reached: q1 g;# partner take t 0;# partner g t 0 0;",
    "# safe join g0 input take: q1 by _ +, g by + _;# unsafe join g0 input g: cannot reach take;# reached: q1 g;# partner q1 t 0 0;",
    "# partner take t 0;\n",
    "plan 1;stream stream c1:int c2:int;scheme stream + _;scheme stream _ +;group f0 stream by c2 c1 of c3=count;",
    "stream l4 c4:int c5:int c6:text;stream stream2 c7:int c8:int;scheme stream2 + _;stream l9 c9:int c10:int;",
    "stream r c11:int c12:text;join u6 l4 stream2 l9 r on c8=c4=c11 c5=c9;scheme l9 _ +;join take7 f0 u6 on c2=c10;output take7",
    " => 6 0 1;plan 1;stream stream c1:int c2:int;scheme stream + _;scheme stream _ +;group f0 stream by c2 c1 of c3=count;",
    "stream l4 c4:int c5:int c6:text;stream stream2 c7:int c8:int;scheme stream2 + _;stream l9 c9:int c10:int;scheme l9 _ +;",
    "stream r c11:int c12:text;join u6 l4 stream2 l9 r on c4=c8=c11 c5=c9;join take7 f0 u6 on c2=c10;output take7;",
    "# unsafe join u6 input l4: cannot reach stream2;# reached: l4;# partner stream2 t 1 0;# partner l9 t 0 1;# partner r t 0 \"a\";",
    "# unsafe join u6 input stream2: cannot reach l4;# reached: stream2;# partner l4 t 0 1 \"a\";# partner l9 t 1 1;",
    "# partner r t 0 \"a\";# unsafe join u6 input l9: cannot reach l4;# reached: l9;# partner l4 t 1 0 \"a\";# partner stream2 t 1 1;",
    "# partner r t 1 \"a\";# unsafe join u6 input r: cannot reach l4;# reached: r;# partner l4 t 0 1 \"a\";# partner stream2 t 1 0;",
    "# partner l9 t 1 1;# safe join take7 input f0: u6 by _ _ _ _ _ _ + _ _;# safe join take7 input u6: f0 by + _ _;\n",
    "plan 1;stream stream on:int;scheme stream +;stream items by:int;stream a where:int;scheme a +;join q15 items a on by=where;",
    "scheme items +;join out_10 stream q15 on on=where;project q2 out_10 where=where c4=on;select rising1 q2 where where [1..];",
    "scheme stream +;scheme stream +;group k2 rising1 by where c4 of c5=count;scheme items +;output k2",
    " => safe;plan 1;stream stream on:int;scheme stream +;scheme stream +;scheme stream +;stream items by:int;scheme items +;",
    "scheme items +;stream a where:int;scheme a +;join q15 items a on by=where;join out_10 stream q15 on on=where;",
    "project q2 out_10 where c4=on;select rising1 q2 where where [1..];group k2 rising1 by where c4 of c5=count;output k2;",
    "# safe join q15 input items: a by +;# safe join q15 input a: items by +;# safe join out_10 input stream: q15 by _ +;",
    "# safe join out_10 input q15: stream by +;",
);

// Unsafe plans, one of two joins, and a safe one.
const JUDGMENTS: &str = concat!(
    "plan 1;stream a x:int y:int;stream b bx:int bz:int;scheme a + _;scheme b + +;join j a b on x=bx;output j",
    " => 2 0 1;# unsafe join j input a: cannot reach b;# reached: a;\n",
    "plan 1;stream a x:int y:int;stream b bx:int bz:int;stream c cx:int cz:int;scheme a + _;scheme b + +;scheme c + _;",
    "join j a b c on x=bx=cx bz=cz;stream d w:int;scheme d +;join k j d on x=w;output k",
    " => by 2.0 1.0;by 0.0 2.0;by 0.0 1.0;;by 1.0;by 0.0;;\n",
    "plan 1;stream a x:int;scheme a +;stream b y:int;scheme b +;join i a b on x=y;stream c z:int;join j i c on x=z;output j",
    " => 4 0 1;# unsafe join j input i: cannot reach c;# reached: i;\n",
    "plan 1;stream stream on:int by:int;stream stream7 where:int c4:int;scheme stream7 _ +;scheme stream7 + +;",
    "stream r6 c5:text c6:int;scheme r6 _ +;scheme r6 + _;join q23 stream stream7 r6 on by=c4=c6;stream plan c7:int c8:int;",
    "scheme plan + _;scheme stream + +;join out_1 q23 plan on c8=where c7=c4;project p3 out_1 by c4;output p3",
    " => 3 1 0;# unsafe join q23 input stream7: cannot reach stream;# reached: stream7 r6;",
);

#[test]
fn plans_are_judged(rt: HostRuntime) {
    for (rows, question) in [
        (VERDICTS, Question::Check { print: false }),
        (PRINTED, Question::Check { print: true }),
        (JUDGMENTS, Question::Judgment),
    ] {
        assert_eq!(rt; first_wrong(rt.alloc(), rows, question), Ok(None));
    }
}
