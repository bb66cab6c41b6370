// What no clause says: that plans are read and written with ample memory, and that the definitions mean the language.
ghost use Rattle.std.specs.Prelude.{◌≡◌, codes};
ghost use Rattle.pj_plan.specs.declared.fault.PlanWhy.TheVariants.{BadShape, UnknownStatement, Unreadable};
ghost use Rattle.pj_plan.specs.declared.statement.Statement.TheVariants.{Bad, Plan as PlanLine};
ghost use Rattle.pj_plan_text.specs.PlanRead.{line_stated};

use crate::cases::{Question, first_wrong};

// Plans without fault, each with its canonical text.
const GOOD: &str = concat!(
    "plan 1;stream s x:int;output s => plan 1;stream s x:int;output s;\n",
    "# note;; plan\t1 ;stream  s x:int y:text\r;\t#;output s;; => plan 1;stream s x:int y:text;output s;\n",
    "plan 1;stream a c1:int;stream b c2:int;scheme a +;union u a b;output u => plan 1;stream a c1:int;scheme a +;stream b c2:int;union u a b;output u;\n",
    "plan 1;stream a on:int;stream b x:int;stream c y:int;join j a b c on on=y=x;output j => plan 1;stream a on:int;stream b x:int;stream c y:int;join j a b c on on=x=y;output j;\n",
    "plan 1;stream s x:int y:int;project p s y=y x z=y;output p => plan 1;stream s x:int y:int;project p s y x z=y;output p;\n",
    "plan 1;stream s x:int y:text;select p s where x {2|1|1} y [\"\"..];output p => plan 1;stream s x:int y:text;select p s where x {1|2};output p;\n",
    "plan 1;stream s x:int y:text;select p s where y [\"\"..];output p => plan 1;stream s x:int y:text;select p s where x *;output p;\n",
    "plan 1;stream s x:int;select p s where x [..40] x [..9];output p => plan 1;stream s x:int;select p s where x [..9];output p;\n",
    "plan 1;stream s x:int by:text;group g s by by of n=count m=min:x;output g => plan 1;stream s x:int by:text;group g s by by of n=count m=min:x;output g;\n",
    "plan 1;stream a x:int;scheme a +;stream b x:int;stream c y:int;union u a b;select f u where x [1..];project p f x;join j p c on x=y;group g j by x of n=count;output g; => =",
);

// Plans at each limit.
const WIDE: &str = concat!(
    "plan 1;stream s0 x:int;stream s1 x:int;stream s2 x:int;stream s3 x:int;stream s4 x:int;stream s5 x:int;stream s6 x:int;stream s7 x:int;stream s8 x:int;stream s9 x:int;stream s10 x:int;stream s11 x:int;stream s12 x:int;stream s13 x:int;stream s14 x:int;stream s15 x:int;union u s0 s1 s2 s3 s4 s5 s6 s7 s8 s9 s10 s11 s12 s13 s14 s15;output u; => =\n",
    "plan 1;stream s x:int;scheme s +;scheme s +;scheme s +;scheme s +;scheme s +;scheme s +;scheme s +;scheme s +;scheme s +;scheme s +;scheme s +;scheme s +;scheme s +;scheme s +;scheme s +;scheme s +;output s; => =\n",
    "plan 1;stream s c0:int c1:int c2:int c3:int c4:int c5:int c6:int c7:int c8:int c9:int c10:int c11:int c12:int c13:int c14:int c15:int c16:int c17:int c18:int c19:int c20:int c21:int c22:int c23:int c24:int c25:int c26:int c27:int c28:int c29:int c30:int c31:int c32:int c33:int c34:int c35:int c36:int c37:int c38:int c39:int c40:int c41:int c42:int c43:int c44:int c45:int c46:int c47:int c48:int c49:int c50:int c51:int c52:int c53:int c54:int c55:int c56:int c57:int c58:int c59:int c60:int c61:int c62:int c63:int c64:int c65:int c66:int c67:int c68:int c69:int c70:int c71:int c72:int c73:int c74:int c75:int c76:int c77:int c78:int c79:int c80:int c81:int c82:int c83:int c84:int c85:int c86:int c87:int c88:int c89:int c90:int c91:int c92:int c93:int c94:int c95:int c96:int c97:int c98:int c99:int c100:int c101:int c102:int c103:int c104:int c105:int c106:int c107:int c108:int c109:int c110:int c111:int c112:int c113:int c114:int c115:int c116:int c117:int c118:int c119:int;output s; => =\n",
    "plan 1;stream a a0:int a1:int a2:int a3:int a4:int a5:int a6:int a7:int a8:int a9:int a10:int a11:int a12:int a13:int a14:int a15:int a16:int a17:int a18:int a19:int a20:int a21:int a22:int a23:int a24:int a25:int a26:int a27:int a28:int a29:int a30:int a31:int a32:int;stream b b0:int b1:int b2:int b3:int b4:int b5:int b6:int b7:int b8:int b9:int b10:int b11:int b12:int b13:int b14:int b15:int b16:int b17:int b18:int b19:int b20:int b21:int b22:int b23:int b24:int b25:int b26:int b27:int b28:int b29:int b30:int b31:int b32:int;join j a b on a0=b0 a1=b1 a2=b2 a3=b3 a4=b4 a5=b5 a6=b6 a7=b7 a8=b8 a9=b9 a10=b10 a11=b11 a12=b12 a13=b13 a14=b14 a15=b15 a16=b16 a17=b17 a18=b18 a19=b19 a20=b20 a21=b21 a22=b22 a23=b23 a24=b24 a25=b25 a26=b26 a27=b27 a28=b28 a29=b29 a30=b30 a31=b31;output j; => =\n",
    "plan 1;stream n0 x:int;select n1 n0 where x *;select n2 n1 where x *;select n3 n2 where x *;select n4 n3 where x *;select n5 n4 where x *;select n6 n5 where x *;select n7 n6 where x *;select n8 n7 where x *;select n9 n8 where x *;select n10 n9 where x *;select n11 n10 where x *;select n12 n11 where x *;select n13 n12 where x *;select n14 n13 where x *;select n15 n14 where x *;select n16 n15 where x *;select n17 n16 where x *;select n18 n17 where x *;select n19 n18 where x *;select n20 n19 where x *;select n21 n20 where x *;select n22 n21 where x *;select n23 n22 where x *;select n24 n23 where x *;select n25 n24 where x *;select n26 n25 where x *;select n27 n26 where x *;select n28 n27 where x *;select n29 n28 where x *;select n30 n29 where x *;select n31 n30 where x *;select n32 n31 where x *;select n33 n32 where x *;select n34 n33 where x *;select n35 n34 where x *;select n36 n35 where x *;select n37 n36 where x *;select n38 n37 where x *;select n39 n38 where x *;select n40 n39 where x *;select n41 n40 where x *;select n42 n41 where x *;select n43 n42 where x *;select n44 n43 where x *;select n45 n44 where x *;select n46 n45 where x *;select n47 n46 where x *;select n48 n47 where x *;select n49 n48 where x *;select n50 n49 where x *;select n51 n50 where x *;select n52 n51 where x *;select n53 n52 where x *;select n54 n53 where x *;select n55 n54 where x *;select n56 n55 where x *;select n57 n56 where x *;select n58 n57 where x *;select n59 n58 where x *;select n60 n59 where x *;select n61 n60 where x *;select n62 n61 where x *;select n63 n62 where x *;output n63; => =\n",
    "plan 1;stream a a0:int a1:int a2:int a3:int a4:int a5:int a6:int a7:int a8:int a9:int a10:int a11:int a12:int a13:int a14:int a15:int a16:int a17:int a18:int a19:int a20:int a21:int a22:int a23:int a24:int a25:int a26:int a27:int a28:int a29:int a30:int a31:int a32:int a33:int a34:int a35:int a36:int a37:int a38:int a39:int a40:int a41:int a42:int a43:int a44:int a45:int a46:int a47:int a48:int a49:int a50:int a51:int a52:int a53:int a54:int a55:int a56:int a57:int a58:int a59:int;stream b b0:int b1:int b2:int b3:int b4:int b5:int b6:int b7:int b8:int b9:int b10:int b11:int b12:int b13:int b14:int b15:int b16:int b17:int b18:int b19:int b20:int b21:int b22:int b23:int b24:int b25:int b26:int b27:int b28:int b29:int b30:int b31:int b32:int b33:int b34:int b35:int b36:int b37:int b38:int b39:int b40:int b41:int b42:int b43:int b44:int b45:int b46:int b47:int b48:int b49:int b50:int b51:int b52:int b53:int b54:int b55:int b56:int b57:int b58:int b59:int;join j a b on a0=b0;output j; => =",
);

// Plans with a line of no form, each with the line and the name of its fault.
const MISSHAPEN: &str = concat!(
    " => 1 NotAPlan\n",
    "#;; => 3 NotAPlan\n",
    "\" => 1 NotAPlan\n",
    "stream s x:int;plan 1 => 1 NotAPlan\n",
    "plan 2 => 1 NotAPlan\n",
    "plan 1 1 => 1 NotAPlan\n",
    "foo;plan 1 => 1 NotAPlan\n",
    "plan 1;#;count s => 3 UnknownStatement\n",
    "plan 1;plan 1 => 2 UnknownStatement\n",
    "plan 1;plan 2 => 2 UnknownStatement\n",
    "plan 1;stream s x:int;output s;foo => 4 UnknownStatement\n",
    "plan 1;stream s => 2 BadShape\n",
    "plan 1;stream by x:int => 2 BadShape\n",
    "plan 1;stream s of:int => 2 BadShape\n",
    "plan 1;stream s x:real => 2 BadShape\n",
    "plan 1;stream S x:int => 2 BadShape\n",
    "plan 1;stream s x:int;stream s => 3 BadShape\n",
    "plan 1;scheme s => 2 BadShape\n",
    "plan 1;scheme s + * => 2 BadShape\n",
    "plan 1;select a s where x => 2 BadShape\n",
    "plan 1;select a s on x 1 => 2 BadShape\n",
    "plan 1;select a s where x null => 2 BadShape\n",
    "plan 1;project p s x=y=z => 2 BadShape\n",
    "plan 1;project p s => 2 BadShape\n",
    "plan 1;union u s => 2 BadShape\n",
    "plan 1;join j s on x=y => 2 BadShape\n",
    "plan 1;join j s t on x => 2 BadShape\n",
    "plan 1;join j s t on => 2 BadShape\n",
    "plan 1;join j s t on x=y on => 2 BadShape\n",
    "plan 1;group g s by x of n=sum => 2 BadShape\n",
    "plan 1;group g s by x of count => 2 BadShape\n",
    "plan 1;group g s by of n=count => 2 BadShape\n",
    "plan 1;output s s => 2 BadShape\n",
    "plan 1;output => 2 BadShape\n",
    "plan 1;stream s x:int;output s;\" => 4 Unreadable\n",
    "plan 1;stream s x:int ;scheme s \"+ => 3 Unreadable",
);

// Plans with a statement that does not suit those before it.
const UNFIT: &str = concat!(
    "plan 1;stream s x:int;stream s y:int => 3 NameTwice\n",
    "plan 1;stream s x:int;project s s x => 3 NameTwice\n",
    "plan 1;stream s x:int;union s t u => 3 NameTwice\n",
    "plan 1;stream s x:int;output s;stream s y:int => 4 NameTwice\n",
    "plan 1;scheme s + => 2 UnknownName\n",
    "plan 1;stream s x:int;select p t where y 1 => 3 UnknownName\n",
    "plan 1;stream s x:int;project p s x;scheme p + => 4 UnknownName\n",
    "plan 1;stream s x:int;join j s t on x=x => 3 UnknownName\n",
    "plan 1;stream s x:int;select p s where y 1 => 3 UnknownColumn\n",
    "plan 1;stream s x:int;select p s where x \"\" y 1 => 3 UnknownColumn\n",
    "plan 1;stream s x:int;project p s z=y z=x => 3 UnknownColumn\n",
    "plan 1;stream s x:int;stream t y:int;join j s t on x=z => 4 UnknownColumn\n",
    "plan 1;stream s x:int;group g s by y of n=count => 3 UnknownColumn\n",
    "plan 1;stream s x:int;group g s by x of n=max:y => 3 UnknownColumn\n",
    "plan 1;stream s x:int;group g s by x of n=count m=min:n => 3 UnknownColumn\n",
    "plan 1;stream s x:int x:text => 2 ColumnTwice\n",
    "plan 1;stream s x:int;project p s x x => 3 ColumnTwice\n",
    "plan 1;stream s x:int;stream t x:int;join j s t on x=x => 4 ColumnTwice\n",
    "plan 1;stream s x:int;join j s s on x=x => 3 ColumnTwice\n",
    "plan 1;stream s x:text;group g s by x of x=sum:x => 3 ColumnTwice\n",
    "plan 1;stream s x:int;stream t y:text;union u s t => 4 KindsDiffer\n",
    "plan 1;stream s x:int;stream t y:int z:int;union u s t => 4 KindsDiffer\n",
    "plan 1;stream s x:int y:text;stream t z:int;join j s t on x=y => 4 KindsDiffer\n",
    "plan 1;stream s x:int;select p s where x \"a\" => 3 KindsDiffer\n",
    "plan 1;stream s x:int;select p s where x {1|\"\"} => 3 KindsDiffer\n",
    "plan 1;stream s x:text;group g s by x of n=sum:x => 3 KindsDiffer\n",
    "plan 1;stream s x:int y:int;stream t z:int;join j s t on x=y => 4 BadClass\n",
    "plan 1;stream s x:int y:int;stream t z:int;join j s t on x=z y=z => 4 BadClass\n",
    "plan 1;stream s x:int;stream t y:int;join j s t on x=y=x => 4 BadClass\n",
    "plan 1;stream s x:int y:int;scheme s + => 3 BadScheme\n",
    "plan 1;stream s x:int y:int;scheme s + + + => 3 BadScheme\n",
    "plan 1;stream s x:int;scheme s _ => 3 BadScheme\n",
    "plan 1;stream s x:int;project p s x;project q s x => 4 UsedTwiceOrNever\n",
    "plan 1;stream s x:int;union u s s => 3 UsedTwiceOrNever\n",
    "plan 1;stream s x:int;stream t y:int;output s => 4 UsedTwiceOrNever\n",
    "plan 1;stream s x:int;output s;output s => 4 UsedTwiceOrNever\n",
    "plan 1;stream s x:int;output s;project p s x => 4 UsedTwiceOrNever\n",
    "plan 1;stream s x:int;stream t y:int => 4 Output\n",
    "plan 1;;stream s x:int;; => 5 Output\n",
    "plan 1;stream s x:int;output s;stream t y:int => 4 Output\n",
    "plan 1;stream s x:int;output s;scheme s + => 4 Output",
);

// Plans one beyond a limit, and at the limits of a line.
const TOO_WIDE: &str = concat!(
    "plan 1;stream s0 x:int;stream s1 x:int;stream s2 x:int;stream s3 x:int;stream s4 x:int;stream s5 x:int;stream s6 x:int;stream s7 x:int;stream s8 x:int;stream s9 x:int;stream s10 x:int;stream s11 x:int;stream s12 x:int;stream s13 x:int;stream s14 x:int;stream s15 x:int;stream t x:int => 18 TooMany\n",
    "plan 1;stream s x:int;scheme s +;scheme s +;scheme s +;scheme s +;scheme s +;scheme s +;scheme s +;scheme s +;scheme s +;scheme s +;scheme s +;scheme s +;scheme s +;scheme s +;scheme s +;scheme s +;scheme s +; => 19 TooMany\n",
    "plan 1;stream s c0:int c1:int c2:int c3:int c4:int c5:int c6:int c7:int c8:int c9:int c10:int c11:int c12:int c13:int c14:int c15:int c16:int c17:int c18:int c19:int c20:int c21:int c22:int c23:int c24:int c25:int c26:int c27:int c28:int c29:int c30:int c31:int c32:int c33:int c34:int c35:int c36:int c37:int c38:int c39:int c40:int c41:int c42:int c43:int c44:int c45:int c46:int c47:int c48:int c49:int c50:int c51:int c52:int c53:int c54:int c55:int c56:int c57:int c58:int c59:int c60:int c61:int c62:int c63:int c64:int c65:int c66:int c67:int c68:int c69:int c70:int c71:int c72:int c73:int c74:int c75:int c76:int c77:int c78:int c79:int c80:int c81:int c82:int c83:int c84:int c85:int c86:int c87:int c88:int c89:int c90:int c91:int c92:int c93:int c94:int c95:int c96:int c97:int c98:int c99:int c100:int c101:int c102:int c103:int c104:int c105:int c106:int c107:int c108:int c109:int c110:int c111:int c112:int c113:int c114:int c115:int c116:int c117:int c118:int c119:int c120:int => 2 TooMany\n",
    "plan 1;stream a a0:int a1:int a2:int a3:int a4:int a5:int a6:int a7:int a8:int a9:int a10:int a11:int a12:int a13:int a14:int a15:int a16:int a17:int a18:int a19:int a20:int a21:int a22:int a23:int a24:int a25:int a26:int a27:int a28:int a29:int a30:int a31:int a32:int;stream b b0:int b1:int b2:int b3:int b4:int b5:int b6:int b7:int b8:int b9:int b10:int b11:int b12:int b13:int b14:int b15:int b16:int b17:int b18:int b19:int b20:int b21:int b22:int b23:int b24:int b25:int b26:int b27:int b28:int b29:int b30:int b31:int b32:int;join j a b on a0=b0 a1=b1 a2=b2 a3=b3 a4=b4 a5=b5 a6=b6 a7=b7 a8=b8 a9=b9 a10=b10 a11=b11 a12=b12 a13=b13 a14=b14 a15=b15 a16=b16 a17=b17 a18=b18 a19=b19 a20=b20 a21=b21 a22=b22 a23=b23 a24=b24 a25=b25 a26=b26 a27=b27 a28=b28 a29=b29 a30=b30 a31=b31 a32=b32 => 4 TooMany\n",
    "plan 1;stream n0 x:int;select n1 n0 where x *;select n2 n1 where x *;select n3 n2 where x *;select n4 n3 where x *;select n5 n4 where x *;select n6 n5 where x *;select n7 n6 where x *;select n8 n7 where x *;select n9 n8 where x *;select n10 n9 where x *;select n11 n10 where x *;select n12 n11 where x *;select n13 n12 where x *;select n14 n13 where x *;select n15 n14 where x *;select n16 n15 where x *;select n17 n16 where x *;select n18 n17 where x *;select n19 n18 where x *;select n20 n19 where x *;select n21 n20 where x *;select n22 n21 where x *;select n23 n22 where x *;select n24 n23 where x *;select n25 n24 where x *;select n26 n25 where x *;select n27 n26 where x *;select n28 n27 where x *;select n29 n28 where x *;select n30 n29 where x *;select n31 n30 where x *;select n32 n31 where x *;select n33 n32 where x *;select n34 n33 where x *;select n35 n34 where x *;select n36 n35 where x *;select n37 n36 where x *;select n38 n37 where x *;select n39 n38 where x *;select n40 n39 where x *;select n41 n40 where x *;select n42 n41 where x *;select n43 n42 where x *;select n44 n43 where x *;select n45 n44 where x *;select n46 n45 where x *;select n47 n46 where x *;select n48 n47 where x *;select n49 n48 where x *;select n50 n49 where x *;select n51 n50 where x *;select n52 n51 where x *;select n53 n52 where x *;select n54 n53 where x *;select n55 n54 where x *;select n56 n55 where x *;select n57 n56 where x *;select n58 n57 where x *;select n59 n58 where x *;select n60 n59 where x *;select n61 n60 where x *;select n62 n61 where x *;select n63 n62 where x *;select n64 n63 where x *;output n64 => 66 TooMany\n",
    "plan 1;stream s x:int;scheme s + + + + + + + + + + + + + + + + + + + + + + + + + + + + + + + + + + + + + + + + + + + + + + + + + + + + + + + + + + + + + + + + + + + + + + + + + + + + + + + + + + + + + + + + + + + + + + + + + + + + + + + + + + + + + + + + + + + + + + + + + + + + + + => 3 BadScheme\n",
    "plan 1;stream s x:int;scheme s + + + + + + + + + + + + + + + + + + + + + + + + + + + + + + + + + + + + + + + + + + + + + + + + + + + + + + + + + + + + + + + + + + + + + + + + + + + + + + + + + + + + + + + + + + + + + + + + + + + + + + + + + + + + + + + + + + + + + + + + + + + + + + + => 3 Unreadable\n",
    "plan 1;stream s c0:int c1:int c2:int c3:int c4:int c5:int c6:int c7:int c8:int c9:int c10:int c11:int c12:int c13:int c14:int c15:int c16:int c17:int c18:int c19:int c20:int c21:int c22:int c23:int c24:int c25:int c26:int c27:int c28:int c29:int c30:int c31:int c32:int c33:int c34:int c35:int c36:int c37:int c38:int c39:int c40:int c41:int c42:int c43:int c44:int c45:int c46:int c47:int c48:int c49:int c50:int c51:int c52:int c53:int c54:int c55:int c56:int c57:int c58:int c59:int c60:int c61:int c62:int c63:int c64:int c65:int c66:int c67:int c68:int c69:int c70:int c71:int c72:int c73:int c74:int c75:int c76:int c77:int c78:int c79:int c80:int c81:int c82:int c83:int c84:int c85:int c86:int c87:int c88:int c89:int c90:int c91:int c92:int c93:int c94:int c95:int c96:int c97:int c98:int c99:int c100:int c101:int c102:int c103:int c104:int c105:int c106:int c107:int c108:int c109:int c110:int c111:int c112:int c113:int c114:int c115:int c116:int c117:int c118:int c119:int c120:int c121:int c122:int c123:int c124:int c125:int => 2 TooMany\n",
    "plan 1;stream s c0:int c1:int c2:int c3:int c4:int c5:int c6:int c7:int c8:int c9:int c10:int c11:int c12:int c13:int c14:int c15:int c16:int c17:int c18:int c19:int c20:int c21:int c22:int c23:int c24:int c25:int c26:int c27:int c28:int c29:int c30:int c31:int c32:int c33:int c34:int c35:int c36:int c37:int c38:int c39:int c40:int c41:int c42:int c43:int c44:int c45:int c46:int c47:int c48:int c49:int c50:int c51:int c52:int c53:int c54:int c55:int c56:int c57:int c58:int c59:int c60:int c61:int c62:int c63:int c64:int c65:int c66:int c67:int c68:int c69:int c70:int c71:int c72:int c73:int c74:int c75:int c76:int c77:int c78:int c79:int c80:int c81:int c82:int c83:int c84:int c85:int c86:int c87:int c88:int c89:int c90:int c91:int c92:int c93:int c94:int c95:int c96:int c97:int c98:int c99:int c100:int c101:int c102:int c103:int c104:int c105:int c106:int c107:int c108:int c109:int c110:int c111:int c112:int c113:int c114:int c115:int c116:int c117:int c118:int c119:int c120:int c121:int c122:int c123:int c124:int c125:int c126:int => 2 Unreadable\n",
    "plan 1;stream a a0:int a1:int a2:int a3:int a4:int a5:int a6:int a7:int a8:int a9:int a10:int a11:int a12:int a13:int a14:int a15:int a16:int a17:int a18:int a19:int a20:int a21:int a22:int a23:int a24:int a25:int a26:int a27:int a28:int a29:int a30:int a31:int a32:int a33:int a34:int a35:int a36:int a37:int a38:int a39:int a40:int a41:int a42:int a43:int a44:int a45:int a46:int a47:int a48:int a49:int a50:int a51:int a52:int a53:int a54:int a55:int a56:int a57:int a58:int a59:int a60:int;stream b b0:int b1:int b2:int b3:int b4:int b5:int b6:int b7:int b8:int b9:int b10:int b11:int b12:int b13:int b14:int b15:int b16:int b17:int b18:int b19:int b20:int b21:int b22:int b23:int b24:int b25:int b26:int b27:int b28:int b29:int b30:int b31:int b32:int b33:int b34:int b35:int b36:int b37:int b38:int b39:int b40:int b41:int b42:int b43:int b44:int b45:int b46:int b47:int b48:int b49:int b50:int b51:int b52:int b53:int b54:int b55:int b56:int b57:int b58:int b59:int b60:int;join j a b on a0=b0 => 4 TooMany",
);

#[test]
fn plans(rt: HostRuntime) {
    for rows in [GOOD, WIDE, MISSHAPEN, UNFIT, TOO_WIDE] {
        assert_eq!(rt; first_wrong(rt.alloc(), rows, Question::Text), Ok(None));
    }
}

// What these lines state.
fn stated_lines()
    ensures version { line_stated (codes "plan 1") ≡ PlanLine 1 }
    ensures other { line_stated (codes "plan 2") ≡ Bad UnknownStatement }
    ensures form { line_stated (codes "output") ≡ Bad BadShape }
    ensures unclosed { line_stated (codes "output \"") ≡ Bad Unreadable }
{}
