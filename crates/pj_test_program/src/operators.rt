// The exact bytes of runs of every operator, and what a check counts of them.
use crate::cases::{case_of, ends};
use crate::examples::ORDERS_PLAN;
use pj_engine::Status;
use pj_value::NoMemory;
use std::sync::Wait;
use std::thread::Threads;

const DONE: Option<Status> = Some(Status::Done);

// Whether the run of a plan over these files ends well and writes this, and the line of a check behind it where the second command
// asks for one.
fn runs_and_checks<'a>(
    rt: &(impl AllocGlobal + Threads + Wait + Sync),
    commands: [&'a str; 2],
    plan: &'a [u8],
    files: [&'a [u8]; 3],
    want: &[u8],
    check: &[u8],
) -> Result<bool, NoMemory> {
    let [command, checking] = commands;
    let [a, b, c] = files;
    let plainly = case_of(command, [plan, b"", a, b, c]);
    let checked = case_of(checking, [plan, b"", a, b, c]);
    Ok(ends(rt, &plainly, want, b"")? == DONE && ends(rt, &checked, want, check)? == DONE)
}

#[test]
fn selects_projects_and_unions_run(rt: HostRuntime) {
    for (name, commands, plan, files, want, check) in [
        (
            "a select and a project",
            ["run --workers=0 plan a", "run --workers=0 --check plan a"],
            b"plan 1\nstream s k:int v:text\nselect f s where k [1..9] k [3..]\nproject g f v\noutput g\n".as_slice(),
            [
                b"t 5 \"a\"\nt 12 \"b\"\np * \"a\"\np 5 *\nt 6 \"a\"\n".as_slice(),
                b"",
                b"",
            ],
            b"t \"a\"\np \"a\"\np *\n# stream s tuples 2 punctuations 2 rejected 1\n# reject s line 5 closed by line 3\n# results 1 punctuations 2\n".as_slice(),
            b"# check 1\n".as_slice(),
        ),
        (
            "a union",
            [
                "run --workers=0 plan a b",
                "run --workers=0 plan a b --check",
            ],
            b"plan 1\nstream l v:int\nstream r w:int\nunion u l r\noutput u\n",
            [b"t 5\np [1..9]\n", b"t 5\np 5\n", b""],
            b"t 5\nt 5\np 5\np [1..9]\np *\np *\n# stream l tuples 1 punctuations 1 rejected 0\n# stream r tuples 1 punctuations 1 rejected 0\n# results 2 punctuations 4\n",
            b"# check 2\n",
        ),
    ] {
        let ended = runs_and_checks(&rt, commands, plan, files, want, check);
        assert_eq!(rt; ended, Ok(true), "at {name}");
    }
}

// A group's row goes out once a punctuation closes it: one on another column than the group's closes none. A sum is exact and
// stops at the bounds of 64 bits, both ways.
#[test]
fn groups_run(rt: HostRuntime) {
    for (name, plan, file, want) in [
        (
            "a sum",
            b"plan 1\nstream bids item:int price:int\ngroup g bids by item of n=count total=sum:price\noutput g\n".as_slice(),
            b"t 1 50\nt 2 7\nt 1 60\np * 50\np 1 *\nt 2 9223372036854775807\n".as_slice(),
            b"t 1 2 110\np 1 * *\nt 2 2 9223372036854775807\np * * *\n# stream bids tuples 4 punctuations 2 rejected 0\n# results 2 punctuations 2\n".as_slice(),
        ),
        (
            "bounds of sums",
            b"plan 1\nstream s k:int v:text n:int\ngroup g s by k of low=min:v high=max:v total=sum:n\noutput g\n",
            b"t 1 \"b\" 9223372036854775807\nt 1 \"\" 9223372036854775807\nt 2 \"x\" -9223372036854775808\nt 1 \"ba\" -1\nt 2 \"X\" -9223372036854775808\np 2 * *\n",
            b"t 2 \"X\" \"x\" -9223372036854775808\np 2 * * *\nt 1 \"\" \"ba\" 9223372036854775807\np * * * *\n# stream s tuples 5 punctuations 1 rejected 0\n# results 2 punctuations 2\n",
        ),
    ] {
        let commands = ["run --workers=0 plan a", "run --workers=0 plan --check a"];
        let files = [file, b"", b""];
        let check = b"# check 2\n";
        let ended = runs_and_checks(&rt, commands, plan, files, want, check);
        assert_eq!(rt; ended, Ok(true), "at {name}");
    }
}

// A join over a join, and a join over a select below a project and a group.
#[test]
fn trees_of_operators_run(rt: HostRuntime) {
    for (name, plan, files, want) in [
        (
            "a join over a join",
            b"plan 1\nstream a x:int\nstream b y:int\nstream c z:int\nscheme a +\nscheme b +\nscheme c +\njoin j a b on x=y\njoin k j c on y=z\noutput k\n".as_slice(),
            [b"t 1\n".as_slice(), b"t 1\n", b"t 1\n"],
            b"t 1 1 1\np * * *\np * * *\np * * *\n# stream a tuples 1 punctuations 0 rejected 0\n# stream b tuples 1 punctuations 0 rejected 0\n# stream c tuples 1 punctuations 0 rejected 0\n# results 1 punctuations 3\n# peak j 2\n# peak k 2\n".as_slice(),
        ),
        (
            "a join below a group",
            ORDERS_PLAN,
            [
                b"t 1 \"ann\"\np 1 *\nt 2 \"bob\"\np 2 *\n",
                b"t 1 40\nt 1 5\nt 1 60\np 1 *\n",
                b"t 1 \"east\"\np [..9] *\n",
            ],
            b"t 1 \"ann\" 100\np 1 * *\np * * *\np * * *\np 2 * *\np * * *\n# stream orders tuples 2 punctuations 2 rejected 0\n# stream pays tuples 3 punctuations 1 rejected 0\n# stream ships tuples 1 punctuations 1 rejected 0\n# results 1 punctuations 5\n# peak j 4\n",
        ),
    ] {
        let commands = [
            "run --workers=0 plan a b c",
            "run --workers=0 plan a b c --check",
        ];
        let check = b"# check 1\n";
        let ended = runs_and_checks(&rt, commands, plan, files, want, check);
        assert_eq!(rt; ended, Ok(true), "at {name}");
    }
}
