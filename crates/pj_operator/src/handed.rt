// What a core hands out.
ghost use Rattle.std.specs.Prelude.{◌≡◌, true, [], ◌∷◌, ◌++◌, OnOk, OnErr, length, take};
ghost use Rattle.pj_events.specs.History.{out_of};
ghost use Rattle.pj_operator.specs.Handed.{notes_out};

use pj_events::Out;
use pj_pattern::Element;
use pj_value::{List, NoMemory, Row};

/// Puts an element at the end; on a refusal the list is as before.
pub fn hand_out(outs: &mut List<Out>, element: Element) -> Result<(), NoMemory>
    ensures ok { OnOk result (outs.new ≡ outs.old ++ out_of element ∷ []) }
    ensures err { OnErr result (outs.new ≡ outs.old) }
{
    match element {
        Element::Tuple(row) => outs.push(Out::Tuple(row)),
        Element::Punct(punct) => outs.push(Out::Punct(punct)),
    }
}

/// With a trace, puts a note of each of these rows, which a sweep of an input of a join removed, at the end. On a refusal the
/// list begins as before.
pub fn hand_out_notes(
    outs: &mut List<Out>,
    trace: bool,
    join: u32,
    input: u32,
    removed: List<Row>,
) -> Result<(), NoMemory>
    ensures ok { OnOk result (outs.new ≡ outs.old ++ notes_out trace join input removed) }
    ensures err { OnErr result (take (length outs.old) outs.new ≡ outs.old) }
{
    if trace {
        append_notes(outs, join, input, removed)?;
    }
    Ok(())
}

fn append_notes(
    outs: &mut List<Out>,
    join: u32,
    input: u32,
    removed: List<Row>,
) -> Result<(), NoMemory>
    ensures ok { OnOk result (outs.new ≡ outs.old ++ notes_out true join input removed) }
    ensures err { OnErr result (take (length outs.old) outs.new ≡ outs.old) }
{
    for row in removed.into_vec() {
        outs.push(Out::Purged { join, input, row })?;
    }
    Ok(())
}
