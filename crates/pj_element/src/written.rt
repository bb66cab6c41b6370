// The canonical spelling of a pattern.
ghost use Rattle.std.specs.Prelude.{◌≡◌, ◌++◌, ◌∷◌, [], OnOk, OnErr};
ghost use Rattle.std.specs.Option.{option_copied};
ghost use Rattle.pj_value.specs.Texts.{IsFront};
ghost use Rattle.pj_element.specs.Elements.{end_spelling, members_spelling, more_members, pattern_spelling};

use pj_pattern::{Pattern, Shape};
use pj_value::{List, NoMemory, Value, value_text};
use std::alloc::Global;

/// Appends the canonical spelling of a pattern: `*`, `{}`, a value, `[low..high]`, or `{v|v|..}`. On a refusal some of it
/// may stand.
pub(crate) fn append_pattern(
    alloc: Global,
    pattern: &Pattern,
    out: &mut List<u8>,
) -> Result<(), NoMemory>
    ensures ok { OnOk result (out.new ≡ out.old ++ pattern_spelling pattern.now) }
    ensures err { OnErr result (IsFront out.old out.new) }
{
    match pattern.shape() {
        Shape::Wild => {
            out.append(b"*")?;
            Ok(())
        }
        Shape::Empty => {
            out.append(b"{}")?;
            Ok(())
        }
        Shape::Constant(value) => {
            value_text(alloc, value, out)?;
            Ok(())
        }
        Shape::Range(low, high) => {
            append_range(alloc, low, high, out)?;
            Ok(())
        }
        Shape::Members(values) => {
            append_list(alloc, values, out)?;
            Ok(())
        }
    }
}

fn append_range(
    alloc: Global,
    low: Option<&Value>,
    high: Option<&Value>,
    out: &mut List<u8>,
) -> Result<(), NoMemory>
    ensures ok { OnOk result (out.new ≡ out.old ++ (91 ∷ end_spelling (option_copied low.entry) ++ 46 ∷ 46 ∷ end_spelling (option_copied high.entry) ++ 93 ∷ [])) }
    ensures err { OnErr result (IsFront out.old out.new) }
{
    out.push(b'[')?;
    append_end(alloc, low, out)?;
    out.append(b"..")?;
    append_end(alloc, high, out)?;
    out.push(b']')?;
    Ok(())
}

fn append_end(alloc: Global, end: Option<&Value>, out: &mut List<u8>) -> Result<(), NoMemory>
    ensures ok { OnOk result (out.new ≡ out.old ++ end_spelling (option_copied end.entry)) }
    ensures err { OnErr result (out.new ≡ out.old) }
{
    match end {
        Some(value) => {
            value_text(alloc, value, out)?;
            Ok(())
        }
        None => Ok(()),
    }
}

fn append_list(alloc: Global, values: &[Value], out: &mut List<u8>) -> Result<(), NoMemory>
    ensures ok { OnOk result (out.new ≡ out.old ++ (123 ∷ members_spelling values.now ++ 125 ∷ [])) }
    ensures err { OnErr result (IsFront out.old out.new) }
{
    out.push(b'{')?;
    append_members(alloc, values, out)?;
    out.push(b'}')?;
    Ok(())
}

fn append_members(alloc: Global, values: &[Value], out: &mut List<u8>) -> Result<(), NoMemory>
    ensures ok { OnOk result (out.new ≡ out.old ++ members_spelling values.now) }
    ensures err { OnErr result (IsFront out.old out.new) }
{
    match values {
        [] => Ok(()),
        [first, others @ ..] => {
            value_text(alloc, first, out)?;
            append_more(alloc, others, out)?;
            Ok(())
        }
    }
}

// Values behind a vertical bar each.
fn append_more(alloc: Global, values: &[Value], out: &mut List<u8>) -> Result<(), NoMemory>
    ensures ok { OnOk result (out.new ≡ out.old ++ more_members values.now) }
    ensures err { OnErr result (IsFront out.old out.new) }
{
    for value in values {
        out.push(b'|')?;
        value_text(alloc, value, out)?;
    }
    Ok(())
}
