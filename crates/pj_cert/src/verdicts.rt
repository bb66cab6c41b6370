// What is printed of an input of a join.
ghost use Rattle.std.specs.Prelude.{◌≡◌, ◌++◌, drop, IfOk, OnOk, OnErr};
ghost use Rattle.std.specs.List.{flat_map};
ghost use Rattle.pj_cert.specs.Verdicts.{mark_text as mark_bytes, name_of as named, marks_of, step_text, steps_text, more_text, names_text};
ghost use Rattle.pj_cert.specs.Verdicts.{head_text, whole_text, stuck_text, missing_text, unreached_text, reached_text, verdict_of};
ghost use Rattle.pj_shape.specs.Sets.{schemes_of};

use pj_graph::Reach;
use pj_shape::{Cert, CertStep, JoinSpec, Scheme, Schemes};
use pj_value::{Bytes, List, NoMemory};
use std::alloc::Global;

/// Appends the lines of an input of the join with this name: `# safe join J input I: K by + _, ..` with its certificate, or
/// `# unsafe join J input I: cannot reach M` and `# reached: I ..`. On a refusal `out` is as it was.
pub fn verdict_text(
    alloc: Global,
    _spec: &JoinSpec,
    schemes: &Schemes,
    join: &[u8],
    names: &[Bytes],
    input: u32,
    found: &Reach,
    out: &mut List<u8>,
) -> Result<(), NoMemory>
    ensures ok { OnOk result (out.new ≡ out.old ++ verdict_of schemes.now join.now names.now input found.now) }
    ensures err { OnErr result (out.new ≡ out.old) }
{
    let mut text = List::new(alloc);
    append_verdict(schemes, join, names, input, found, &mut text)?;
    out.append(text.as_slice())?;
    Ok(())
}

/// The first line of a stuck input of the join with this name: `# unsafe join J input I: cannot reach M`, with a line feed.
pub fn unreached_line(
    alloc: Global,
    join: &[u8],
    names: &[Bytes],
    input: u32,
    missing: u32,
) -> Result<Bytes, NoMemory>
    ensures { IfOk result (λ line. line ≡ unreached_text join.now names.now input missing) }
{
    let mut line = List::new(alloc);
    append_unreached(join, names, input, missing, &mut line)?;
    Ok(line)
}

/// The second line of a stuck input, with the inputs that it reaches: `# reached: I ..`, with a line feed.
pub fn reached_line(alloc: Global, names: &[Bytes], reached: &[u32]) -> Result<Bytes, NoMemory>
    ensures { IfOk result (λ line. line ≡ reached_text names.now reached.now) }
{
    let mut line = List::new(alloc);
    append_reached(names, reached, &mut line)?;
    Ok(line)
}

fn append_verdict(
    schemes: &Schemes,
    join: &[u8],
    names: &[Bytes],
    input: u32,
    found: &Reach,
    text: &mut List<u8>,
) -> Result<(), NoMemory>
    ensures { OnOk result (text.new ≡ text.old ++ verdict_of schemes.now join.now names.now input found.now) }
{
    match found {
        Reach::All(cert) => append_whole(schemes, join, names, input, cert, text)?,
        Reach::Stuck { reached, missing } => append_stuck(
            join,
            names,
            input,
            reached.as_slice(),
            *missing,
            text,
        )?,
    }
    Ok(())
}

fn append_whole(
    schemes: &Schemes,
    join: &[u8],
    names: &[Bytes],
    input: u32,
    cert: &Cert,
    text: &mut List<u8>,
) -> Result<(), NoMemory>
    ensures { OnOk result (text.new ≡ text.old ++ whole_text schemes.now join.now names.now input cert.now) }
{
    append_head(b"# safe join ", join, name_of(names, input), text)?;
    append_steps(schemes, names, cert, text)?;
    text.append(b"\n")?;
    Ok(())
}

fn append_stuck(
    join: &[u8],
    names: &[Bytes],
    input: u32,
    reached: &[u32],
    missing: u32,
    text: &mut List<u8>,
) -> Result<(), NoMemory>
    ensures { OnOk result (text.new ≡ text.old ++ stuck_text join.now names.now input reached.now missing) }
{
    append_unreached(join, names, input, missing, text)?;
    append_reached(names, reached, text)?;
    Ok(())
}

fn append_unreached(
    join: &[u8],
    names: &[Bytes],
    input: u32,
    missing: u32,
    text: &mut List<u8>,
) -> Result<(), NoMemory>
    ensures { OnOk result (text.new ≡ text.old ++ unreached_text join.now names.now input missing) }
{
    append_head(b"# unsafe join ", join, name_of(names, input), text)?;
    append_missing(name_of(names, missing), text)?;
    Ok(())
}

fn append_missing(name: &[u8], text: &mut List<u8>) -> Result<(), NoMemory>
    ensures { OnOk result (text.new ≡ text.old ++ missing_text name.now) }
{
    text.append(b" cannot reach ")?;
    text.append(name)?;
    text.append(b"\n")?;
    Ok(())
}

fn append_reached(names: &[Bytes], reached: &[u32], text: &mut List<u8>) -> Result<(), NoMemory>
    ensures { OnOk result (text.new ≡ text.old ++ reached_text names.now reached.now) }
{
    text.append(b"# reached:")?;
    append_names(names, reached, text)?;
    text.append(b"\n")?;
    Ok(())
}

fn append_head(word: &[u8], join: &[u8], input: &[u8], text: &mut List<u8>) -> Result<(), NoMemory>
    ensures { OnOk result (text.new ≡ text.old ++ head_text word.now join.now input.now) }
{
    text.append(word)?;
    text.append(join)?;
    text.append(b" input ")?;
    text.append(input)?;
    text.append(b":")?;
    Ok(())
}

fn append_steps(
    schemes: &Schemes,
    names: &[Bytes],
    cert: &Cert,
    text: &mut List<u8>,
) -> Result<(), NoMemory>
    ensures { OnOk result (text.new ≡ text.old ++ steps_text schemes.now names.now cert.now) }
{
    if cert.len() == 0 {
        return Ok(());
    }
    append_step(schemes, names, *cert.at(0), text)?;
    append_more(schemes, names, cert, text)?;
    Ok(())
}

fn append_more(
    schemes: &Schemes,
    names: &[Bytes],
    cert: &Cert,
    text: &mut List<u8>,
) -> Result<(), NoMemory>
    ensures { OnOk result (text.new ≡ text.old ++ more_text schemes.now names.now (drop 1 cert.now)) }
{
    for n in 1..cert.len() {
        text.append(b",")?;
        append_step(schemes, names, *cert.at(n), text)?;
    }
    Ok(())
}

fn append_step(
    schemes: &Schemes,
    names: &[Bytes],
    step: CertStep,
    text: &mut List<u8>,
) -> Result<(), NoMemory>
    ensures { OnOk result (text.new ≡ text.old ++ step_text schemes.now names.now step) }
{
    text.append(b" ")?;
    text.append(name_of(names, step.input))?;
    text.append(b" by")?;
    append_scheme(schemes, step, text)?;
    Ok(())
}

fn append_scheme(schemes: &Schemes, step: CertStep, text: &mut List<u8>) -> Result<(), NoMemory>
    ensures { OnOk result (text.new ≡ text.old ++ flat_map mark_bytes (marks_of schemes.now step)) }
{
    match list_of(schemes, step.input).get(step.scheme as usize) {
        None => {}
        Some(scheme) => append_marks(scheme, text)?,
    }
    Ok(())
}

fn list_of(schemes: &Schemes, input: u32) -> &[Scheme]
    ensures { result.now ≡ schemes_of schemes.now input }
{
    if (input as usize) < schemes.len() {
        schemes.at(input as usize).as_slice()
    } else {
        &[]
    }
}

fn append_marks(scheme: &Scheme, text: &mut List<u8>) -> Result<(), NoMemory>
    ensures { OnOk result (text.new ≡ text.old ++ flat_map mark_bytes scheme.now) }
{
    for column in 0..scheme.len() {
        text.append(mark_text(*scheme.at(column)))?;
    }
    Ok(())
}

fn mark_text(mark: bool) -> &'static [u8]
    ensures { result.now ≡ mark_bytes mark }
{
    if mark { b" +" } else { b" _" }
}

fn append_names(names: &[Bytes], inputs: &[u32], text: &mut List<u8>) -> Result<(), NoMemory>
    ensures { OnOk result (text.new ≡ text.old ++ names_text names.now inputs.now) }
{
    for input in inputs {
        text.append(b" ")?;
        text.append(name_of(names, *input))?;
    }
    Ok(())
}

fn name_of(names: &[Bytes], input: u32) -> &[u8]
    ensures { result.now ≡ named names.now input }
{
    name_at(names, input as usize)
}

/// The name of an input.
pub(crate) fn name_at(names: &[Bytes], input: usize) -> &[u8]
    ensures { result.now ≡ named names.now input }
{
    match names.get(input) {
        None => &[],
        Some(name) => name.as_slice(),
    }
}
