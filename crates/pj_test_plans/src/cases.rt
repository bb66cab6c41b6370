// Plans by their text, and what is answered of them, as text. A plan that has a fault where none is expected counts as want of
// memory, which no test expects.
use crate::joins::{append_reaches, join_in};
use pj_judge::{Judged, Unsafe, check_text, judge};
use pj_plan::{Plan, PlanFault, PlanStop};
use pj_plan_text::{plan_text, read_plan};
use pj_safety::PlanRisk;
use pj_scheme::derived;
use pj_shape::{Cert, Scheme, Schemes};
use pj_value::{List, NoMemory};
use std::alloc::Global;

// What is asked of a plan.
#[derive(Clone, Copy)]
pub(crate) enum Question {
    // The canonical text of a copy of it.
    Text,
    // What a check tells of it, and whether it prints the plan.
    Check { print: bool },
    // The certificates of its joins, or why it is unsafe.
    Judgment,
    // The schemes of its nodes.
    Schemes,
    // The schemes of the inputs of its first join.
    InputSchemes,
    // What each input of its first join reaches.
    Reaches,
}

// The bytes, with a line feed for each semicolon.
fn lines(alloc: Global, text: &str) -> Result<List<u8>, NoMemory> {
    let mut bytes = List::new(alloc);
    for byte in text.as_bytes() {
        bytes.push(if *byte == b';' { b'\n' } else { *byte })?;
    }
    Ok(bytes)
}

// The plan of these lines.
pub(crate) fn plan_of(alloc: Global, text: &str) -> Result<Plan, NoMemory> {
    let bytes = lines(alloc, text)?;
    match read_plan(alloc, bytes.as_slice()) {
        Ok(plan) => Ok(plan),
        Err(_) => Err(NoMemory),
    }
}

// The line and the name of a fault.
fn append_fault(alloc: Global, fault: PlanFault, out: &mut List<u8>) -> Result<(), NoMemory> {
    let told = format!(in alloc; "{} {:?}", fault.line, fault.why)?;
    out.append(told.as_bytes())
}

// The first node at a risk, the stuck input and the least that it does not reach, on a line.
fn append_risk(
    alloc: Global,
    node: u32,
    risk: PlanRisk,
    out: &mut List<u8>,
) -> Result<(), NoMemory> {
    let PlanRisk::Stuck { input, missing } = risk;
    let told = format!(in alloc; "{node} {input} {missing}\n")?;
    out.append(told.as_bytes())
}

fn append_check(
    alloc: Global,
    plan: &Plan,
    print: bool,
    out: &mut List<u8>,
) -> Result<(), NoMemory> {
    let mut text = List::new(alloc);
    match check_text(alloc, plan, print, &mut text)? {
        None => out.append(b"safe\n")?,
        Some((node, risk)) => append_risk(alloc, node, risk, out)?,
    }
    out.append(text.as_slice())
}

// Each step of the certificate, by its input and its scheme, on a line.
pub(crate) fn append_cert(alloc: Global, cert: &Cert, out: &mut List<u8>) -> Result<(), NoMemory> {
    out.append(b"by")?;
    for n in 0..cert.len() {
        let step = cert.at(n);
        let told = format!(in alloc; " {}.{}", step.input, step.scheme)?;
        out.append(told.as_bytes())?;
    }
    out.push(b'\n')
}

// The certificates of a join, and an empty line.
fn append_certs(alloc: Global, certs: &[Cert], out: &mut List<u8>) -> Result<(), NoMemory> {
    for cert in certs {
        append_cert(alloc, cert, out)?;
    }
    out.push(b'\n')
}

// Where the plan is unsafe, and the lines that tell why.
fn append_unsafe(alloc: Global, found: &Unsafe, out: &mut List<u8>) -> Result<(), NoMemory> {
    append_risk(alloc, found.node, found.risk, out)?;
    for line in found.lines.as_slice() {
        out.append(line.as_slice())?;
    }
    Ok(())
}

fn append_judgment(alloc: Global, plan: &Plan, out: &mut List<u8>) -> Result<(), NoMemory> {
    match judge(alloc, plan)? {
        Judged::Safe { certs } => {
            for list in certs.as_slice() {
                append_certs(alloc, list.as_slice(), out)?;
            }
        }
        Judged::Unsafe { found } => append_unsafe(alloc, &found, out)?,
    }
    Ok(())
}

// The marks of a scheme, and a comma.
fn append_marks(scheme: &Scheme, out: &mut List<u8>) -> Result<(), NoMemory> {
    for column in 0..scheme.len() {
        out.push(if *scheme.at(column) { b'+' } else { b'_' })?;
    }
    out.push(b',')
}

fn append_list(schemes: &[Scheme], out: &mut List<u8>) -> Result<(), NoMemory> {
    for scheme in schemes {
        append_marks(scheme, out)?;
    }
    out.push(b'\n')
}

// Each list of schemes on a line.
fn append_schemes(all: &Schemes, out: &mut List<u8>) -> Result<(), NoMemory> {
    for at in 0..all.len() {
        append_list(all.at(at).as_slice(), out)?;
    }
    Ok(())
}

fn append_answer(
    alloc: Global,
    plan: &Plan,
    question: Question,
    out: &mut List<u8>,
) -> Result<(), NoMemory> {
    match question {
        Question::Text => plan_text(alloc, &plan.copy(alloc)?, out),
        Question::Check { print } => append_check(alloc, plan, print, out),
        Question::Judgment => append_judgment(alloc, plan, out),
        Question::Schemes => append_schemes(&derived(alloc, plan)?, out),
        Question::InputSchemes => append_schemes(&join_in(alloc, plan)?.schemes, out),
        Question::Reaches => append_reaches(alloc, &join_in(alloc, plan)?, out),
    }
}

// What is answered of the plan that the bytes spell, or its fault.
fn answer(alloc: Global, bytes: &[u8], question: Question) -> Result<List<u8>, NoMemory> {
    let mut out = List::new(alloc);
    match read_plan(alloc, bytes) {
        Ok(plan) => append_answer(alloc, &plan, question, &mut out)?,
        Err(PlanStop::Fault(fault)) => append_fault(alloc, fault, &mut out)?,
        Err(PlanStop::NoMemory) => return Err(NoMemory),
    }
    Ok(out)
}

// Whether this is answered of the plan of these lines.
pub(crate) fn is_told(
    alloc: Global,
    plan: &str,
    question: Question,
    want: &str,
) -> Result<bool, NoMemory> {
    let bytes = lines(alloc, plan)?;
    let wanted = lines(alloc, want)?;
    let out = answer(alloc, bytes.as_slice(), question)?;
    Ok(out.as_slice() == wanted.as_slice())
}

// The first row whose plan, in front of the arrow, is not answered by what stands behind it; `=` stands for the plan itself.
pub(crate) fn first_wrong<'a>(
    alloc: Global,
    rows: &'a str,
    question: Question,
) -> Result<Option<&'a str>, NoMemory> {
    for row in rows.split('\n') {
        let (plan, want) = row.split_once(" => ").unwrap_or((row, ""));
        let want = if want == "=" { plan } else { want };
        if !is_told(alloc, plan, question, want)? {
            return Ok(Some(row));
        }
    }
    Ok(None)
}
