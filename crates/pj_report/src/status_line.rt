// The line of a status.
ghost use Rattle.std.specs.Prelude.{◌≡◌, ◌≤◌, ◌<◌, ◌+◌, ◌++◌, IsTrue, length, codes};
ghost use Rattle.std.specs.Fmt.{decimal};
ghost use Rattle.pj_element.specs.Runs.{fed};
ghost use Rattle.pj_report.specs.Report.{status_line, HasLine, fault_words as words_of_fault};
ghost use Rattle.pj_report.specs.Written.{Delivered, HandedOn, flat};

use crate::status::{LimitOf, Status};
use arrayvec::ArrayVec;
use itoa::Buffer;
use pj_io::{Failed, Sink, write_all};
use pj_plan::PlanWhy;
use pj_value::Bytes;

// The longest line, in bytes, with its line feed: the words of a status, and a name or a number.
const LINE: usize = 80;

const USAGE: &[u8] =
    b"# usage: run PLAN FILE.. | replay PLAN SCRIPT FILE.. | check PLAN | make SEED N";

/// Writes the line of a status by one `write_all`, takes no memory for it, and hands on what the sink holds back; for an unsafe
/// plan, whose lines have names of it, it writes nothing. Where that fails, the status stays what it was. What has a limit has this
/// name, which has at most 32 bytes.
pub fn write_status<K: Sink>(name: &[u8], status: Status, out: &mut K)
    requires { length name.now ≤ 32 }
    ensures told { IsTrue (K.state out.new).told → IsTrue (K.state out.old).told }
    ensures line { Delivered (status_line name.now status) (K.state out.old) (K.state out.new) }
    ensures handed_on { HasLine status → HandedOn (K.state out.old) (K.state out.new) }
    ensures later { (K.state out.old).faults ≤ (K.state out.new).faults }
{
    let mut digits = Buffer::new();
    let _ = match status {
        Status::Done => Ok(()),
        Status::Usage => deliver(out, USAGE, b""),
        Status::PlanRefused { line, why } => write_fault(line, why, out),
        Status::FileCount { want, got } => write_counts(want, got, out),
        Status::Unsafe { .. } => Ok(()),
        Status::ScriptRefused { line } => {
            let text = digits.format(line);
            deliver(out, b"# refused script line ", text.as_bytes())
        }
        Status::OpenFault { operand } => {
            let text = digits.format(operand);
            deliver(out, b"# stopped open fault operand ", text.as_bytes())
        }
        Status::ReadFault { operand } => {
            let text = digits.format(operand);
            deliver(out, b"# stopped read fault operand ", text.as_bytes())
        }
        Status::WriteFault => Ok(()),
        Status::NoMemory => deliver(out, b"# stopped no memory", b""),
        Status::Limit { what } => match what {
            LimitOf::Plan => deliver(out, b"# stopped limit plan", b""),
            LimitOf::Script => deliver(out, b"# stopped limit script", b""),
            LimitOf::Node(_) => deliver(out, b"# stopped limit node ", name),
            LimitOf::File(_) => deliver(out, b"# stopped limit file ", name),
        },
    };
}

/// Writes these lines, each by one `write_all`, and hands on what the sink holds back. Where that fails, no more is written.
pub fn write_lines<K: Sink>(lines: &[Bytes], out: &mut K)
    ensures told { IsTrue (K.state out.new).told → IsTrue (K.state out.old).told }
    ensures lines { Delivered (flat lines.now) (K.state out.old) (K.state out.new) }
    ensures handed_on { HandedOn (K.state out.old) (K.state out.new) }
    ensures later { (K.state out.old).faults ≤ (K.state out.new).faults }
{
    let _ = deliver_lines(lines, out);
}

fn deliver_lines<K: Sink>(lines: &[Bytes], out: &mut K) -> Result<(), Failed>
    ensures told { IsTrue (K.state out.new).told → IsTrue (K.state out.old).told }
    ensures lines { Delivered (flat lines.now) (K.state out.old) (K.state out.new) }
    ensures handed_on { HandedOn (K.state out.old) (K.state out.new) }
    ensures later { (K.state out.old).faults ≤ (K.state out.new).faults }
{
    for line in lines {
        write_all(out, line.as_slice())?;
    }
    out.flush()
}

// Writes the line of a plan's fault.
fn write_fault<K: Sink>(line: u64, why: PlanWhy, out: &mut K) -> Result<(), Failed>
    ensures told { IsTrue (K.state out.new).told → IsTrue (K.state out.old).told }
    ensures line { Delivered (fed (codes "# refused plan line " ++ decimal line ++ words_of_fault why)) (K.state out.old) (K.state out.new) }
    ensures handed_on { HandedOn (K.state out.old) (K.state out.new) }
    ensures later { (K.state out.old).faults ≤ (K.state out.new).faults }
{
    let mut digits = Buffer::new();
    let number = digits.format(line);
    let mut text = pieces_of(b"# refused plan line ", number.as_bytes());
    append(&mut text, fault_words(why));
    deliver_line(out, text)
}

// Writes the line of two numbers of files.
fn write_counts<K: Sink>(want: u32, got: u32, out: &mut K) -> Result<(), Failed>
    ensures told { IsTrue (K.state out.new).told → IsTrue (K.state out.old).told }
    ensures line { Delivered (fed (codes "# refused files want " ++ decimal want ++ codes " got " ++ decimal got)) (K.state out.old) (K.state out.new) }
    ensures handed_on { HandedOn (K.state out.old) (K.state out.new) }
    ensures later { (K.state out.old).faults ≤ (K.state out.new).faults }
{
    let mut digits = Buffer::new();
    let number = digits.format(want);
    let mut text = pieces_of(b"# refused files want ", number.as_bytes());
    append(&mut text, b" got ");
    let number = digits.format(got);
    append(&mut text, number.as_bytes());
    deliver_line(out, text)
}

// The words of a plan's fault, behind its number.
fn fault_words(why: PlanWhy) -> &'static [u8]
    ensures words { result.now ≡ words_of_fault why }
    ensures few { length result.now ≤ 24 }
{
    match why {
        PlanWhy::NotAPlan => b" P1 not a plan",
        PlanWhy::UnknownStatement => b" P2 unknown statement",
        PlanWhy::BadShape => b" P3 bad shape",
        PlanWhy::NameTwice => b" P4 name given twice",
        PlanWhy::UnknownName => b" P5 unknown name",
        PlanWhy::UnknownColumn => b" P6 unknown column",
        PlanWhy::ColumnTwice => b" P7 column name twice",
        PlanWhy::KindsDiffer => b" P8 kinds differ",
        PlanWhy::BadClass => b" P9 bad class",
        PlanWhy::BadScheme => b" P10 bad scheme",
        PlanWhy::UsedTwiceOrNever => b" P11 used twice or never",
        PlanWhy::TooMany => b" P12 too many",
        PlanWhy::Output => b" P13 output",
        PlanWhy::Unreadable => b" P14 unreadable line",
    }
}

// Writes the line of these words and a name.
fn deliver<K: Sink>(out: &mut K, words: &[u8], name: &[u8]) -> Result<(), Failed>
    requires { length words.now + length name.now < LINE }
    ensures told { IsTrue (K.state out.new).told → IsTrue (K.state out.old).told }
    ensures line { Delivered (fed (words.now ++ name.now)) (K.state out.old) (K.state out.new) }
    ensures handed_on { HandedOn (K.state out.old) (K.state out.new) }
    ensures later { (K.state out.old).faults ≤ (K.state out.new).faults }
{
    deliver_line(out, pieces_of(words, name))
}

// Writes the line of this text.
fn deliver_line<K: Sink>(out: &mut K, text: ArrayVec<u8, LINE>) -> Result<(), Failed>
    requires { length text.items < LINE }
    ensures told { IsTrue (K.state out.new).told → IsTrue (K.state out.old).told }
    ensures line { Delivered (fed text.items) (K.state out.old) (K.state out.new) }
    ensures handed_on { HandedOn (K.state out.old) (K.state out.new) }
    ensures later { (K.state out.old).faults ≤ (K.state out.new).faults }
{
    let mut line = text;
    line.push(b'\n');
    write_all(out, line.as_slice())?;
    out.flush()
}

// The words, and behind them the name.
fn pieces_of(words: &[u8], name: &[u8]) -> ArrayVec<u8, LINE>
    requires { length words.now + length name.now < LINE }
    ensures { result.items ≡ words.now ++ name.now }
{
    let mut text = ArrayVec::new();
    append(&mut text, words);
    append(&mut text, name);
    text
}

fn append(text: &mut ArrayVec<u8, LINE>, piece: &[u8])
    requires { length text.old.items + length piece.now < LINE }
    ensures { text.new.items ≡ text.old.items ++ piece.now }
{
    let _ = text.try_extend_from_slice(piece);
}
