// The lines of a report.
ghost use Rattle.std.specs.Prelude.{◌≡◌, ◌≤◌, ◌++◌, ◌∷◌, [], map, IsTrue, OnOk, Err};
ghost use Rattle.std.specs.Fmt.{decimal};
ghost use Rattle.pj_io.specs.Causes.{Rose};
ghost use Rattle.pj_element.specs.Runs.{fed};
ghost use Rattle.pj_report.specs.Report.{check_line, make_line, stream_line, stream_lines, reject_line, reject_words, results_text, peak_line, total_line};
ghost use Rattle.pj_report.specs.Written.{WritesBy, write_cut};

use crate::lines::write_piece;
use crate::stops::WriteStop;
use itoa::Buffer;
use pj_element::{Reject, Tally};
use pj_io::Sink;
use pj_value::{List, NoMemory};

/// Writes the lines of a stream: its counts, and its first rejects. `text` is where lines are made.
pub fn write_stream<K: Sink>(
    name: &[u8],
    tally: &Tally,
    text: &mut List<u8>,
    out: &mut K,
) -> Result<(), WriteStop>
    ensures told { IsTrue (K.state out.new).told → IsTrue (K.state out.old).told }
    ensures lines { IsTrue (K.state out.new).told → WritesBy write_cut (stream_lines name.now tally.now) (K.state out.old) (K.state out.new) result }
    ensures later { (K.state out.old).faults ≤ (K.state out.new).faults }
    ensures fault { result ≡ Err WriteStop.Failed → Rose (K.state out.old).faults (K.state out.new).faults }
{
    stream_text(name, tally, text)?;
    write_piece(out, text.as_slice())?;
    write_rejects(name, tally.listed.as_slice(), text, out)?;
    Ok(())
}

fn write_rejects<K: Sink>(
    name: &[u8],
    rejects: &[(u64, Reject)],
    text: &mut List<u8>,
    out: &mut K,
) -> Result<(), WriteStop>
    ensures told { IsTrue (K.state out.new).told → IsTrue (K.state out.old).told }
    ensures lines { IsTrue (K.state out.new).told → WritesBy write_cut (map (reject_line name.now) rejects.now) (K.state out.old) (K.state out.new) result }
    ensures later { (K.state out.old).faults ≤ (K.state out.new).faults }
    ensures fault { result ≡ Err WriteStop.Failed → Rose (K.state out.old).faults (K.state out.new).faults }
{
    for (line, why) in rejects {
        reject_text(name, *line, *why, text)?;
        write_piece(out, text.as_slice())?;
    }
    Ok(())
}

/// Writes the counts of result rows and of result punctuations.
pub fn write_results<K: Sink>(
    rows: u64,
    puncts: u64,
    text: &mut List<u8>,
    out: &mut K,
) -> Result<(), WriteStop>
    ensures told { IsTrue (K.state out.new).told → IsTrue (K.state out.old).told }
    ensures lines { IsTrue (K.state out.new).told → WritesBy write_cut (results_text rows puncts ∷ []) (K.state out.old) (K.state out.new) result }
    ensures later { (K.state out.old).faults ≤ (K.state out.new).faults }
    ensures fault { result ≡ Err WriteStop.Failed → Rose (K.state out.old).faults (K.state out.new).faults }
{
    counts_text(rows, puncts, text)?;
    write_piece(out, text.as_slice())?;
    Ok(())
}

/// Writes the line of a join's peak.
pub fn write_peak_line<K: Sink>(
    name: &[u8],
    peak: u64,
    text: &mut List<u8>,
    out: &mut K,
) -> Result<(), WriteStop>
    ensures told { IsTrue (K.state out.new).told → IsTrue (K.state out.old).told }
    ensures lines { IsTrue (K.state out.new).told → WritesBy write_cut (peak_line name.now peak ∷ []) (K.state out.old) (K.state out.new) result }
    ensures later { (K.state out.old).faults ≤ (K.state out.new).faults }
    ensures fault { result ≡ Err WriteStop.Failed → Rose (K.state out.old).faults (K.state out.new).faults }
{
    peak_text(name, peak, text)?;
    write_piece(out, text.as_slice())?;
    Ok(())
}

/// Writes the line of a check: how many rows the plan's answer has.
pub fn write_check<K: Sink>(rows: u64, text: &mut List<u8>, out: &mut K) -> Result<(), WriteStop>
    ensures told { IsTrue (K.state out.new).told → IsTrue (K.state out.old).told }
    ensures lines { IsTrue (K.state out.new).told → WritesBy write_cut (check_line rows ∷ []) (K.state out.old) (K.state out.new) result }
    ensures later { (K.state out.old).faults ≤ (K.state out.new).faults }
    ensures fault { result ≡ Err WriteStop.Failed → Rose (K.state out.old).faults (K.state out.new).faults }
{
    check_text(rows, text)?;
    write_piece(out, text.as_slice())?;
    Ok(())
}

fn check_text(rows: u64, text: &mut List<u8>) -> Result<(), NoMemory>
    ensures { OnOk result (text.new ≡ check_line rows) }
{
    text.truncate(0);
    text.append(b"# check ")?;
    append_number(rows, text)?;
    text.push(b'\n')?;
    Ok(())
}

/// Writes the line of the sum of the last column of the result rows.
pub fn write_total<K: Sink>(total: i64, text: &mut List<u8>, out: &mut K) -> Result<(), WriteStop>
    ensures told { IsTrue (K.state out.new).told → IsTrue (K.state out.old).told }
    ensures lines { IsTrue (K.state out.new).told → WritesBy write_cut (total_line total ∷ []) (K.state out.old) (K.state out.new) result }
    ensures later { (K.state out.old).faults ≤ (K.state out.new).faults }
    ensures fault { result ≡ Err WriteStop.Failed → Rose (K.state out.old).faults (K.state out.new).faults }
{
    total_text(total, text)?;
    write_piece(out, text.as_slice())?;
    Ok(())
}

fn total_text(total: i64, text: &mut List<u8>) -> Result<(), NoMemory>
    ensures { OnOk result (text.new ≡ total_line total) }
{
    let mut digits = Buffer::new();
    text.truncate(0);
    text.append(b"# total ")?;
    text.append(digits.format(total).as_bytes())?;
    text.push(b'\n')?;
    Ok(())
}

/// Writes the line with which the summary of a made input begins: its seed, and how many items it has.
pub fn write_make<K: Sink>(
    seed: u32,
    count: u32,
    text: &mut List<u8>,
    out: &mut K,
) -> Result<(), WriteStop>
    ensures told { IsTrue (K.state out.new).told → IsTrue (K.state out.old).told }
    ensures lines { IsTrue (K.state out.new).told → WritesBy write_cut (make_line seed count ∷ []) (K.state out.old) (K.state out.new) result }
    ensures later { (K.state out.old).faults ≤ (K.state out.new).faults }
    ensures fault { result ≡ Err WriteStop.Failed → Rose (K.state out.old).faults (K.state out.new).faults }
{
    make_text(seed, count, text)?;
    write_piece(out, text.as_slice())?;
    Ok(())
}

fn make_text(seed: u32, count: u32, text: &mut List<u8>) -> Result<(), NoMemory>
    ensures { OnOk result (text.new ≡ make_line seed count) }
{
    text.truncate(0);
    text.append(b"# make ")?;
    append_number(u64::from(seed), text)?;
    text.push(b' ')?;
    append_number(u64::from(count), text)?;
    text.push(b'\n')?;
    Ok(())
}

fn peak_text(name: &[u8], peak: u64, text: &mut List<u8>) -> Result<(), NoMemory>
    ensures { OnOk result (text.new ≡ peak_line name.now peak) }
{
    text.truncate(0);
    text.append(b"# peak ")?;
    text.append(name)?;
    text.push(b' ')?;
    append_number(peak, text)?;
    text.push(b'\n')?;
    Ok(())
}

fn counts_text(rows: u64, puncts: u64, text: &mut List<u8>) -> Result<(), NoMemory>
    ensures { OnOk result (text.new ≡ results_text rows puncts) }
{
    text.truncate(0);
    text.append(b"# results ")?;
    append_number(rows, text)?;
    text.append(b" punctuations ")?;
    append_number(puncts, text)?;
    text.push(b'\n')?;
    Ok(())
}

fn stream_text(name: &[u8], tally: &Tally, text: &mut List<u8>) -> Result<(), NoMemory>
    ensures { OnOk result (text.new ≡ stream_line name.now tally.now) }
{
    text.truncate(0);
    text.append(b"# stream ")?;
    text.append(name)?;
    text.append(b" tuples ")?;
    append_number(tally.tuples, text)?;
    text.append(b" punctuations ")?;
    append_number(tally.puncts, text)?;
    text.append(b" rejected ")?;
    append_number(tally.rejected, text)?;
    text.push(b'\n')?;
    Ok(())
}

fn reject_text(name: &[u8], line: u64, why: Reject, text: &mut List<u8>) -> Result<(), NoMemory>
    ensures { OnOk result (text.new ≡ reject_line name.now (line, why)) }
{
    text.truncate(0);
    text.append(b"# reject ")?;
    text.append(name)?;
    text.append(b" line ")?;
    append_number(line, text)?;
    text.push(b' ')?;
    append_words(why, text)?;
    text.push(b'\n')?;
    Ok(())
}

fn append_words(why: Reject, text: &mut List<u8>) -> Result<(), NoMemory>
    ensures { OnOk result (text.new ≡ text.old ++ reject_words why) }
{
    match why {
        Reject::TooLong => text.append(b"too long")?,
        Reject::NotElement => text.append(b"not an element")?,
        Reject::Arity { want, got } => {
            text.append(b"arity want ")?;
            append_number(u64::from(want), text)?;
            text.append(b" got ")?;
            append_number(u64::from(got), text)?;
        }
        Reject::BadCell { column } => {
            text.append(b"bad cell ")?;
            append_number(u64::from(column), text)?;
        }
        Reject::WrongKind { column } => {
            text.append(b"wrong kind ")?;
            append_number(u64::from(column), text)?;
        }
        Reject::Closed { line } => {
            text.append(b"closed by line ")?;
            append_number(line, text)?;
        }
    }
    Ok(())
}

fn append_number(number: u64, text: &mut List<u8>) -> Result<(), NoMemory>
    ensures { OnOk result (text.new ≡ text.old ++ decimal number) }
{
    let mut buffer = Buffer::new();
    text.append(buffer.format(number).as_bytes())?;
    Ok(())
}
