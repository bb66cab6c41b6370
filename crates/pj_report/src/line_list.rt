// Lines in one buffer.
ghost use Rattle.std.specs.Prelude.{◌≡◌, ◌≤◌, ◌-◌, ◌++◌, ◌∷◌, [], List, map, take, length, sum, IsTrue, IfOk, OnOk, OnErr, Err};
ghost use Rattle.pj_io.specs.Causes.{Rose};
ghost use Rattle.pj_report.specs.Sorted.{fed_punct, fed_row, lent, pieces, sorted_lines};
ghost use Rattle.pj_report.specs.Written.{WritesBy, write_cut};

use crate::lines::write_piece;
use crate::stops::WriteStop;
use pj_element::{punct_text, row_text};
use pj_io::Sink;
use pj_pattern::Punct;
use pj_value::{List as Items, NoMemory, Row};
use std::alloc::Global;
use std::marker::Model;

// Lines one behind the other in one buffer, and how long each is.
#[derive(Drop)]
pub(crate) struct LineList {
    bytes: Items<u8>,
    lens: Items<usize>,
}

impl Model for LineList {
    ghost use Rattle.std.specs.Prelude.{◌≡◌, ℕ, List, length, sum};
    ghost use Rattle.pj_report.specs.Sorted.{pieces};

    ghost Value = { List (List ℕ) };

    ghost view = { λ l. pieces l.lens l.bytes };

    ghost invariant = { λ l. sum l.lens ≡ length l.bytes };
}

impl LineList {
    pub(crate) fn new(alloc: Global) -> LineList
        ensures { result ≡ [] }
    {
        LineList {
            bytes: Items::new(alloc),
            lens: Items::new(alloc),
        }
    }

    // Puts the row's canonical line at the end; on a refusal the lines are as they were.
    pub(crate) fn push_row(&mut self, alloc: Global, row: &Row) -> Result<(), NoMemory>
        ensures ok { OnOk result (self.new ≡ self.old ++ fed_row row.now ∷ []) }
        ensures err { OnErr result (self.new ≡ self.old) }
    {
        let start = self.bytes.len();
        append_row(alloc, row, &mut self.bytes)?;
        note_len(&mut self.bytes, &mut self.lens, start)?;
        Ok(())
    }

    // Puts the punctuation's canonical line at the end; on a refusal the lines are as they were.
    pub(crate) fn push_punct(&mut self, alloc: Global, punct: &Punct) -> Result<(), NoMemory>
        ensures ok { OnOk result (self.new ≡ self.old ++ fed_punct punct.now ∷ []) }
        ensures err { OnErr result (self.new ≡ self.old) }
    {
        let start = self.bytes.len();
        append_punct(alloc, punct, &mut self.bytes)?;
        note_len(&mut self.bytes, &mut self.lens, start)?;
        Ok(())
    }

    // Writes the lines in order of their bytes.
    pub(crate) fn write_sorted<K: Sink>(&self, alloc: Global, out: &mut K) -> Result<(), WriteStop>
        ensures told { IsTrue (K.state out.new).told → IsTrue (K.state out.old).told }
        ensures lines { IsTrue (K.state out.new).told → WritesBy write_cut (sorted_lines self.now) (K.state out.old) (K.state out.new) result }
        ensures later { (K.state out.old).faults ≤ (K.state out.new).faults }
        ensures fault { result ≡ Err WriteStop.Failed → Rose (K.state out.old).faults (K.state out.new).faults }
    {
        let lines = self.sorted(alloc)?;
        write_pieces(lines.as_slice(), out)?;
        Ok(())
    }

    // The lines in order of their bytes. The sort moves what is lent of them and copies no line.
    fn sorted(&self, alloc: Global) -> Result<Vec<&[u8]>, NoMemory>
        ensures { IfOk result (λ lines. map lent lines.items ≡ sorted_lines self.now) }
    {
        let mut lines = lend_pieces(alloc, self.lens.as_slice(), self.bytes.as_slice())?;
        lines.sort_unstable();
        Ok(lines)
    }
}

// Lends the pieces of these lengths, which are all of the bytes.
fn lend_pieces<'a>(
    alloc: Global,
    lens: &[usize],
    bytes: &'a [u8],
) -> Result<Vec<&'a [u8]>, NoMemory>
    requires { sum lens.now ≡ length bytes.now }
    ensures { IfOk result (λ lines. map lent lines.items ≡ pieces lens.now bytes.now) }
{
    let mut lines = Vec::with_capacity(alloc, lens.len())?;
    let mut rest = bytes;
    for len in lens {
        let (line, others) = rest.split_at(*len);
        lines.push(line)?;
        rest = others;
    }
    Ok(lines)
}

// Puts the row's line behind the bytes; on a refusal they are as they were.
fn append_row(alloc: Global, row: &Row, bytes: &mut Items<u8>) -> Result<(), NoMemory>
    ensures ok { OnOk result (bytes.new ≡ bytes.old ++ fed_row row.now) }
    ensures err { OnErr result (bytes.new ≡ bytes.old) }
{
    let start = bytes.len();
    row_text(alloc, row, bytes)?;
    append_feed(bytes, start)
}

// Puts the punctuation's line behind the bytes; on a refusal they are as they were.
fn append_punct(alloc: Global, punct: &Punct, bytes: &mut Items<u8>) -> Result<(), NoMemory>
    ensures ok { OnOk result (bytes.new ≡ bytes.old ++ fed_punct punct.now) }
    ensures err { OnErr result (bytes.new ≡ bytes.old) }
{
    let start = bytes.len();
    punct_text(alloc, punct, bytes)?;
    append_feed(bytes, start)
}

// Puts a line feed behind the bytes; on a refusal only the first of them stay.
fn append_feed(bytes: &mut Items<u8>, start: usize) -> Result<(), NoMemory>
    ensures ok { OnOk result (bytes.new ≡ bytes.old ++ 10 ∷ []) }
    ensures err { OnErr result (bytes.new ≡ take start bytes.old) }
{
    match bytes.push(b'\n') {
        Ok(()) => Ok(()),
        Err(stop) => {
            bytes.truncate(start);
            Err(stop)
        }
    }
}

// Notes the length of the line behind the first bytes; on a refusal only those stay.
fn note_len(bytes: &mut Items<u8>, lens: &mut Items<usize>, start: usize) -> Result<(), NoMemory>
    requires { start ≤ length bytes.old }
    ensures ok { OnOk result (bytes.new ≡ bytes.old) }
    ensures noted { OnOk result (lens.new ≡ lens.old ++ (length bytes.old - start) ∷ []) }
    ensures err { OnErr result (bytes.new ≡ take start bytes.old) }
    ensures same { OnErr result (lens.new ≡ lens.old) }
{
    let len = bytes.len() - start;
    match lens.push(len) {
        Ok(()) => Ok(()),
        Err(stop) => {
            bytes.truncate(start);
            Err(stop)
        }
    }
}

// Writes these lines, each by a `write_all` of its own.
fn write_pieces<K: Sink>(lines: &[&[u8]], out: &mut K) -> Result<(), WriteStop>
    ensures told { IsTrue (K.state out.new).told → IsTrue (K.state out.old).told }
    ensures lines { IsTrue (K.state out.new).told → WritesBy write_cut (map lent lines.now) (K.state out.old) (K.state out.new) result }
    ensures later { (K.state out.old).faults ≤ (K.state out.new).faults }
    ensures fault { result ≡ Err WriteStop.Failed → Rose (K.state out.old).faults (K.state out.new).faults }
{
    for line in lines {
        write_piece(out, *line)?;
    }
    Ok(())
}
