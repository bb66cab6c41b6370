// A text of lines, written.
ghost use Rattle.std.specs.Prelude.{◌≡◌, ◌≤◌, ◌<◌, ◌++◌, [], IsTrue, OnOk, OnErr, length};
ghost use Rattle.pj_io.specs.Causes.{Rose};
ghost use Rattle.pj_report.specs.Written.{Delivered, HandedOn};

use memchr::memchr;
use pj_io::{Failed, Sink, write_all};

/// Writes the lines of this text, each by one `write_all`, and hands on what the sink holds back. `Err` comes where a write or the
/// flush failed; a front of the text was written then.
pub fn write_text<K: Sink>(text: &[u8], out: &mut K) -> Result<(), Failed>
    ensures told { IsTrue (K.state out.new).told → IsTrue (K.state out.old).told }
    ensures text { Delivered text.now (K.state out.old) (K.state out.new) }
    ensures all { OnOk result (IsTrue (K.state out.new).told → (K.state out.new).written ≡ (K.state out.old).written ++ text.now) }
    ensures fault { OnErr result (Rose (K.state out.old).faults (K.state out.new).faults) }
    ensures handed_on { HandedOn (K.state out.old) (K.state out.new) }
    ensures all_handed_on { OnOk result ((K.state out.new).held ≡ []) }
    ensures later { (K.state out.old).faults ≤ (K.state out.new).faults }
{
    let mut at = 0;
    while at < text.len() {
        let end = line_end(text, at);
        write_all(out, &text[at..end])?;
        at = end;
    }
    out.flush()
}

// The place behind the line that begins at this one, which is in the text.
fn line_end(text: &[u8], start: usize) -> usize
    requires { start < length text.now }
    ensures behind { start < result }
    ensures within { result ≤ length text.now }
{
    match memchr(b'\n', &text[start..]) {
        Some(len) => start + len + 1,
        None => text.len(),
    }
}
