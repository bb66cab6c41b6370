// The lines of the rows with which an input is stuck.
ghost use Rattle.std.specs.Prelude.{◌≡◌, ◌++◌, OnOk, OnErr};
ghost use Rattle.std.specs.List.{concat};
ghost use Rattle.pj_cert.specs.Partners.{partner_line, partner_of, partners_from, partners_of};

use crate::verdicts::name_at;
use pj_element::row_text;
use pj_value::{Bytes, List, NoMemory, Row};
use std::alloc::Global;

/// Appends one line for each input but this: `# partner K t ..`, with its row as an element line. On a refusal `out` is as it
/// was.
pub fn partners_text(
    alloc: Global,
    names: &[Bytes],
    input: u32,
    rows: &[Row],
    out: &mut List<u8>,
) -> Result<(), NoMemory>
    ensures ok { OnOk result (out.new ≡ out.old ++ concat (partners_of names.now input rows.now)) }
    ensures err { OnErr result (out.new ≡ out.old) }
{
    let mut text = List::new(alloc);
    append_partners(alloc, names, input, rows, &mut text)?;
    out.append(text.as_slice())?;
    Ok(())
}

fn append_partners(
    alloc: Global,
    names: &[Bytes],
    input: u32,
    rows: &[Row],
    text: &mut List<u8>,
) -> Result<(), NoMemory>
    ensures { OnOk result (text.new ≡ text.old ++ concat (partners_of names.now input rows.now)) }
{
    for (other, row) in rows.iter().enumerate() {
        append_other(alloc, names, input, other, row, text)?;
    }
    Ok(())
}

#[tactic(auto, using(crate::proofs::Appended::partner_same, crate::proofs::Appended::partner_other))]
fn append_other(
    alloc: Global,
    names: &[Bytes],
    input: u32,
    other: usize,
    row: &Row,
    text: &mut List<u8>,
) -> Result<(), NoMemory>
    ensures { OnOk result (text.new ≡ text.old ++ concat (partner_of names.now input other row.now)) }
{
    if other == input as usize {
        return Ok(());
    }
    append_partner(alloc, name_at(names, other), row, text)?;
    Ok(())
}

fn append_partner(
    alloc: Global,
    name: &[u8],
    row: &Row,
    text: &mut List<u8>,
) -> Result<(), NoMemory>
    ensures { OnOk result (text.new ≡ text.old ++ partner_line name.now row.now) }
{
    text.append(b"# partner ")?;
    text.append(name)?;
    text.append(b" ")?;
    row_text(alloc, row, text)?;
    text.append(b"\n")?;
    Ok(())
}
