// Rows, punctuations and patterns by their text. A text that can't be read counts as want of memory, which no test expects.
use pj_element::{Spelled, punct_text, read_pattern, read_value, row_text};
use pj_pattern::{Element, Pattern, Punct};
use pj_value::{List, NoMemory, Row, Value};
use std::alloc::Global;

fn value(alloc: Global, cell: &str) -> Result<Value, NoMemory> {
    match read_value(alloc, cell.as_bytes())? {
        Some(value) => Ok(value),
        None => Err(NoMemory),
    }
}

fn pattern(alloc: Global, cell: &str) -> Result<Pattern, NoMemory> {
    match read_pattern(alloc, cell.as_bytes())? {
        Spelled::Good(pattern) => Ok(pattern),
        Spelled::Mixed => Err(NoMemory),
        Spelled::Not => Err(NoMemory),
    }
}

// The row of these values, with a blank between them.
pub(crate) fn row(alloc: Global, cells: &str) -> Result<Row, NoMemory> {
    let mut values = List::new(alloc);
    for cell in cells.split(' ') {
        values.push(value(alloc, cell)?)?;
    }
    Ok(Row::of(values))
}

pub(crate) fn punct(alloc: Global, cells: &str) -> Result<Punct, NoMemory> {
    let mut patterns = List::new(alloc);
    for cell in cells.split(' ') {
        patterns.push(pattern(alloc, cell)?)?;
    }
    Ok(Punct::of(patterns))
}

// The element of a line.
pub(crate) fn element(alloc: Global, line: &str) -> Result<Element, NoMemory> {
    match line.split_once(' ') {
        Some(("t", cells)) => Ok(Element::Tuple(row(alloc, cells)?)),
        Some(("p", cells)) => Ok(Element::Punct(punct(alloc, cells)?)),
        _ => Err(NoMemory),
    }
}

fn append(alloc: Global, element: &Element, text: &mut List<u8>) -> Result<(), NoMemory> {
    match element {
        Element::Tuple(row) => row_text(alloc, row, text)?,
        Element::Punct(punct) => punct_text(alloc, punct, text)?,
    }
    text.push(b'\n')
}

// Whether the lines of the elements, each with a line feed behind it, are these.
pub(crate) fn are(alloc: Global, elements: &[Element], lines: &str) -> Result<bool, NoMemory> {
    let mut text = List::new(alloc);
    for element in elements {
        append(alloc, element, &mut text)?;
    }
    Ok(text.as_slice() == lines.as_bytes())
}

// The same of rows.
pub(crate) fn are_rows(alloc: Global, rows: &[Row], lines: &str) -> Result<bool, NoMemory> {
    let mut text = List::new(alloc);
    for row in rows {
        row_text(alloc, row, &mut text)?;
        text.push(b'\n')?;
    }
    Ok(text.as_slice() == lines.as_bytes())
}

// The same of punctuations.
pub(crate) fn are_puncts(alloc: Global, puncts: &[Punct], lines: &str) -> Result<bool, NoMemory> {
    let mut text = List::new(alloc);
    for punct in puncts {
        punct_text(alloc, punct, &mut text)?;
        text.push(b'\n')?;
    }
    Ok(text.as_slice() == lines.as_bytes())
}
