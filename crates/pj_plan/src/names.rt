// Nodes and columns by their names.
ghost use Rattle.std.specs.Prelude.{◌≡◌, ◌<◌, ◌≤◌, length, not, filter, nat_lt};
ghost use Rattle.std.specs.List.{list_any};
ghost use Rattle.pj_plan.specs.Words.{is_among as among, repeats as repeat};
ghost use Rattle.pj_plan.specs.Made.{number_of as number, schema_of as schema, column_number as place, column_kind as kind};
ghost use Rattle.pj_plan.specs.Faults.{is_known as known, is_stream_name as of_stream, has_column as named, share_a_name as alike, has_unknown_name};
ghost use Rattle.pj_plan.specs.Nodes.{is_stream as stream};

use crate::{Node, PlanNode};
use pj_shape::Column;
use pj_value::{Bytes, Kind};

/// Whether the name is one of these.
pub(crate) fn is_among(names: &[Bytes], name: &[u8]) -> bool
    ensures { result ≡ among names.now name.now }
{
    names.iter().any(|other| name == other.as_slice())
}

/// Whether a name stands twice.
pub(crate) fn repeats(names: &[Bytes]) -> bool
    ensures { result ≡ repeat names.now }
{
    let mut rest = names;
    while let [name, behind @ ..] = rest {
        if is_among(behind, name.as_slice()) {
            return true;
        }
        rest = behind;
    }
    false
}

/// Whether a node of this name is declared.
pub(crate) fn is_known(nodes: &[PlanNode], name: &[u8]) -> bool
    ensures { result ≡ known nodes.now name.now }
{
    nodes.iter().any(|node| name == node.name.as_slice())
}

/// Whether a stream of this name is declared.
pub(crate) fn is_stream_name(nodes: &[PlanNode], name: &[u8]) -> bool
    ensures { result ≡ of_stream nodes.now name.now }
{
    nodes.iter().any(|node| is_stream(&node.node) && name == node.name.as_slice())
}

pub(crate) fn is_stream(node: &Node) -> bool
    ensures { result ≡ stream node.now }
{
    match node {
        Node::Stream { .. } => true,
        Node::Select { .. } => false,
        Node::Project { .. } => false,
        Node::Union { .. } => false,
        Node::Join { .. } => false,
        Node::Group { .. } => false,
    }
}

/// The number of the node of this name; that of the next node where there is none.
pub(crate) fn number_of(nodes: &[PlanNode], name: &[u8]) -> usize
    ensures number { result ≡ number nodes.now name.now }
    ensures within { result ≤ length nodes.now }
{
    for at in 0..nodes.len() {
        if name == nodes[at].name.as_slice() {
            return at;
        }
    }
    nodes.len()
}

/// The columns of the node of this name; none where there is no such node.
pub(crate) fn schema_of<'a>(nodes: &'a [PlanNode], name: &[u8]) -> &'a [Column]
    ensures { result.now ≡ schema nodes.now name.now }
{
    for node in nodes {
        if name == node.name.as_slice() {
            return node.schema.columns();
        }
    }
    &[]
}

/// Whether one of these columns has the name.
pub(crate) fn has_column(columns: &[Column], name: &[u8]) -> bool
    ensures { result ≡ named columns.now name.now }
{
    columns.iter().any(|column| name == column.name.as_slice())
}

/// Whether two of these columns have one name.
pub(crate) fn share_a_name(columns: &[Column]) -> bool
    ensures { result ≡ alike columns.now }
{
    let mut rest = columns;
    while let [column, behind @ ..] = rest {
        if has_column(behind, column.name.as_slice()) {
            return true;
        }
        rest = behind;
    }
    false
}

/// The number of the column of this name; their number where there is none.
pub(crate) fn column_number(columns: &[Column], name: &[u8]) -> usize
    ensures number { result ≡ place columns.now name.now }
    ensures within { result ≤ length columns.now }
{
    for at in 0..columns.len() {
        if name == columns[at].name.as_slice() {
            return at;
        }
    }
    columns.len()
}

/// The kind of the column of this name; that of ints where there is none.
pub(crate) fn column_kind(columns: &[Column], name: &[u8]) -> Kind
    ensures { result ≡ kind columns.now name.now }
{
    for column in columns {
        if name == column.name.as_slice() {
            return column.kind;
        }
    }
    Kind::Int
}
