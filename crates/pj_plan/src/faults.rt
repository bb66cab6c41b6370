// The lowest fault of a statement, behind what was declared before.
ghost use Rattle.std.specs.Prelude.{◌≡◌, ◌<◌, ◌≤◌, ◌∷◌, [], ◌||◌, ◌&&◌, ◌++◌, not, length, flat_map};
ghost use Rattle.std.specs.List.{list_any};
ghost use Rattle.std.specs.Option.{option_copied};
ghost use Rattle.pj_plan.specs.Made.{result_schema, columns_of, schema_of as schema};
ghost use Rattle.pj_plan.specs.Faults.{fault_of as lowest, first_fault, name_whys, column_whys, use_whys, is_not_a_plan as not_a_plan, is_unknown as unknown, is_unknown_word as unknown_word, is_bad_shape as bad_shape, is_bad_line as bad_line, is_taken as taken, has_unknown_name as unknown_name, is_no_stream as no_stream, is_one as one, has_unknown_column as unknown_column, has_no_column, has_kinds_that_differ as other_kinds, has_bad_class as bad_class, misses_marks as bad_marks};
ghost use Rattle.pj_plan.specs.Words.{agg_columns, scope_of, columns_in};

use crate::checks::{
    aggs_unknown, any_input_twice, any_marked, any_of_two_kinds, any_text_sum, any_unknown,
    are_unlike, classes_unknown, names_unknown, old_unknown, share_a_column, tests_miss,
    tests_unknown,
};
use crate::limits::{is_too_many, is_used_twice_or_never};
use crate::names::{is_known, is_stream_name, schema_of, share_a_name};
use crate::parts::Parts;
use crate::{Draft, PlanNode, PlanWhy, Statement};
use pj_shape::Column;
use pj_value::Bytes;

/// The lowest fault of the statement, if it has one; `scope` are the columns that it may name, and `schema` those of the node
/// that it declares.
#[tactic(auto, using(crate::proofs::FirstFaults::found_in_names, crate::proofs::FirstFaults::found_in_columns, crate::proofs::FirstFaults::found_in_uses))]
pub(crate) fn fault_of(
    draft: &Draft,
    statement: &Statement,
    scope: &[Column],
    schema: &[Column],
) -> Option<PlanWhy>
    requires scope { scope.now ≡ columns_of draft.now.nodes (scope_of statement.now) }
    requires schema { schema.now ≡ result_schema draft.now statement.now }
    ensures { result ≡ lowest draft.now statement.now }
{
    match name_fault(draft, statement) {
        Some(why) => Some(why),
        None => match column_fault(draft, statement, scope, schema) {
            Some(why) => Some(why),
            None => use_fault(draft, statement, schema),
        },
    }
}

fn name_fault(draft: &Draft, statement: &Statement) -> Option<PlanWhy>
    ensures { result ≡ first_fault draft.now statement.now name_whys }
{
    if is_not_a_plan(draft, statement) {
        return Some(PlanWhy::NotAPlan);
    }
    if is_unknown(draft, statement) {
        return Some(PlanWhy::UnknownStatement);
    }
    if is_bad_shape(statement.parts().bad) {
        return Some(PlanWhy::BadShape);
    }
    if is_taken(draft.nodes.as_slice(), statement.parts().declares) {
        return Some(PlanWhy::NameTwice);
    }
    if has_unknown_name(draft, statement) {
        return Some(PlanWhy::UnknownName);
    }
    None
}

fn is_not_a_plan(draft: &Draft, statement: &Statement) -> bool
    ensures { result ≡ not_a_plan draft.now statement.now }
{
    draft.version.is_none() && !is_one(statement.parts().version)
}

fn is_one(version: Option<u32>) -> bool
    ensures { result ≡ one version }
{
    match version {
        None => false,
        Some(version) => version == 1,
    }
}

fn is_unknown(draft: &Draft, statement: &Statement) -> bool
    ensures { result ≡ unknown draft.now statement.now }
{
    let parts = statement.parts();
    (draft.version.is_some() && parts.version.is_some()) || is_unknown_word(parts.bad)
}

fn is_unknown_word(why: Option<PlanWhy>) -> bool
    ensures { result ≡ unknown_word why }
{
    match why {
        None => false,
        Some(why) => why == PlanWhy::UnknownStatement,
    }
}

fn is_bad_shape(why: Option<PlanWhy>) -> bool
    ensures { result ≡ bad_shape why }
{
    match why {
        None => false,
        Some(why) => why == PlanWhy::BadShape,
    }
}

fn is_bad_line(why: Option<PlanWhy>) -> bool
    ensures { result ≡ bad_line why }
{
    match why {
        None => false,
        Some(why) => why == PlanWhy::Unreadable,
    }
}

fn is_taken(nodes: &[PlanNode], name: Option<&Bytes>) -> bool
    ensures { result ≡ taken nodes.now (option_copied name.entry) }
{
    match name {
        None => false,
        Some(name) => is_known(nodes, name.as_slice()),
    }
}

fn has_unknown_name(draft: &Draft, statement: &Statement) -> bool
    ensures { result ≡ unknown_name draft.now statement.now }
{
    let nodes = draft.nodes.as_slice();
    let parts = statement.parts();
    any_unknown(nodes, parts.uses) || is_no_stream(nodes, parts.stream)
}

fn is_no_stream(nodes: &[PlanNode], name: Option<&Bytes>) -> bool
    ensures { result ≡ no_stream nodes.now (option_copied name.entry) }
{
    match name {
        None => false,
        Some(name) => !is_stream_name(nodes, name.as_slice()),
    }
}

fn column_fault(
    draft: &Draft,
    statement: &Statement,
    scope: &[Column],
    schema: &[Column],
) -> Option<PlanWhy>
    requires scope { scope.now ≡ columns_of draft.now.nodes (scope_of statement.now) }
    requires schema { schema.now ≡ result_schema draft.now statement.now }
    ensures { result ≡ first_fault draft.now statement.now column_whys }
{
    let parts = statement.parts();
    if any_no_column(scope, &parts) {
        return Some(PlanWhy::UnknownColumn);
    }
    if share_a_name(schema) {
        return Some(PlanWhy::ColumnTwice);
    }
    if has_other_kinds(draft, statement, scope) {
        return Some(PlanWhy::KindsDiffer);
    }
    if has_bad_class(draft, statement) {
        return Some(PlanWhy::BadClass);
    }
    if misses_marks(draft.nodes.as_slice(), parts.stream, parts.marks) {
        return Some(PlanWhy::BadScheme);
    }
    None
}

// Whether a column that is named is none of these.
fn any_no_column(columns: &[Column], parts: &Parts<'_>) -> bool
    ensures { result ≡ list_any (has_no_column columns.now) (columns_in parts.now) }
{
    tests_unknown(columns, parts.tests)
        || (old_unknown(columns, parts.renamed)
            || (classes_unknown(columns, parts.classes)
                || (names_unknown(columns, parts.keys) || aggs_unknown(columns, parts.aggs))))
}

fn has_other_kinds(draft: &Draft, statement: &Statement, scope: &[Column]) -> bool
    requires { scope.now ≡ columns_of draft.now.nodes (scope_of statement.now) }
    ensures { result ≡ other_kinds draft.now statement.now }
{
    let parts = statement.parts();
    (parts.alike && are_unlike(draft.nodes.as_slice(), parts.uses))
        || (tests_miss(scope, parts.tests)
            || (any_of_two_kinds(scope, parts.classes) || any_text_sum(scope, parts.aggs)))
}

fn has_bad_class(draft: &Draft, statement: &Statement) -> bool
    ensures { result ≡ bad_class draft.now statement.now }
{
    let parts = statement.parts();
    any_input_twice(draft.nodes.as_slice(), parts.uses, parts.classes)
        || share_a_column(parts.classes)
}

// Whether the scheme of a stream has another number of marks than the stream has columns, or no mark.
fn misses_marks(nodes: &[PlanNode], stream: Option<&Bytes>, marks: &[bool]) -> bool
    ensures { result ≡ bad_marks nodes.now (option_copied stream.entry) marks.now }
{
    match stream {
        None => false,
        Some(stream) => {
            marks.len() != schema_of(nodes, stream.as_slice()).len() || !any_marked(marks)
        }
    }
}

fn use_fault(draft: &Draft, statement: &Statement, schema: &[Column]) -> Option<PlanWhy>
    requires { schema.now ≡ result_schema draft.now statement.now }
    ensures { result ≡ first_fault draft.now statement.now use_whys }
{
    if is_used_twice_or_never(draft, statement) {
        return Some(PlanWhy::UsedTwiceOrNever);
    }
    if is_too_many(draft, statement, schema) {
        return Some(PlanWhy::TooMany);
    }
    if draft.output.is_some() && statement.parts().bad.is_none() {
        return Some(PlanWhy::Output);
    }
    if is_bad_line(statement.parts().bad) {
        return Some(PlanWhy::Unreadable);
    }
    None
}
