// The parts of a statement: what it declares, uses and names.
ghost use Rattle.std.specs.Prelude.{◌≡◌};
ghost use Rattle.pj_plan.specs.Parts.{parts_of, no_parts};

use crate::{NamedAgg, PlanWhy, Renamed, Statement, TestWord};
use pj_value::{Bytes, List};
use std::marker::Model;
use std::slice::from_ref;

/// What a statement declares, uses and names, lent; a part that it does not have is empty.
#[derive(Drop)]
pub(crate) struct Parts<'a> {
    /// The version of a `plan`.
    pub(crate) version: Option<u32>,
    /// What is wrong with a bad line.
    pub(crate) bad: Option<PlanWhy>,
    /// The name of the node that it declares.
    pub(crate) declares: Option<&'a Bytes>,
    /// Whether that node is a stream.
    pub(crate) source: bool,
    /// The names of the nodes that it uses.
    pub(crate) uses: &'a [Bytes],
    /// Whether the columns of these are to be alike.
    pub(crate) alike: bool,
    /// The names of the nodes whose columns it may name.
    pub(crate) scope: &'a [Bytes],
    pub(crate) tests: &'a [TestWord],
    pub(crate) renamed: &'a [Renamed],
    pub(crate) classes: &'a [List<Bytes>],
    pub(crate) keys: &'a [Bytes],
    pub(crate) aggs: &'a [NamedAgg],
    /// The stream of a scheme, and its marks.
    pub(crate) stream: Option<&'a Bytes>,
    pub(crate) marks: &'a [bool],
    /// The name of the output.
    pub(crate) output: Option<&'a Bytes>,
}

impl<'a> Model for Parts<'a> {
    ghost use Rattle.std.specs.Option.{option_copied};
    ghost use Rattle.pj_plan.specs.Parts.{Parts as TheParts};

    ghost Value = { TheParts };

    ghost view = { λ p. record {
      version = p.version;
      bad = p.bad;
      declares = option_copied p.declares;
      source = p.source;
      uses = p.uses.now;
      alike = p.alike;
      scope = p.scope.now;
      tests = p.tests.now;
      renamed = p.renamed.now;
      classes = p.classes.now;
      keys = p.keys.now;
      aggs = p.aggs.now;
      stream = option_copied p.stream;
      marks = p.marks.now;
      output = option_copied p.output;
    } };
}

fn no_parts<'a>() -> Parts<'a>
    ensures { result ≡ no_parts }
{
    Parts {
        version: None,
        bad: None,
        declares: None,
        source: false,
        uses: &[],
        alike: false,
        scope: &[],
        tests: &[],
        renamed: &[],
        classes: &[],
        keys: &[],
        aggs: &[],
        stream: None,
        marks: &[],
        output: None,
    }
}

impl Statement {
    /// Its parts.
    pub(crate) fn parts(&self) -> Parts<'_>
        ensures { result ≡ parts_of self.now }
    {
        match self {
            Statement::Plan { version } => Parts {
                version: Some(*version),
                ..no_parts()
            },
            Statement::Stream { name, .. } => Parts {
                declares: Some(name),
                source: true,
                ..no_parts()
            },
            Statement::Scheme { stream, marks } => Parts {
                stream: Some(stream),
                marks: marks.as_slice(),
                ..no_parts()
            },
            Statement::Select { name, input, tests } => Parts {
                declares: Some(name),
                uses: from_ref(input),
                scope: from_ref(input),
                tests: tests.as_slice(),
                ..no_parts()
            },
            Statement::Project {
                name,
                input,
                columns,
            } => Parts {
                declares: Some(name),
                uses: from_ref(input),
                scope: from_ref(input),
                renamed: columns.as_slice(),
                ..no_parts()
            },
            Statement::Union { name, inputs } => Parts {
                declares: Some(name),
                uses: inputs.as_slice(),
                alike: true,
                ..no_parts()
            },
            Statement::Join {
                name,
                inputs,
                classes,
            } => Parts {
                declares: Some(name),
                uses: inputs.as_slice(),
                scope: inputs.as_slice(),
                classes: classes.as_slice(),
                ..no_parts()
            },
            Statement::Group {
                name,
                input,
                keys,
                aggs,
            } => Parts {
                declares: Some(name),
                uses: from_ref(input),
                scope: from_ref(input),
                keys: keys.as_slice(),
                aggs: aggs.as_slice(),
                ..no_parts()
            },
            Statement::Output { name } => Parts {
                uses: from_ref(name),
                output: Some(name),
                ..no_parts()
            },
            Statement::Bad(why) => Parts {
                bad: Some(*why),
                ..no_parts()
            },
        }
    }
}
