// The nodes of a plan.
ghost use Rattle.std.specs.Prelude.{◌≡◌, ◌∷◌, [], IfOk, length, slice_get};
ghost use Rattle.std.specs.Option.{option_copied};
ghost use Rattle.pj_plan.specs.Nodes.{inputs_of, join_in, stated_in};

use pj_pattern::Punct;
use pj_shape::{GroupSpec, JoinSpec, Schema, Scheme};
use pj_value::{Bytes, List, NoMemory, TryClone};
use std::alloc::Global;

/// An operator, and the numbers of the nodes that feed it.
#[derive(Drop)]
pub enum Node {
    Stream { schemes: List<Scheme> },
    Select { input: u32, test: Punct },
    Project { input: u32, columns: List<u32> },
    Union { inputs: List<u32> },
    Join { inputs: List<u32>, spec: JoinSpec },
    Group { input: u32, spec: GroupSpec },
}

/// A node with its name and the columns of its rows.
#[derive(Drop)]
pub struct PlanNode {
    pub name: Bytes,
    pub schema: Schema,
    pub node: Node,
}

/// What a contract sees of a plan: its version, and its nodes in order of declaration, the last of which is the output.
#[derive(Drop)]
pub struct Outline {
    pub version: u32,
    pub nodes: List<PlanNode>,
}

/// What statements without fault have declared so far: the version, the nodes, and the number of the output.
#[derive(Drop)]
pub struct Draft {
    pub version: Option<u32>,
    pub nodes: List<PlanNode>,
    pub output: Option<u32>,
}

impl Node {
    /// How many nodes feed it.
    pub fn inputs(&self) -> usize
        ensures { result ≡ length (inputs_of self.now) }
    {
        match self {
            Node::Stream { .. } => 0,
            Node::Select { .. } => 1,
            Node::Project { .. } => 1,
            Node::Union { inputs } => inputs.len(),
            Node::Join { inputs, .. } => inputs.len(),
            Node::Group { .. } => 1,
        }
    }

    /// The number of the node that feeds an input, counted from 0; `None` exactly where it has no such input.
    pub fn input(&self, at: usize) -> Option<u32>
        ensures { result ≡ slice_get (inputs_of self.now) at }
    {
        match self {
            Node::Stream { .. } => None,
            Node::Select { input, .. } => alone(*input, at),
            Node::Project { input, .. } => alone(*input, at),
            Node::Union { inputs } => inputs.get(at).copied(),
            Node::Join { inputs, .. } => inputs.get(at).copied(),
            Node::Group { input, .. } => alone(*input, at),
        }
    }

    /// The shape of a join; `None` exactly where it is no join.
    pub fn join(&self) -> Option<&JoinSpec>
        ensures { option_copied result ≡ join_in self.now }
    {
        match self {
            Node::Stream { .. } => None,
            Node::Select { .. } => None,
            Node::Project { .. } => None,
            Node::Union { .. } => None,
            Node::Join { spec, .. } => Some(spec),
            Node::Group { .. } => None,
        }
    }

    /// The schemes that a stream states; `None` exactly where it is no stream.
    pub fn schemes(&self) -> Option<&[Scheme]>
        ensures { option_copied result ≡ stated_in self.now }
    {
        match self {
            Node::Stream { schemes } => Some(schemes.as_slice()),
            Node::Select { .. } => None,
            Node::Project { .. } => None,
            Node::Union { .. } => None,
            Node::Join { .. } => None,
            Node::Group { .. } => None,
        }
    }

    /// An equal operator, or `NoMemory`.
    pub fn copy(&self, alloc: Global) -> Result<Node, NoMemory>
        ensures { IfOk result (λ copy. copy ≡ self.now) }
    {
        match self {
            Node::Stream { schemes } => Ok(Node::Stream {
                schemes: schemes.try_clone(alloc)?,
            }),
            Node::Select { input, test } => Ok(Node::Select {
                input: *input,
                test: test.copy(alloc)?,
            }),
            Node::Project { input, columns } => Ok(Node::Project {
                input: *input,
                columns: List::copy_of(alloc, columns.as_slice())?,
            }),
            Node::Union { inputs } => Ok(Node::Union {
                inputs: List::copy_of(alloc, inputs.as_slice())?,
            }),
            Node::Join { inputs, spec } => Ok(Node::Join {
                inputs: List::copy_of(alloc, inputs.as_slice())?,
                spec: spec.copy(alloc)?,
            }),
            Node::Group { input, spec } => Ok(Node::Group {
                input: *input,
                spec: spec.copy(alloc)?,
            }),
        }
    }
}

// The input at a place where there is only this one.
#[tactic(auto, using(crate::proofs::Views::only_first, crate::proofs::Views::none_behind))]
fn alone(input: u32, at: usize) -> Option<u32>
    ensures { result ≡ slice_get (input ∷ []) at }
{
    if at == 0 { Some(input) } else { None }
}

impl TryClone for PlanNode {
    fn try_clone(&self, alloc: Global) -> Result<PlanNode, NoMemory> {
        Ok(PlanNode {
            name: List::copy_of(alloc, self.name.as_slice())?,
            schema: self.schema.copy(alloc)?,
            node: self.node.copy(alloc)?,
        })
    }
}

impl Outline {
    // An equal outline, or `NoMemory`.
    pub(crate) fn copy(&self, alloc: Global) -> Result<Outline, NoMemory>
        ensures { IfOk result (λ copy. copy ≡ self.now) }
    {
        Ok(Outline {
            version: self.version,
            nodes: self.nodes.try_clone(alloc)?,
        })
    }
}
