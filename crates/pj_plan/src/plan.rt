// A plan without fault, and what is asked of it.
ghost use Rattle.std.specs.Prelude.{◌≡◌, ◌<◌, ◌+◌, length, slice_get, Some, IfOk};
ghost use Rattle.pj_plan.specs.Nodes.{streams_of, joins_of, parent_of};
ghost use Rattle.pj_plan.specs.Sound.{IsSoundPlan};
ghost use Rattle.pj_plan.specs.Kept.{IsMadeAgain};
ghost use Rattle.pj_plan.specs.Canonical.{node_at, node_name, node_schema};

use crate::links::{Sort, numbers_of, parents_of};
use crate::{Node, Outline};
use pj_shape::Schema;
use pj_value::{List, NoMemory};
use std::alloc::Global;
use std::marker::Model;

/// A plan without fault. A contract sees its outline.
#[derive(Drop)]
pub struct Plan {
    outline: Outline,
    streams: List<u32>,
    joins: List<u32>,
    parents: List<Option<(u32, u32)>>,
}

impl Model for Plan {
    ghost use Rattle.pj_plan.specs.declared.node.Outline.{Outline};
    ghost use Rattle.pj_plan.specs.Kept.{IsKept};

    ghost Value = { Outline };

    ghost view = { λ p. p.outline };

    ghost invariant = { λ p. IsKept p.outline p.streams p.joins p.parents };
}

impl Plan {
    /// An equal plan, or `NoMemory`.
    pub fn copy(&self, alloc: Global) -> Result<Plan, NoMemory>
        ensures { IfOk result (λ copy. copy ≡ self.now) }
    {
        Ok(Plan {
            outline: self.outline.copy(alloc)?,
            streams: List::copy_of(alloc, self.streams.as_slice())?,
            joins: List::copy_of(alloc, self.joins.as_slice())?,
            parents: List::copy_of(alloc, self.parents.as_slice())?,
        })
    }

    // The plan of this outline.
    #[tactic(auto, using(crate::proofs::Fed::few_inputs))]
    pub(crate) fn of(alloc: Global, outline: Outline) -> Result<Plan, NoMemory>
        requires sound { IsSoundPlan outline.nodes }
        requires made { IsMadeAgain outline }
        ensures { IfOk result (λ plan. plan ≡ outline) }
    {
        let nodes = outline.nodes.as_slice();
        let streams = numbers_of(alloc, nodes, Sort::Streams)?;
        let joins = numbers_of(alloc, nodes, Sort::Joins)?;
        let parents = parents_of(alloc, nodes)?;
        Ok(Plan {
            outline,
            streams,
            joins,
            parents,
        })
    }

    /// The version of the plan language.
    pub fn version(&self) -> u32
        ensures { result ≡ self.now.version }
    {
        self.outline.version
    }

    /// The number of nodes. The plan is sound, and its canonical statements make it again.
    pub fn nodes(&self) -> u32
        ensures count { result ≡ length self.now.nodes }
        ensures sound { IsSoundPlan self.now.nodes }
        ensures made { IsMadeAgain self.now }
    {
        self.outline.nodes.len() as u32
    }

    /// Its version and its nodes, as they were declared.
    pub fn outline(&self) -> &Outline
        ensures { result.now ≡ self.now }
    {
        &self.outline
    }

    /// The operator of a node, whose number is below that of the nodes.
    pub fn node(&self, n: u32) -> &Node
        requires { n < length self.now.nodes }
        ensures { result.now ≡ node_at self.now.nodes n }
    {
        &self.outline.nodes.as_slice()[n as usize].node
    }

    /// The name of a node, by its number; empty where there is none.
    pub fn name(&self, n: u32) -> &[u8]
        ensures { result.now ≡ node_name self.now.nodes n }
    {
        match self.outline.nodes.as_slice().get(n as usize) {
            Some(node) => node.name.as_slice(),
            None => b"",
        }
    }

    /// The columns of a node's rows.
    pub fn schema(&self, n: u32) -> &Schema
        requires { n < length self.now.nodes }
        ensures { result.now ≡ node_schema self.now.nodes n }
    {
        &self.outline.nodes.as_slice()[n as usize].schema
    }

    /// The node that this node feeds, and at which of its inputs; `None` exactly at the output.
    pub fn parent(&self, n: u32) -> Option<(u32, u32)>
        requires { n < length self.now.nodes }
        ensures { result ≡ parent_of self.now.nodes n }
    {
        self.parents.as_slice()[n as usize]
    }

    /// The numbers of the streams, in order of declaration.
    pub fn streams(&self) -> &[u32]
        ensures { result.now ≡ streams_of self.now.nodes }
    {
        self.streams.as_slice()
    }

    /// The numbers of the joins, in order of declaration.
    pub fn joins(&self) -> &[u32]
        ensures { result.now ≡ joins_of self.now.nodes }
    {
        self.joins.as_slice()
    }

    /// The number of the output.
    pub fn root(&self) -> u32
        ensures { result + 1 ≡ length self.now.nodes }
    {
        self.outline.nodes.len() as u32 - 1
    }
}
