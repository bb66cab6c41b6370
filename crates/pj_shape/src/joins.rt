// What a join is: its inputs' columns, and the classes of columns that must be equal.
ghost use Rattle.std.specs.Prelude.{◌≡◌, ◌<◌, ◌≤◌, Some, length, slice_get, IfOk};
ghost use Rattle.pj_shape.specs.Joining.{class_of};
ghost use Rattle.pj_shape.specs.Sound.{IsSoundSpec};

use crate::Schema;
use crate::cells::has_column;
use pj_value::{List, NoMemory, TryClone};
use std::alloc::Global;
use std::marker::Model;

/// A column of an input.
#[derive(Clone, Copy, Debug, PartialEq, Eq)]
pub struct ClassCol {
    pub input: u32,
    pub column: u32,
}

/// A join by equal columns: the columns of each input, and the classes of columns that must be equal.
#[derive(Drop)]
pub struct JoinSpec {
    pub inputs: List<Schema>,
    pub classes: List<List<ClassCol>>,
}

/// A step of a certificate: an input, and the place of one of its schemes.
#[derive(Clone, Copy, Debug, PartialEq, Eq)]
pub struct CertStep {
    pub input: u32,
    pub scheme: u32,
}

/// A certificate of an input of a join, seen as the list of its steps.
#[derive(Drop)]
pub struct Cert {
    steps: List<CertStep>,
}

impl Model for Cert {
    ghost use Rattle.std.specs.Prelude.{List};
    ghost use Rattle.pj_shape.specs.declared.joins.CertStep.{CertStep};

    ghost Value = { List CertStep };

    ghost view = { λ c. c.steps };
}

impl JoinSpec {
    /// The number of the first class that has this column; `None` where no class has it.
    pub fn class_of(&self, at: ClassCol) -> Option<u32>
        requires { IsSoundSpec self.now }
        ensures { result ≡ class_of self.now.classes at }
    {
        class_in(self.classes.as_slice(), at)
    }

    /// An equal join.
    pub fn copy(&self, alloc: Global) -> Result<JoinSpec, NoMemory>
        ensures { IfOk result (λ copy. copy ≡ self.now) }
    {
        Ok(JoinSpec {
            inputs: self.inputs.try_clone(alloc)?,
            classes: self.classes.try_clone(alloc)?,
        })
    }
}

impl Cert {
    /// The certificate of these steps.
    pub fn of(items: List<CertStep>) -> Cert
        ensures { result ≡ items }
    {
        Cert { steps: items }
    }

    /// The number of steps.
    pub fn len(&self) -> usize
        ensures { result ≡ length self.now }
    {
        self.steps.len()
    }

    /// The step at a place below the length.
    pub fn at(&self, place: usize) -> &CertStep
        requires { place < length self.now }
        ensures { slice_get self.now place ≡ Some result.now }
    {
        &self.steps.as_slice()[place]
    }

    /// An equal certificate.
    pub fn copy(&self, alloc: Global) -> Result<Cert, NoMemory>
        ensures { IfOk result (λ copy. copy ≡ self.now) }
    {
        Ok(Cert {
            steps: List::copy_of(alloc, self.steps.as_slice())?,
        })
    }
}

impl TryClone for ClassCol {
    fn try_clone(&self, _alloc: Global) -> Result<ClassCol, NoMemory> {
        Ok(*self)
    }
}

impl TryClone for Cert {
    fn try_clone(&self, alloc: Global) -> Result<Cert, NoMemory> {
        self.copy(alloc)
    }
}

fn class_in(classes: &[List<ClassCol>], at: ClassCol) -> Option<u32>
    requires { length classes.now ≤ 32 }
    ensures { result ≡ class_of classes.now at }
{
    for (n, class) in classes.iter().enumerate() {
        if has_column(class.as_slice(), at) {
            return Some(n as u32);
        }
    }
    None
}
