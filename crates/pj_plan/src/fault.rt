// The faults of a plan.
use pj_value::NoMemory;

/// What is wrong with a statement of a plan. On one line the fault that stands first here is named.
#[derive(Clone, Copy, Debug, PartialEq, Eq)]
pub enum PlanWhy {
    /// The first statement is not `plan 1`, or there is no statement.
    NotAPlan,
    /// The first cell is no statement word, or a `plan` that is not the first statement.
    UnknownStatement,
    /// The cells do not have the statement's form.
    BadShape,
    /// The new node's name is taken.
    NameTwice,
    /// An input or output that is no node declared before; a scheme of no stream declared before.
    UnknownName,
    /// A named column that no input has.
    UnknownColumn,
    /// Two columns of the result have one name.
    ColumnTwice,
    /// Inputs of a union with other columns; two kinds in a class; a pattern of another kind than its column; a sum of texts.
    KindsDiffer,
    /// Two columns of one input in a class, or a column that is named twice among the classes.
    BadClass,
    /// Another number of marks than columns, or no column marked.
    BadScheme,
    /// An input or output that was used before or stands twice; at the output, another node that was never used.
    UsedTwiceOrNever,
    /// The statement goes beyond a limit.
    TooMany,
    /// A statement behind the output, or no output.
    Output,
    /// The line is too long, unclosed, or has too many cells.
    Unreadable,
}

/// The first fault of a plan: the number of its line, counted from 1, and what is wrong with it.
#[derive(Clone, Copy, Debug, PartialEq, Eq)]
pub struct PlanFault {
    pub line: u64,
    pub why: PlanWhy,
}

/// Why there is no plan.
#[derive(Clone, Copy, Debug, PartialEq, Eq)]
pub enum PlanStop {
    Fault(PlanFault),
    NoMemory,
}

impl From<PlanFault> for PlanStop {
    ghost use Rattle.std.specs.Prelude.{◌≡◌};
    ghost use Rattle.pj_plan.specs.declared.fault.PlanStop.TheVariants.{Fault};

    ghost from_gives = { λ fault stop. stop ≡ Fault fault };

    fn from(fault: PlanFault) -> PlanStop {
        PlanStop::Fault(fault)
    }
}

impl From<NoMemory> for PlanStop {
    ghost use Rattle.std.specs.Prelude.{◌≡◌};
    ghost use Rattle.pj_plan.specs.declared.fault.PlanStop.TheVariants.{NoMemory as OutOfMemory};

    ghost from_gives = { λ _ stop. stop ≡ OutOfMemory };

    fn from(_: NoMemory) -> PlanStop {
        PlanStop::NoMemory
    }
}
