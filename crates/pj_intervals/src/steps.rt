// Step functions over the values in order.
ghost use Rattle.std.specs.Prelude.{◌≡◌};
ghost use Rattle.pj_intervals.specs.Steps.{IsSorted, is_not_above, is_reached, place_at};

use pj_value::Value;

/// A place between values in order.
#[derive(Drop)]
pub enum Cut {
    /// Below all values.
    Start,
    /// Right below a value.
    Before(Value),
    /// Right above a value.
    After(Value),
}

/// What a step function answers from a cut on, up to the next cut.
#[derive(Drop)]
pub struct Step {
    pub(crate) from: Cut,
    pub(crate) place: Option<usize>,
}

impl Cut {
    /// Whether the value stands above the cut.
    pub(crate) fn is_reached(&self, value: &Value) -> bool
        ensures { result ≡ is_reached self.now value.now }
    {
        match self {
            Cut::Start => true,
            Cut::Before(cut) => !cut.order(value).is_gt(),
            Cut::After(cut) => value.order(cut).is_gt(),
        }
    }

    /// Whether every value above the other stands above this one.
    pub(crate) fn is_not_above(&self, other: &Cut) -> bool
        ensures { result ≡ is_not_above self.now other.now }
    {
        match (self, other) {
            (Cut::Start, _) => true,
            (Cut::Before(_), Cut::Start) => false,
            (Cut::Before(cut), Cut::Before(other)) => !cut.order(other).is_gt(),
            (Cut::Before(cut), Cut::After(other)) => !cut.order(other).is_gt(),
            (Cut::After(_), Cut::Start) => false,
            (Cut::After(cut), Cut::Before(other)) => other.order(cut).is_gt(),
            (Cut::After(cut), Cut::After(other)) => !cut.order(other).is_gt(),
        }
    }
}

/// The place that a step function has for the value, by a binary search.
pub(crate) fn place_at(steps: &[Step], value: &Value) -> Option<usize>
    ensures { IsSorted steps.now → result ≡ place_at steps.now value.now }
{
    let above = steps.partition_point(|step| !step.from.is_reached(value));
    match steps.get(above) {
        None => None,
        Some(step) => step.place,
    }
}
