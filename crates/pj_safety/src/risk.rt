// Why a node of a plan is unsafe.

/// Why a node of a plan is unsafe. Inputs are counted from 0.
#[derive(Clone, Copy, Debug, PartialEq, Eq)]
pub enum PlanRisk {
    /// An input of a join does not reach all: the first such input, and the least input that it does not reach.
    Stuck { input: u32, missing: u32 },
}
