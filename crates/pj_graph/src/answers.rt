// What is answered for an input of a join.
use pj_shape::Cert;
use pj_value::List;

/// What an input of a join reaches.
#[derive(Drop)]
pub enum Reach {
    /// Every other input, in the order and by the schemes of this certificate.
    All(Cert),
    /// These inputs only, in order, itself among them; `missing` is the least of the others.
    Stuck { reached: List<u32>, missing: u32 },
}
