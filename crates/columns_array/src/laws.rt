//! Examples of the definitions.

ghost use Rattle.columns_array.specs.Examples.{AreWorked};

/// The definitions of buffers, shapes and parts say of some what they should.
#[tactic(auto, using(crate::proofs::Worked::keys_worked))]
pub fn as_worked()
    ensures { AreWorked }
{}
