//! Laws of the sample, and examples that are computed when the crate is checked.
ghost use Rattle.sample_rows.specs.Present.{ItemsAddUp};
ghost use Rattle.sample_rows.specs.Worked.{AsWorked};

/// The rows of the smallest samples.
pub fn as_worked()
    ensures { AsWorked }
{}

/// Lists that are counted in parts are counted together.
#[tactic(auto, using(crate::proofs::Counted::items_add_up))]
pub fn items_add_up()
    ensures { ItemsAddUp }
{}
