//! The laws of handles. The functions change nothing: their contracts are theorems.
ghost use Rattle.std.specs.Thread.{IsSend};
ghost use Rattle.warm_c.specs.contracts.handle.Handle.{the_row as handle_row};
ghost use Rattle.warm_c.specs.contracts.visit_handle.VisitHandle.{the_row as visit_row};

/// A handle may go from one thread to another, with the node that it holds.
pub fn handles_cross()
    ensures { IsSend handle_row }
{}

/// A handle of visits may, too, with the visit that it holds.
pub fn visits_cross()
    ensures { IsSend visit_row }
{}
