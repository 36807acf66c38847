//! That lanes stay small.

ghost use Rattle.std.specs.Prelude.{◌≤◌};
ghost use Rattle.scenario.specs.Tree.{Tree};
ghost use Rattle.cursors.specs.Stock.{nodes};
ghost use Rattle.lanes.specs.Fitting.{LanesFit, parts_of_lanes};
ghost use Rattle.lanes.specs.Lanes.{Laned};

/// The cursors of lanes that fit in a scenario hold no more parts together than this has nodes, in use or kept for later. Lanes
/// fit in their scenario where they are opened ([`Lanes::open`](crate::Lanes::open)), and neither
/// [`Lanes::follow`](crate::Lanes::follow) nor [`Lanes::restart`](crate::Lanes::restart) changes that.
pub fn lanes_stay_small()
    ensures { (lanes : Laned) (tree : Tree) → LanesFit lanes tree → parts_of_lanes lanes ≤ nodes tree }
{}
