//! The law of findings and demands.
ghost use Rattle.script_demand.specs.Laws.{AMisfitIsSaidWhereTheDemandDoesNotFit};

/// Of one script a misfit is said if and only if its demand ends in `fits no`.
pub fn a_misfit_is_said_where_the_demand_does_not_fit()
    ensures { AMisfitIsSaidWhereTheDemandDoesNotFit }
{}
