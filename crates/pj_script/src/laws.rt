// Worked scripts, computed.
ghost use Rattle.pj_script.specs.Worked.{InputsAreNamed, NamesAreThere, StepsAreNumbered};

/// Scripts over the plan of an auction: their steps with the numbers of their lines, or the line of their first fault.
pub fn worked_scripts()
    ensures steps { StepsAreNumbered }
    ensures inputs { InputsAreNamed }
    ensures faults { NamesAreThere }
{}
