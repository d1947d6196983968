//! Laws of lines and of devicetrees, proved of the definitions.
ghost use Rattle.rim_accepted.specs.Devicetree.{DevicetreesAreMeasured};
ghost use Rattle.rim_accepted.specs.Headline.{AcceptedAreMeasured, RefusedAreNamed};

/// What a line of a report says. Where the launch is accepted, it shows the measurement that a monitor holds after the
/// launch's listed commands; the monitor takes all of them, measures just the launch's measured parts, and gives no
/// granule two owners. Else it has the word of the first refusal.
pub fn a_line_says_what_a_monitor_holds()
    ensures accepted { AcceptedAreMeasured }
    ensures refused { RefusedAreNamed }
{}

/// The devicetree that is given out of a launch is the one that is measured, where its item is: the step of the launch's
/// devicetree adds just the pages of these bytes to its measured parts. Each item of a launch has one step.
pub fn devicetrees_are_measured()
    ensures { DevicetreesAreMeasured }
{}
