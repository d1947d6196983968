//! A law of traces, proved of the definitions.
ghost use Rattle.rim_audit.specs.Trace.{TracesEndWithTheRim, TracesShowWhatIsHeld};

/// What the lines of a trace show, where the launch is accepted. Each has the measurement that a monitor holds after its command,
/// and each command that creates or extends the measurement has one. The last line has the measurement that the report shows.
pub fn a_trace_shows_what_a_monitor_holds()
    ensures each { TracesShowWhatIsHeld }
    ensures last { TracesEndWithTheRim }
{}
