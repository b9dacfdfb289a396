//! What the program does.
ghost use Rattle.std.specs.Prelude.{◌≡◌};
ghost use Rattle.mk_outputs.specs.Commands as spec;

/// What the program does.
#[derive(Clone, Copy, Debug, PartialEq, Eq)]
pub enum Command {
    /// Does something with the text that it reads.
    OnText(TextCommand),
    /// Runs a generated program, and sums up.
    Gen(Request),
}

/// A command that reads a text.
#[derive(Clone, Copy, Debug, PartialEq, Eq)]
pub enum TextCommand {
    /// Runs the scripts of a text.
    Run(Options),
    /// Says whether a text's program is well typed.
    Check,
    /// Prints the canonical text of a text's program.
    Print,
    /// Runs the schedule after a text.
    Replay,
    /// Plays a text's trace.
    Trace,
}

/// How scripts are run.
#[derive(Clone, Copy, Debug, PartialEq, Eq)]
pub struct Options {
    pub marking: Marking,
    /// What the last cycle kept is printed, and why.
    pub why: bool,
    /// The counts of the heap at the end are printed.
    pub report: bool,
}

/// How cycles mark.
#[derive(Clone, Copy, Debug, PartialEq, Eq)]
pub enum Marking {
    /// By tracing, in the stop.
    Stop,
    /// By tracing, beside the scripts, with this many markers.
    Beside(u64),
    /// By a sweep over the heap, in the stop.
    Sweep,
}

impl Marking {
    /// The marking by tracing with this many markers: without any it is done in the stop.
    pub fn with_markers(markers: u64) -> Marking
        ensures { result ≡ spec.traced_by markers }
    {
        if markers > 0 {
            Marking::Beside(markers)
        } else {
            Marking::Stop
        }
    }
}

/// Which program is generated, and how it is run.
#[derive(Clone, Copy, Debug, PartialEq, Eq)]
pub struct Request {
    pub start: u64,
    pub count: u64,
    pub markers: u64,
}
