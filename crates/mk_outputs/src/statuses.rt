//! How the program ends.
ghost use Rattle.std.specs.Prelude.{◌≡◌, IfOk, string_bytes};
ghost use Rattle.mk_outputs.specs.Statuses.{status_number, status_line, text_words, typing_words, which_word};
ghost use Rattle.mk_outputs.specs.Statuses.{limit_words, not_enabled_words};
ghost use Rattle.mk_outputs.specs.Statuses as spec;

use mk_check::{TypeKind, TypeStop};
use mk_io::{INPUT_LIMIT, ReadStop};
use mk_never::NoMemory;
use mk_replay::ReplayStop;
use mk_script::{TextKind, TextStop, Which};
use mk_trace::TraceStop;
use std::alloc::{AllocError, Global};

/// How the program ends. Lines are counted from 1.
#[derive(Clone, Copy, Debug, PartialEq, Eq)]
pub enum Status {
    Ok,
    NoMemory,
    Usage,
    ReadFault,
    WriteFault,
    /// The first line that isn't of the grammar.
    Text {
        line: u64,
        kind: TextKind,
    },
    /// The least ill-typed line.
    IllTyped {
        line: u64,
        kind: TypeKind,
    },
    /// A quantity outside its limits. For bytes the line is 0.
    Limit {
        line: u64,
        which: Which,
        found: u64,
    },
    /// The first event of a schedule that isn't enabled, by its place in its line from 1, and the first of
    /// the seven conditions that fails.
    NotEnabled {
        line: u64,
        event: u64,
        condition: u64,
    },
}

impl Status {
    /// The number that the program ends with.
    pub fn number(&self) -> u8
        ensures { result ≡ status_number self.now }
    {
        match self {
            Status::Ok => 0,
            Status::NoMemory => 1,
            Status::Usage => 2,
            Status::ReadFault => 3,
            Status::WriteFault => 4,
            Status::Text { .. } => 5,
            Status::IllTyped { .. } => 6,
            Status::Limit { .. } => 7,
            Status::NotEnabled { .. } => 8,
        }
    }

    /// The line for standard error, with its newline. `Ok` has none.
    pub fn text(&self, alloc: Global) -> Result<Vec<u8>, NoMemory>
        ensures { IfOk result (λ text. text.items ≡ status_line self.now) }
    {
        Ok(self.line(alloc)?.into_bytes())
    }

    fn line(&self, alloc: Global) -> Result<String, AllocError>
        ensures { IfOk result (λ line. string_bytes line ≡ status_line self.now) }
    {
        match self {
            Status::Ok => String::from_str(alloc, ""),
            Status::NoMemory => String::from_str(alloc, "no memory\n"),
            Status::Usage => String::from_str(
                alloc,
                "usage: markus run, check, print, replay, gen or trace\n",
            ),
            Status::ReadFault => String::from_str(alloc, "read failed\n"),
            Status::WriteFault => String::from_str(alloc, "write failed\n"),
            Status::Text { line, kind } => at_line(alloc, *line, words_of_text(*kind)),
            Status::IllTyped { line, kind } => type_line(alloc, *line, *kind),
            Status::Limit { line, which, found } => limit_line(alloc, *line, *which, *found),
            Status::NotEnabled {
                line,
                event,
                condition,
            } => not_enabled_line(alloc, *line, *event, *condition),
        }
    }
}

impl From<AllocError> for Status {
    ghost use Rattle.mk_outputs.specs.declared.statuses.Status.TheVariants.{NoMemory};

    ghost from_gives = { λ _ status. status ≡ NoMemory };

    fn from(_refused: AllocError) -> Status {
        Status::NoMemory
    }
}

impl From<NoMemory> for Status {
    ghost use Rattle.mk_outputs.specs.declared.statuses.Status.TheVariants.{NoMemory};

    ghost from_gives = { λ _ status. status ≡ NoMemory };

    fn from(_refused: NoMemory) -> Status {
        Status::NoMemory
    }
}

impl From<ReadStop> for Status {
    ghost use Rattle.mk_outputs.specs.Outputs.{status_of_read_stop};

    ghost from_gives = { λ stop status. status ≡ status_of_read_stop stop };

    fn from(stop: ReadStop) -> Status {
        match stop {
            ReadStop::ReadFault => Status::ReadFault,
            ReadStop::TooLong => Status::Limit {
                line: 0,
                which: Which::Bytes,
                found: INPUT_LIMIT as u64 + 1,
            },
            ReadStop::NoMemory => Status::NoMemory,
        }
    }
}

impl From<TextStop> for Status {
    ghost use Rattle.mk_outputs.specs.Outputs.{status_of_text_stop};

    ghost from_gives = { λ stop status. status ≡ status_of_text_stop stop };

    fn from(stop: TextStop) -> Status {
        match stop {
            TextStop::Text { line, kind } => Status::Text { line, kind },
            TextStop::Limit { line, which, found } => Status::Limit { line, which, found },
            TextStop::NoMemory => Status::NoMemory,
        }
    }
}

impl From<TypeStop> for Status {
    ghost use Rattle.mk_outputs.specs.Outputs.{status_of_type_stop};

    ghost from_gives = { λ stop status. status ≡ status_of_type_stop stop };

    fn from(stop: TypeStop) -> Status {
        match stop {
            TypeStop::IllTyped { line, kind } => Status::IllTyped { line, kind },
            TypeStop::NoMemory => Status::NoMemory,
        }
    }
}

impl From<ReplayStop> for Status {
    ghost use Rattle.std.specs.Prelude.{Some};
    ghost use Rattle.mk_outputs.specs.Outputs.{status_of_refusal};

    ghost from_gives = { λ stop status. status ≡ status_of_refusal (Some stop) };

    fn from(stop: ReplayStop) -> Status {
        match stop {
            ReplayStop::NotEnabled {
                line,
                event,
                condition,
            } => Status::NotEnabled {
                line,
                event,
                condition,
            },
            ReplayStop::NoMemory => Status::NoMemory,
        }
    }
}

impl From<TraceStop> for Status {
    ghost use Rattle.mk_outputs.specs.Outputs.{status_of_trace_stop};

    ghost from_gives = { λ stop status. status ≡ status_of_trace_stop stop };

    fn from(stop: TraceStop) -> Status {
        match stop {
            TraceStop::Text { line, kind } => Status::Text { line, kind },
            TraceStop::IllTyped { line, kind } => Status::IllTyped { line, kind },
            TraceStop::Limit { line, which, found } => Status::Limit { line, which, found },
            TraceStop::NoMemory => Status::NoMemory,
        }
    }
}

fn at_line(alloc: Global, line: u64, words: &str) -> Result<String, AllocError>
    ensures { IfOk result (λ text. string_bytes text ≡ spec.message_at_line line words.now) }
{
    format!(in alloc; "line {line}: {words}\n")
}

fn type_line(alloc: Global, line: u64, kind: TypeKind) -> Result<String, AllocError>
    ensures { IfOk result (λ text. string_bytes text ≡ spec.message_at_line line (typing_words kind)) }
{
    match kind {
        TypeKind::TooLong { count } => {
            let words = format!(in alloc; "too long {count}")?;
            at_line(alloc, line, words.as_str())
        }
        TypeKind::NoType => at_line(alloc, line, "no type"),
        TypeKind::NoRegister => at_line(alloc, line, "no register"),
        TypeKind::NoGlobal => at_line(alloc, line, "no global"),
        TypeKind::Offset => at_line(alloc, line, "offset"),
        TypeKind::Kind => at_line(alloc, line, "kind"),
        TypeKind::InteriorFree => at_line(alloc, line, "interior free"),
    }
}

fn limit_line(alloc: Global, line: u64, which: Which, found: u64) -> Result<String, AllocError>
    ensures { IfOk result (λ text. string_bytes text ≡ spec.message_at_line line (limit_words which found)) }
{
    let which = word_of(which);
    format!(in alloc; "line {line}: limit {which} {found}\n")
}

fn not_enabled_line(
    alloc: Global,
    line: u64,
    event: u64,
    condition: u64,
) -> Result<String, AllocError>
    ensures { IfOk result (λ text. string_bytes text ≡ spec.message_at_line line (not_enabled_words event condition)) }
{
    let words = format!(in alloc; "event {event} not enabled, condition {condition}")?;
    at_line(alloc, line, words.as_str())
}

fn words_of_text(kind: TextKind) -> &'static str
    ensures { result.now ≡ text_words kind }
{
    match kind {
        TextKind::Header => "header",
        TextKind::Word => "word",
        TextKind::Number => "number",
        TextKind::Name => "name",
        TextKind::Twice => "twice",
        TextKind::End => "end",
    }
}

fn word_of(which: Which) -> &'static str
    ensures { result.now ≡ which_word which }
{
    match which {
        Which::Bytes => "bytes",
        Which::Pages => "pages",
        Which::Resident => "resident",
        Which::Scripts => "scripts",
        Which::Globals => "globals",
        Which::Types => "types",
        Which::Words => "words",
        Which::Pointers => "pointers",
        Which::Numbers => "numbers",
        Which::Depth => "depth",
    }
}
