// The replies that a line can have.
ghost use Rattle.std.specs.Prelude.{◌≡◌, codes, is_some};

use flow_base::{Kind, PyText, Shared, SyntaxKind};

/// Texts in their order. Contracts see a list of lists of code points. Copies share the texts in memory.
pub type TextList = Shared<PyText>;

/// How a run ended.
#[derive(Drop)]
pub enum EndText {
    /// The cell ran through.
    Ok,
    /// An exception of this class was caught nowhere.
    Raised(PyText),
    /// The run used up its steps.
    Steps,
    /// A whole number left the range of 128 bits.
    Range,
}

/// A node that the analysis could not follow: the number of the run, from 1, whose text holds it, and the node's own
/// number in that text, from 1.
#[derive(Clone, Copy, Debug, PartialEq, Eq)]
pub struct UnknownText {
    pub kind: Kind,
    pub run: u64,
    pub node: u64,
}

/// What is known of a cell before it runs.
#[derive(Drop)]
pub enum MarkText {
    /// It reads no value that rests on one overwritten since.
    Clean,
    /// It reads `symbol`. The run `computed` computed its value, or one on which that rests, from `dep`, which the run
    /// `overwritten` wrote again later. Runs are numbered from 1.
    Stale {
        computed: u64,
        dep: PyText,
        overwritten: u64,
        symbol: PyText,
    },
    /// The analysis could not follow a node.
    Unknown(UnknownText),
    /// The cell has a form that is not analysed. `run` is the number, from 1, of the run that it is marked for.
    Form {
        run: u64,
    },
}

/// Why a line is no event: it is too long, is not UTF-8, is not JSON, or has the shape of no event.
#[derive(Clone, Copy, Debug, PartialEq, Eq)]
pub enum EventKind {
    Long,
    Utf8,
    Json,
    Shape,
}

/// The answer to one line.
#[derive(Drop)]
pub enum Reply {
    /// The cell has its new text.
    Edited {
        cell: PyText,
    },
    /// The cell was run as the run with this number, from 1. `mark` and `stale` are by the state before the run:
    /// `stale` has the paths of the locations whose stale value the run used. `out` is what the run printed.
    Ran {
        cell: PyText,
        end: EndText,
        mark: MarkText,
        out: PyText,
        run: u64,
        stale: TextList,
    },
    /// The cell, printed.
    Shown {
        cell: PyText,
        text: PyText,
    },
    /// The line is no event.
    Event {
        kind: EventKind,
    },
    /// The cell has no text.
    NoCell,
    /// The line asks for more steps than a run may have.
    BadSteps,
    /// The cell has a form that is not run.
    Form,
    /// The text was refused, for the fault on this line of it, counted from 1.
    Syntax {
        kind: SyntaxKind,
        line: u64,
    },
}

ghost use Rattle.serde_json.specs.Find.{get};
ghost use Rattle.flow_wire.specs.Replied.{is_refusal, reply_data};

impl Reply {
    /// Whether the line was refused. Takes no memory.
    pub fn is_refusal(&self) -> bool
        ensures which { result ≡ is_refusal self.now }
        // the line of such a reply has the key `refused`, and the line of no other reply has it
        ensures key { result ≡ is_some (get (codes "refused") (reply_data self.now)) }
    {
        match self {
            Reply::Edited { .. } | Reply::Ran { .. } | Reply::Shown { .. } => false,
            Reply::Event { .. }
            | Reply::NoCell
            | Reply::BadSteps
            | Reply::Form
            | Reply::Syntax { .. } => true,
        }
    }
}
