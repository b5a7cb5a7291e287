// The loop from lines to replies.
ghost use Rattle.std.specs.Prelude.{◌≡◌, ◌≢◌, ◌≤◌, ◌+◌, ◌∷◌, ◌++◌, ◌↔◌, ℕ, List, [], true, false, length, map, string_bytes, None, Ok, IfOk, OnOk, IsErrOf};
ghost use Rattle.std.specs.Io.KnownBytes.{IsAtEnd};
ghost use Rattle.flow_io.specs.Causes.{Rose};
ghost use Rattle.flow_wire.specs.Replied.{is_refusal};
ghost use Rattle.kernel_cli.specs.Output.{line_answer, reply_line};
ghost use Rattle.kernel_cli.specs.Turn.{Turns};
ghost use Rattle.kernel_cli.specs.Outcome.{IsComplete, IsOutcome, IsRunOutcome, IsSure, Told, end_status};
ghost use Rattle.kernel_cli.specs.Headline.{IsCovered};
ghost use Rattle.kernel_cli.specs.Words.{command_of};
ghost use Rattle.kernel_core.specs.declared.kernel.TheConstants.{STEPS_LIMIT};

use crate::status::Status;
use crate::words::{Command, read_words};
use flow_base::{Bytes, NoMemory};
use flow_io::{
    INPUT_LIMIT, LINE_LIMIT, Line, LineFault, LineReader, Sink, Source, SureSink, SureSource, put,
};
use flow_wire::{BadAsk, EventKind, Reply, read_ask, write_reply};
use kernel_core::{Kernel, clean_reply_law};
use std::alloc::Global;

/// Answers each line of the source at the sink, one reply line for each. A run that is answered `clean` used nothing
/// outdated.
pub fn ipyflow<S: Source, K: Sink>(
    alloc: Global,
    words: &[String],
    source: &mut S,
    sink: &mut K,
) -> Status
    ensures outcome { IsOutcome (command_of (map string_bytes words.now)) result
        (record { bytes = S.left source.old; faults = S.faults source.old })
        (record { bytes = S.left source.new; faults = S.faults source.new })
        (record { bytes = K.written sink.old; faults = K.faults sink.old })
        (record { bytes = K.written sink.new; faults = K.faults sink.new }) }
    ensures usage { (result ≡ Status.Usage) ↔ (command_of (map string_bytes words.now) ≡ None) }
    ensures unused { result ≡ Status.Usage → (source.new ≡ source.old) × (sink.new ≡ sink.old) }
    ensures complete { IsComplete (command_of (map string_bytes words.now)) result
        (record { bytes = S.left source.old; faults = S.faults source.old })
        (record { bytes = S.left source.new; faults = S.faults source.new })
        (record { bytes = K.written sink.old; faults = K.faults sink.old })
        (record { bytes = K.written sink.new; faults = K.faults sink.new }) }
    ensures clean { IsCovered (command_of (map string_bytes words.now)) (S.left source.old) }
{
    clean_reply_law();
    match read_words(words) {
        Some(Command::Run { steps }) => serve(alloc, steps, source, sink),
        None => Status::Usage,
    }
}

/// The same over a source and a sink that never fail: no fault is answered, and the status is that of the input.
pub fn ipyflow_surely(
    alloc: Global,
    words: &[String],
    source: &mut SureSource,
    sink: &mut SureSink,
) -> Status
    ensures read { result ≢ Status.ReadFault }
    ensures write { result ≢ Status.WriteFault }
    ensures sure { IsSure (command_of (map string_bytes words.now)) source.old result }
{
    ipyflow(alloc, words, source, sink)
}

fn serve<S: Source, K: Sink>(alloc: Global, steps: u32, source: &mut S, sink: &mut K) -> Status
    requires { steps ≤ STEPS_LIMIT }
    ensures { IsRunOutcome steps result
        (record { bytes = S.left source.old; faults = S.faults source.old })
        (record { bytes = S.left source.new; faults = S.faults source.new })
        (record { bytes = K.written sink.old; faults = K.faults sink.old })
        (record { bytes = K.written sink.new; faults = K.faults sink.new }) }
{
    let Ok(mut reader) = LineReader::new(alloc) else {
        return Status::NoMemory;
    };
    let Ok(mut kernel) = Kernel::new(alloc, steps) else {
        return Status::NoMemory;
    };
    let mut refused = false;
    loop {
        match next_reply(alloc, &mut reader, &mut kernel, source) {
            Ok(Some(reply)) => {
                let Ok(answered) = encode(alloc, reply) else {
                    return Status::NoMemory;
                };
                refused |= answered.refused;
                let Ok(()) = put(sink, answered.line.as_slice()) else {
                    return Status::WriteFault;
                };
            }
            Ok(None) => return end_status(refused),
            Err(LineFault::Read) => return Status::ReadFault,
            Err(LineFault::InputLimit) => return Status::InputLimit,
            Err(LineFault::NoMemory) => return Status::NoMemory,
        }
    }
}

// How the input ends, where some line was refused or none was.
fn end_status(refused: bool) -> Status
    ensures { result ≡ end_status refused }
{
    if refused {
        Status::Refused
    } else {
        Status::Done
    }
}

// Takes a line and makes its reply.
fn next_reply<S: Source>(
    alloc: Global,
    reader: &mut LineReader,
    kernel: &mut Kernel,
    source: &mut S,
) -> Result<Option<Reply>, LineFault>
    requires open { reader.old.is_open ≡ true }
    requires at_end { reader.old.ended ≡ true → IsAtEnd (S.left source.old) × (reader.old.pending ≡ []) × (reader.old.taken ≤ INPUT_LIMIT) }
    ensures turns { (given : List ℕ) × Turns given (S.left source.old) (S.left source.new) reader.old reader.new kernel.old kernel.new result }
    ensures ended { reader.old.ended ≡ true → result ≡ Ok None }
    ensures limit { reader.new.taken ≤ INPUT_LIMIT + 1 }
    ensures failed { IsErrOf result LineFault.Read → Rose (S.faults source.old) (S.faults source.new) }
    ensures later { S.faults source.old ≤ S.faults source.new }
{
    match reader.next_line(source)? {
        Line::Text(line) => match answer(alloc, kernel, line.as_slice()) {
            Ok(reply) => Ok(Some(reply)),
            Err(NoMemory) => Err(LineFault::NoMemory),
        },
        Line::TooLong => Ok(Some(Reply::Event {
            kind: EventKind::Long,
        })),
        Line::End => Ok(None),
    }
}

// The reply to a line that is not too long.
fn answer(alloc: Global, kernel: &mut Kernel, line: &[u8]) -> Result<Reply, NoMemory>
    requires { length line.now ≤ LINE_LIMIT }
    ensures reply { IfOk result (λ reply. reply ≡ (line_answer kernel.old line.now).reply) }
    ensures kernel { OnOk result (kernel.new ≡ (line_answer kernel.old line.now).kernel) }
{
    match read_ask(alloc, line) {
        Ok(ask) => kernel.step(&ask),
        Err(BadAsk::Utf8) => Ok(Reply::Event {
            kind: EventKind::Utf8,
        }),
        Err(BadAsk::Json) => Ok(Reply::Event {
            kind: EventKind::Json,
        }),
        Err(BadAsk::Shape) => Ok(Reply::Event {
            kind: EventKind::Shape,
        }),
        Err(BadAsk::NoMemory) => Err(NoMemory),
    }
}

// A reply as it is written.
#[derive(Drop)]
struct Answered {
    line: Bytes,
    refused: bool,
}

fn encode(alloc: Global, reply: Reply) -> Result<Answered, NoMemory>
    ensures { IfOk result (λ answered. (answered.line ≡ reply_line reply) × (answered.refused ≡ is_refusal reply)) }
{
    let refused = reply.is_refusal();
    let mut line = write_reply(alloc, &reply)?;
    line.push(b'\n')?;
    Ok(Answered { line, refused })
}
