// Worked logs with the replies that they must get, over a source and a sink in memory.
ghost use Rattle.std.specs.Prelude.{◌≤◌, None, IfOk, length};
ghost use Rattle.flow_io.specs.Causes.{HasCause};

use crate::law::{clean_log_law, stale_log_law};
use crate::serve::{ipyflow, ipyflow_surely};
use crate::status::Status;
use crate::words::{Command, read_words};
use flow_base::NoMemory;
use flow_io::{Failed, INPUT_LIMIT, LINE_LIMIT, MemSink, MemSource, Source, SureSink, SureSource};
use std::alloc::Global;
use std::process::Abort;
use std::str;
use std::test::Fail;

const EDIT: &str = "{\"event\":\"edit\",\"cell\":\"a\",\"text\":\"x = 1\"}\n";

const RUN: &str = "{\"event\":\"run\",\"cell\":\"a\"}\n";

const BARE_RUN: &str = "{\"event\":\"run\",\"cell\":\"a\"}";

const EDITED: &str = "{\"cell\":\"a\",\"edited\":true}\n";

const RAN_1: &str =
    "{\"cell\":\"a\",\"end\":\"ok\",\"mark\":\"clean\",\"out\":\"\",\"run\":1,\"stale\":[]}\n";

const RAN_2: &str =
    "{\"cell\":\"a\",\"end\":\"ok\",\"mark\":\"clean\",\"out\":\"\",\"run\":2,\"stale\":[]}\n";

const NAME_ERROR_1: &str =
    "{\"cell\":\"a\",\"end\":{\"raised\":\"NameError\"},\"mark\":\"clean\",\"out\":\"\",\"run\":1,\"stale\":[]}\n";

const LONG: &str = "{\"kind\":\"long\",\"refused\":\"event\"}\n";

const UTF8: &str = "{\"kind\":\"utf8\",\"refused\":\"event\"}\n";

const JSON: &str = "{\"kind\":\"json\",\"refused\":\"event\"}\n";

const SHAPE: &str = "{\"kind\":\"shape\",\"refused\":\"event\"}\n";

const NO_CELL: &str = "{\"refused\":\"no cell\"}\n";

const FORM: &str = "{\"refused\":\"form\"}\n";

const SHOW: &str = "{\"event\":\"show\",\"cell\":\"a\"}\n";

const SYNTAX_1: &str = "{\"kind\":\"syntax\",\"line\":1,\"refused\":\"syntax\"}\n";

const CHAIN_BEGIN: &str =
    "{\"cell\":\"c0\",\"event\":\"edit\",\"text\":\"v0 = 1\"}\n{\"cell\":\"c0\",\"event\":\"run\"}\n";

const CHAIN_END: &str =
    "{\"cell\":\"c0\",\"event\":\"run\"}\n{\"cell\":\"p\",\"event\":\"edit\",\"text\":\"w = v999\"}\n{\"cell\":\"p\",\"event\":\"run\"}\n";

const CHAIN_REPLY: &str =
    "{\"cell\":\"p\",\"end\":\"ok\",\"mark\":{\"stale\":{\"computed\":1000,\"dep\":\"v0\",\"overwritten\":1001,\"symbol\":\"v999\"}},\"out\":\"\",\"run\":1002,\"stale\":[\"v999\"]}\n";

fn joined(alloc: Global, pieces: &[&str]) -> Result<Vec<u8>, NoMemory> {
    let mut bytes = Vec::new(alloc);
    for piece in pieces {
        bytes.extend_from_slice(piece.as_bytes())?;
    }
    Ok(bytes)
}

fn one_word(alloc: Global, word: &str) -> Result<Vec<String>, NoMemory> {
    let mut words = Vec::new(alloc);
    words.push(String::from_str(alloc, word)?)?;
    Ok(words)
}

// A source in memory that gives at most so many bytes a call. It tells none.
#[derive(Drop)]
struct Pieces {
    source: MemSource,
    most: usize,
}

impl Source for Pieces {
    ghost left = { λ _. None };

    ghost faults = { λ s. s.source.faults };

    fn read(&mut self, buf: &mut [u8]) -> Result<usize, Failed>
        ensures bound { IfOk result (λ n. n ≤ length buf.new) }
        ensures cause { HasCause self.old.source.faults self.new.source.faults result }
    {
        let len = buf.len().min(self.most);
        self.source.read(&mut buf[..len])
    }
}

// Answers the log, where these reads and these writes fail, and compares the status and what was written.
fn answers(
    rt: &(impl Abort + AllocGlobal),
    log: &[u8],
    faults: (u64, u64),
    status: Status,
    replies: &[&str],
) -> Result<(), Fail> {
    answers_pieces(rt, log, 4_096, faults, status, replies)
}

// The same where the source gives at most so many bytes a call.
fn answers_pieces(
    rt: &(impl Abort + AllocGlobal),
    log: &[u8],
    most: usize,
    faults: (u64, u64),
    status: Status,
    replies: &[&str],
) -> Result<(), Fail> {
    let alloc = rt.alloc();
    let words = one_word(alloc, "run")?;
    let replies = joined(alloc, replies)?;
    let mut source = Pieces {
        source: MemSource::new(alloc, log, &[faults.0])?,
        most,
    };
    let mut sink = MemSink::new(alloc, 10_000, &[faults.1])?;
    assert_eq!(rt; ipyflow(alloc, &words, &mut source, &mut sink), status);
    assert_eq!(rt; sink.written(), replies.as_slice());
    Ok(())
}

// A log, the number of the read and of the write that fail (0 for none), the status, and the replies.
#[test]
fn logs_get_their_replies(rt: HostRuntime) -> Result<(), Fail> {
    let alloc = rt.alloc();
    let rows: [(&[&str], (u64, u64), Status, &[&str]); 10] = [
        (&[], (0, 0), Status::Done, &[]),
        (&[EDIT, RUN], (0, 0), Status::Done, &[EDITED, RAN_1]),
        (&[EDIT, BARE_RUN], (0, 0), Status::Done, &[EDITED, RAN_1]),
        (&[EDIT, "{"], (2, 0), Status::ReadFault, &[EDITED]),
        (&[EDIT, RUN], (1, 0), Status::ReadFault, &[]),
        (&[EDIT, RUN], (0, 1), Status::WriteFault, &[]),
        (&[EDIT, RUN], (0, 2), Status::WriteFault, &[EDITED]),
        (
            &[
                EDIT,
                RUN,
                "{\"event\":\"edit\",\"cell\":\"a\",\"text\":\"if x\"}\n",
                RUN,
            ],
            (0, 0),
            Status::Refused,
            &[EDITED, RAN_1, SYNTAX_1, RAN_2],
        ),
        (
            &[
                "{\"event\":\"edit\",\"cell\":\"a\",\"text\":\"y = q\"}\n",
                RUN,
            ],
            (0, 0),
            Status::Done,
            &[EDITED, NAME_ERROR_1],
        ),
        (
            &[
                "{\n",
                "{\"event\":\"run\"}\n",
                "{\"event\":\"run\",\"cell\":\"q\"}\n",
                "\n",
                "{\"event\":\"marks\",\"cell\":\"a\"}\n",
            ],
            (0, 0),
            Status::Refused,
            &[JSON, SHAPE, NO_CELL, JSON, SHAPE],
        ),
    ];
    for (log, faults, status, replies) in rows {
        let log = joined(alloc, log)?;
        answers(&rt, &log, faults, status, replies)?;
    }
    Ok(())
}

// A text that a cell may not have, the kind of its first fault, and the line of that. The cell keeps its old text.
#[test]
fn texts_are_refused_by_kind_and_line(rt: HostRuntime) -> Result<(), Fail> {
    let alloc = rt.alloc();
    for (text, kind, line) in [
        ("x = $", "lex", "1"),
        ("if x:\\n  y\\n z", "layout", "3"),
        ("import os", "unsupported", "1"),
        ("x = 170141183460469231731687303715884105728", "limit", "1"),
        ("x =", "syntax", "1"),
        ("nonlocal x", "scope", "1"),
    ] {
        let log = joined(
            alloc,
            &[
                EDIT,
                "{\"event\":\"edit\",\"cell\":\"a\",\"text\":\"",
                text,
                "\"}\n",
                RUN,
            ],
        )?;
        let replies = [
            EDITED,
            "{\"kind\":\"",
            kind,
            "\",\"line\":",
            line,
            ",\"refused\":\"syntax\"}\n",
            RAN_1,
        ];
        answers(&rt, &log, (0, 0), Status::Refused, &replies)?;
    }
    Ok(())
}

// A text that a cell may have, a line behind its edit, the status, and the reply to that line. A run of a cell that is not plain is
// refused.
#[test]
fn texts_are_accepted(rt: HostRuntime) -> Result<(), Fail> {
    let alloc = rt.alloc();
    for (text, line, status, reply) in [
        ("x=1;y = (2)", RUN, Status::Done, RAN_1),
        ("x = 1\\r\\ny = x\\r\\n", RUN, Status::Done, RAN_1),
        ("# a cell\\nx = (1 +\\n  2)", RUN, Status::Done, RAN_1),
        ("", RUN, Status::Done, RAN_1),
        ("def f(x):\\n  return x", RUN, Status::Refused, FORM),
        ("x = 1 - 1", RUN, Status::Refused, FORM),
        ("x = len", RUN, Status::Refused, FORM),
        (
            "x=1;y = (2)",
            SHOW,
            Status::Done,
            "{\"cell\":\"a\",\"text\":\"x = 1\\ny = 2\\n\"}\n",
        ),
        (
            "x = 1 .a",
            SHOW,
            Status::Done,
            "{\"cell\":\"a\",\"text\":\"x = (1).a\\n\"}\n",
        ),
        (
            "[y] = z",
            SHOW,
            Status::Done,
            "{\"cell\":\"a\",\"text\":\"(y,) = z\\n\"}\n",
        ),
    ] {
        let log = joined(
            alloc,
            &[
                "{\"event\":\"edit\",\"cell\":\"a\",\"text\":\"",
                text,
                "\"}\n",
                line,
            ],
        )?;
        answers(&rt, &log, (0, 0), status, &[EDITED, reply])?;
    }
    Ok(())
}

// Six lines and their replies.
const LINES: [&str; 6] = [
    EDIT,
    RUN,
    "{\"event\":\"edit\",\"cell\":\"b\",\"text\":\"y = x\"}\n",
    "{\"event\":\"run\",\"cell\":\"b\"}\n",
    "{\"event\":\"run\",\"cell\":\"q\"}\n",
    "{\"event\":\"run\",\"cell\":\"b\"}\n",
];

const REPLIES: [&str; 6] = [
    EDITED,
    RAN_1,
    "{\"cell\":\"b\",\"edited\":true}\n",
    "{\"cell\":\"b\",\"end\":\"ok\",\"mark\":\"clean\",\"out\":\"\",\"run\":2,\"stale\":[]}\n",
    NO_CELL,
    "{\"cell\":\"b\",\"end\":\"ok\",\"mark\":\"clean\",\"out\":\"\",\"run\":3,\"stale\":[]}\n",
];

// How many whole lines these bytes have.
fn whole_lines(bytes: &[u8]) -> usize
    ensures { result ≤ 6 }
{
    bytes.iter().filter(|byte| **byte == b'\n').count().min(6)
}

// In whatever pieces the log comes, it gets the same replies.
#[test]
fn pieces_make_no_difference(rt: HostRuntime) -> Result<(), Fail> {
    let alloc = rt.alloc();
    let log = joined(alloc, &LINES)?;
    for most in [1, 2, 4_095, 4_096] {
        answers_pieces(&rt, &log, most, (0, 0), Status::Refused, &REPLIES)?;
    }
    Ok(())
}

// One byte over the limit is too many. (`rt try` is too slow for this one.)
#[test]
fn input_has_a_limit(rt: HostRuntime) -> Result<(), Fail> {
    let alloc = rt.alloc();
    let log = vec![in alloc; b'x'; INPUT_LIMIT as usize + 1]?;
    for most in [1, 2, 4_095, 4_096] {
        answers_pieces(&rt, &log, most, (0, 0), Status::InputLimit, &[])?;
    }
    Ok(())
}

// Where the k-th read fails, the whole lines before it are answered; where the k-th write fails, the replies before it are
// written.
#[test]
fn each_call_may_fail(rt: HostRuntime) -> Result<(), Fail> {
    let alloc = rt.alloc();
    let log = joined(alloc, &LINES)?;
    for k in 0..=log.len().div_ceil(20) {
        let given = log.len().min(20 * k.min(1_000));
        let answered = &REPLIES[..whole_lines(&log[..given])];
        let faults = (k as u64 + 1, 0);
        answers_pieces(&rt, &log, 20, faults, Status::ReadFault, answered)?;
    }
    for k in 0..6 {
        let faults = (0, k as u64 + 1);
        answers(&rt, &log, faults, Status::WriteFault, &REPLIES[..k])?;
    }
    Ok(())
}

// The reply to a line that is cut before its end: it is no JSON, unless it lacks the line feed alone.
fn reply_to_rest(cut: &[u8], answered: usize) -> &'static str {
    if cut.is_empty() || cut.ends_with(b"\n") {
        return "";
    }
    if cut.ends_with(b"}") {
        return REPLIES.get(answered).copied().unwrap_or("");
    }
    JSON
}

// A log that is cut after each of its bytes: its whole lines are answered, and the rest of a line.
#[test]
fn a_log_may_be_cut(rt: HostRuntime) -> Result<(), Fail> {
    let alloc = rt.alloc();
    let log = joined(alloc, &LINES)?;
    for end in 0..=log.len() {
        let cut = &log[..end.min(log.len())];
        let answered = whole_lines(cut);
        let whole = joined(alloc, &REPLIES[..answered])?;
        let whole = str::from_utf8(&whole).unwrap_or("");
        let rest = reply_to_rest(cut, answered);
        let refused = whole.contains("refused") || rest.contains("refused");
        let status = if refused {
            Status::Refused
        } else {
            Status::Done
        };
        answers(&rt, cut, (0, 0), status, &[whole, rest])?;
    }
    Ok(())
}

// No fault is answered where nothing can fail.
#[test]
fn sure_sources_and_sinks(rt: HostRuntime) -> Result<(), Fail> {
    let alloc = rt.alloc();
    clean_log_law();
    stale_log_law();
    for (word, log, want) in [
        ("run", EDIT, Status::Done),
        ("run", RUN, Status::Refused),
        ("Run", RUN, Status::Usage),
    ] {
        let words = one_word(alloc, word)?;
        let mut source = SureSource::new(alloc, log.as_bytes())?;
        let mut sink = SureSink::new();
        assert_eq!(rt; ipyflow_surely(alloc, &words, &mut source, &mut sink), want);
    }
    Ok(())
}

// A chain of 1,000 cells, each of which uses the name of the one before; then the first is run again, and a cell uses the
// last name.
#[test]
fn long_chains_are_followed(rt: HostRuntime) -> Result<(), Fail> {
    let alloc = rt.alloc();
    let mut log = String::from_str(alloc, CHAIN_BEGIN)?;
    for i in 1..1_000u64 {
        let before = i - 1;
        let cell = format!(in alloc;
            "{{\"cell\":\"c{i}\",\"event\":\"edit\",\"text\":\"v{i} = v{before}\"}}\n{{\"cell\":\"c{i}\",\"event\":\"run\"}}\n"
        )?;
        log.push_str(&cell)?;
    }
    log.push_str(CHAIN_END)?;
    let words = one_word(alloc, "run")?;
    let mut source = MemSource::new(alloc, log.as_bytes(), &[])?;
    let mut sink = MemSink::new(alloc, 200_000, &[])?;
    assert_eq!(rt;
        ipyflow(alloc, &words, &mut source, &mut sink),
        Status::Done
    );
    assert!(rt; sink.written().ends_with(CHAIN_REPLY.as_bytes()));
    Ok(())
}

#[test]
fn a_line_that_is_no_text_is_told_apart(rt: HostRuntime) -> Result<(), Fail> {
    answers(&rt, b"\xff\n\xff{", (0, 0), Status::Refused, &[UTF8, UTF8])
}

// A line of the limit is answered, and one byte more is too long; the next line is answered all the same.
#[test]
fn lines_have_a_limit(rt: HostRuntime) -> Result<(), Fail> {
    let alloc = rt.alloc();
    for (len, reply) in [(LINE_LIMIT, NO_CELL), (LINE_LIMIT + 1, LONG)] {
        let mut log = joined(alloc, &[BARE_RUN])?;
        log.resize(len, b' ')?;
        log.push(b'\n')?;
        log.extend_from_slice(EDIT.as_bytes())?;
        answers(&rt, &log, (0, 0), Status::Refused, &[reply, EDITED])?;
    }
    Ok(())
}

// A line of so many bytes that edits a cell, whose text is a comment.
fn comment_line(alloc: Global, len: usize) -> Result<Vec<u8>, NoMemory> {
    let mut line = joined(alloc, &["{\"event\":\"edit\",\"cell\":\"a\",\"text\":\"#"])?;
    line.resize(len.saturating_sub(3), b'c')?;
    line.extend_from_slice(b"\"}\n")?;
    Ok(line)
}

// The longest text of a cell is accepted.
#[test]
fn texts_have_the_limit_of_lines(rt: HostRuntime) -> Result<(), Fail> {
    let alloc = rt.alloc();
    for (len, status, reply) in [
        (LINE_LIMIT, Status::Done, EDITED),
        (LINE_LIMIT + 1, Status::Refused, LONG),
    ] {
        let mut log = comment_line(alloc, len + 1)?;
        log.extend_from_slice(EDIT.as_bytes())?;
        answers(&rt, &log, (0, 0), status, &[reply, EDITED])?;
    }
    Ok(())
}

#[test]
fn words_without_a_shape_are_usage(rt: HostRuntime) -> Result<(), Fail> {
    let alloc = rt.alloc();
    let shape = read_words(&one_word(alloc, "run")?);
    assert_eq!(rt; shape, Some(Command::Run { steps: 100_000 }));
    let rows: [&[&str]; 5] = [
        &[],
        &["run", "x"],
        &["run", "--steps", "10000001"],
        &["gen", "1"],
        &["Run"],
    ];
    for row in rows {
        let mut words = Vec::new(alloc);
        for word in row {
            words.push(String::from_str(alloc, word)?)?;
        }
        let mut source = MemSource::new(alloc, EDIT.as_bytes(), &[1])?;
        let mut sink = MemSink::new(alloc, 100, &[1])?;
        assert_eq!(rt;
            ipyflow(alloc, &words, &mut source, &mut sink),
            Status::Usage
        );
    }
    Ok(())
}

#[test]
fn statuses_have_their_codes(rt: HostRuntime) {
    for (status, code) in [
        (Status::Done, 0),
        (Status::Refused, 1),
        (Status::Usage, 2),
        (Status::ReadFault, 3),
        (Status::WriteFault, 4),
        (Status::NoMemory, 5),
        (Status::InputLimit, 6),
    ] {
        assert_eq!(rt; status.code(), code);
    }
}
