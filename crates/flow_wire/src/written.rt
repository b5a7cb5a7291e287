// The line that a reply is written as.
ghost use Rattle.std.specs.Prelude.{◌≡◌, ℕ, codes, IfOk};
ghost use Rattle.serde_json.specs.View.{view};
ghost use Rattle.serde_json.specs.Data.{string};
ghost use Rattle.flow_wire.specs.Replied.{reply_data, reply_text, text_data, texts_data, end_data, mark_data, unknown_data, event_kind_name, kind_name, syntax_kind_name};
ghost use Rattle.flow_wire.specs.declared.reply.MarkText.{MarkText};
ghost use Rattle.flow_wire.specs.declared.reply.Reply.{Reply};

use crate::reply::{EndText, EventKind, MarkText, Reply, TextList};
use flow_base::{Bytes, Kind, NoMemory, PyText, SyntaxKind};
use serde_json::{Map, Value, json, put};
use std::alloc::Global;

/// Writes a reply as one line of compact JSON (RFC 8259), with the keys of each object in the order of their bytes, and
/// without a line feed at its end.
#[tactic(auto, using(crate::proofs::Floats::reply_has_none))]
pub fn write_reply(alloc: Global, r: &Reply) -> Result<Bytes, NoMemory>
    ensures { IfOk result (λ line. line ≡ reply_text r.now) }
{
    let value = reply_value(alloc, r)?;
    Ok(Bytes::from_vec(value.to_vec(alloc)?))
}

fn reply_value(alloc: Global, r: &Reply) -> Result<Value, NoMemory>
    ensures { IfOk result (λ value. view value ≡ reply_data r.now) }
{
    let value = match r {
        Reply::Edited { cell } => edited_value(alloc, cell)?,
        Reply::Ran {
            cell,
            end,
            mark,
            out,
            run,
            stale,
        } => ran_value(alloc, cell, end, mark, out, *run, stale)?,
        Reply::Shown { cell, text } => shown_value(alloc, cell, text)?,
        Reply::Event { kind } => event_value(alloc, *kind)?,
        Reply::NoCell => json!(in alloc; {"refused": "no cell"})?,
        Reply::BadSteps => json!(in alloc; {"refused": "steps"})?,
        Reply::Form => json!(in alloc; {"refused": "form"})?,
        Reply::Syntax { kind, line } => syntax_value(alloc, *kind, *line)?,
    };
    Ok(value)
}

fn edited_value(alloc: Global, cell: &PyText) -> Result<Value, NoMemory>
    ensures { IfOk result (λ value. view value ≡ reply_data (Reply.Edited cell.now)) }
{
    let cell = text_value(alloc, cell)?;
    let value = json!(in alloc; {"cell": cell, "edited": true})?;
    Ok(value)
}

fn ran_value(
    alloc: Global,
    cell: &PyText,
    end: &EndText,
    mark: &MarkText,
    out: &PyText,
    run: u64,
    stale: &TextList,
) -> Result<Value, NoMemory>
    ensures { IfOk result (λ value. view value
        ≡ reply_data (Reply.Ran cell.now end.now mark.now out.now run stale.now)) }
{
    let mut members = Map::new(alloc);
    put(&mut members, alloc, "cell", text_value(alloc, cell)?)?;
    put(&mut members, alloc, "end", end_value(alloc, end)?)?;
    put(&mut members, alloc, "mark", mark_value(alloc, mark)?)?;
    put(&mut members, alloc, "out", text_value(alloc, out)?)?;
    put(&mut members, alloc, "run", Value::from(run))?;
    put(
        &mut members,
        alloc,
        "stale",
        texts_value(alloc, stale.as_slice())?,
    )?;
    Ok(Value::from(members))
}

fn shown_value(alloc: Global, cell: &PyText, text: &PyText) -> Result<Value, NoMemory>
    ensures { IfOk result (λ value. view value ≡ reply_data (Reply.Shown cell.now text.now)) }
{
    let cell = text_value(alloc, cell)?;
    let text = text_value(alloc, text)?;
    let value = json!(in alloc; {"cell": cell, "text": text})?;
    Ok(value)
}

fn event_value(alloc: Global, kind: EventKind) -> Result<Value, NoMemory>
    ensures { IfOk result (λ value. view value ≡ reply_data (Reply.Event kind)) }
{
    let value = json!(in alloc; {"kind": event_kind_name(kind), "refused": "event"})?;
    Ok(value)
}

fn syntax_value(alloc: Global, kind: SyntaxKind, line: u64) -> Result<Value, NoMemory>
    ensures { IfOk result (λ value. view value ≡ reply_data (Reply.Syntax kind line)) }
{
    let value =
        json!(in alloc; {"kind": syntax_kind_name(kind), "line": line, "refused": "syntax"})?;
    Ok(value)
}

fn end_value(alloc: Global, end: &EndText) -> Result<Value, NoMemory>
    ensures { IfOk result (λ value. view value ≡ end_data end.now) }
{
    let value = match end {
        EndText::Ok => json!(in alloc; "ok")?,
        EndText::Raised(name) => raised_value(alloc, name)?,
        EndText::Steps => json!(in alloc; "steps")?,
        EndText::Range => json!(in alloc; "range")?,
    };
    Ok(value)
}

fn raised_value(alloc: Global, name: &PyText) -> Result<Value, NoMemory>
    ensures { IfOk result (λ value. view value ≡ end_data (EndText.Raised name.now)) }
{
    let name = text_value(alloc, name)?;
    let value = json!(in alloc; {"raised": name})?;
    Ok(value)
}

fn mark_value(alloc: Global, mark: &MarkText) -> Result<Value, NoMemory>
    ensures { IfOk result (λ value. view value ≡ mark_data mark.now) }
{
    let value = match mark {
        MarkText::Clean => json!(in alloc; "clean")?,
        MarkText::Stale {
            computed,
            dep,
            overwritten,
            symbol,
        } => stale_value(alloc, *computed, dep, *overwritten, symbol)?,
        MarkText::Unknown(unknown) => unknown_value(
            alloc,
            kind_name(unknown.kind),
            unknown.run,
            unknown.node,
        )?,
        MarkText::Form { run } => unknown_value(alloc, "form", *run, 1)?,
    };
    Ok(value)
}

fn stale_value(
    alloc: Global,
    computed: u64,
    dep: &PyText,
    overwritten: u64,
    symbol: &PyText,
) -> Result<Value, NoMemory>
    ensures { IfOk result (λ value. view value
        ≡ mark_data (MarkText.Stale computed dep.now overwritten symbol.now)) }
{
    let mut members = Map::new(alloc);
    put(&mut members, alloc, "computed", Value::from(computed))?;
    put(&mut members, alloc, "dep", text_value(alloc, dep)?)?;
    put(&mut members, alloc, "overwritten", Value::from(overwritten))?;
    put(&mut members, alloc, "symbol", text_value(alloc, symbol)?)?;
    let value = json!(in alloc; {"stale": members})?;
    Ok(value)
}

fn unknown_value(alloc: Global, kind: &str, run: u64, node: u64) -> Result<Value, NoMemory>
    ensures { IfOk result (λ value. view value ≡ unknown_data kind.now run node) }
{
    let value = json!(in alloc; {"unknown": {"kind": kind, "node": [run, node]}})?;
    Ok(value)
}

fn texts_value(alloc: Global, texts: &[PyText]) -> Result<Value, NoMemory>
    ensures { IfOk result (λ value. view value ≡ texts_data texts.now) }
{
    let mut values = Vec::new(alloc);
    for text in texts {
        values.push(text_value(alloc, text)?)?;
    }
    Ok(Value::from(values))
}

fn text_value(alloc: Global, text: &PyText) -> Result<Value, NoMemory>
    ensures { IfOk result (λ value. view value ≡ text_data text.now) }
{
    Ok(Value::from(text.to_text(alloc)?))
}

fn event_kind_name(kind: EventKind) -> &'static str
    ensures { result.now ≡ event_kind_name kind }
{
    match kind {
        EventKind::Long => "long",
        EventKind::Utf8 => "utf8",
        EventKind::Json => "json",
        EventKind::Shape => "shape",
    }
}

fn kind_name(kind: Kind) -> &'static str
    ensures { result.now ≡ kind_name kind }
{
    match kind {
        Kind::Callee => "callee",
        Kind::Base => "base",
        Kind::Name => "name",
    }
}

fn syntax_kind_name(kind: SyntaxKind) -> &'static str
    ensures { result.now ≡ syntax_kind_name kind }
{
    match kind {
        SyntaxKind::Lex => "lex",
        SyntaxKind::Layout => "layout",
        SyntaxKind::Unsupported => "unsupported",
        SyntaxKind::Limit => "limit",
        SyntaxKind::Syntax => "syntax",
        SyntaxKind::Scope => "scope",
    }
}
