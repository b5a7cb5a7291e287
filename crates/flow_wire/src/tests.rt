// Lines and replies as they stand on the wire.
use crate::{
    Ask, BadAsk, EndText, EventKind, MarkText, Reply, TextList, UnknownText, read_ask, write_reply,
};
use flow_base::{Kind, NoMemory, PyText, SyntaxKind};
use std::alloc::Global;
use std::test::Fail;

fn text(alloc: Global, t: &str) -> Result<PyText, NoMemory> {
    PyText::from_str(alloc, t)
}

fn is_run(ask: &Ask, of: &PyText) -> bool {
    match ask {
        Ask::Run { cell, steps: None } => cell.same(of),
        _ => false,
    }
}

fn is_edit(ask: &Ask, of: &PyText, to: &PyText) -> bool {
    match ask {
        Ask::Edit { cell, text } => cell.same(of) && text.same(to),
        _ => false,
    }
}

fn runs(alloc: Global, line: &str, cell: &str) -> Result<bool, BadAsk> {
    let cell = text(alloc, cell)?;
    let ask = read_ask(alloc, line.as_bytes())?;
    Ok(is_run(&ask, &cell))
}

fn edits(alloc: Global, line: &str, cell: &str, to: &str) -> Result<bool, BadAsk> {
    let cell = text(alloc, cell)?;
    let to = text(alloc, to)?;
    let ask = read_ask(alloc, line.as_bytes())?;
    Ok(is_edit(&ask, &cell, &to))
}

fn is_show(ask: &Ask, of: &PyText) -> bool {
    match ask {
        Ask::Show { cell } => cell.same(of),
        _ => false,
    }
}

fn shows(alloc: Global, line: &str, cell: &str) -> Result<bool, BadAsk> {
    let cell = text(alloc, cell)?;
    let ask = read_ask(alloc, line.as_bytes())?;
    Ok(is_show(&ask, &cell))
}

fn fault(alloc: Global, line: &[u8]) -> Option<BadAsk> {
    read_ask(alloc, line).err()
}

// So many arrays in one another.
fn nested(alloc: Global, depth: usize) -> Result<Option<BadAsk>, NoMemory> {
    let mut line = vec![in alloc; b'['; depth]?;
    for _ in 0..depth {
        line.push(b']')?;
    }
    Ok(fault(alloc, &line))
}

#[test]
fn reads_asks(rt: HostRuntime) -> Result<(), Fail> {
    let alloc = rt.alloc();
    for (line, cell) in [
        (r#"{"cell":"a","event":"run"}"#, "a"),
        (r#" { "event" : "run" , "cell" : "Az_09-" } "#, "Az_09-"),
        (r#"{"cell":"a","cell":"b","event":"run"}"#, "b"),
        (r#"{"c\u0065ll":"a","event":"run"}"#, "a"),
        (
            r#"{"cell":"aaaaaaaaaaaaaaaaaaaaaaaaaaaaaaaaaaaaaaaaaaaaaaaaaaaaaaaaaaaaaaaa","event":"run"}"#,
            "aaaaaaaaaaaaaaaaaaaaaaaaaaaaaaaaaaaaaaaaaaaaaaaaaaaaaaaaaaaaaaaa",
        ),
    ] {
        assert!(rt; runs(alloc, line, cell)?);
    }
    for (line, text) in [
        (r#"{"cell":"a","event":"edit","text":""}"#, ""),
        (
            r#"{"cell":"a","event":"edit","text":"x = 1\ny = x"}"#,
            "x = 1\ny = x",
        ),
        (
            r#"{"cell":"a","event":"edit","text":"\u00e9\ud83d\ude00\""}"#,
            "é😀\"",
        ),
    ] {
        assert!(rt; edits(alloc, line, "a", text)?);
    }
    assert!(rt; shows(alloc, r#"{"cell":"a","event":"show"}"#, "a")?);
    Ok(())
}

#[test]
fn refuses_lines(rt: HostRuntime) -> Result<(), Fail> {
    let alloc = rt.alloc();
    for line in [
        "",
        "{",
        "1e999",
        r#"{"cell":"a","event":"run"} x"#,
        r#"{"cell":"a","event":"edit","text":"\ud800"}"#,
    ] {
        assert_eq!(rt; fault(alloc, line.as_bytes()), Some(BadAsk::Json));
    }
    for line in [
        "5",
        r#"{"event":"run"}"#,
        r#"{"cell":"a","event":"marks"}"#,
        r#"{"cell":"a","event":"run","more":null}"#,
        r#"{"cell":"a","event":"run","steps":5}"#,
        r#"{"cell":"a","event":"show","text":""}"#,
        r#"{"event":"show"}"#,
        r#"{"cell":"a","event":"edit"}"#,
        r#"{"cell":"a","event":"edit","text":1}"#,
        r#"{"cell":"a","event":"edit","more":1,"text":""}"#,
        r#"{"cell":"","event":"run"}"#,
        r#"{"cell":"a b","event":"run"}"#,
        r#"{"cell":"é","event":"run"}"#,
        r#"{"cell":"aaaaaaaaaaaaaaaaaaaaaaaaaaaaaaaaaaaaaaaaaaaaaaaaaaaaaaaaaaaaaaaaa","event":"run"}"#,
    ] {
        assert_eq!(rt; fault(alloc, line.as_bytes()), Some(BadAsk::Shape));
    }
    assert_eq!(rt;
        fault(alloc, b"{\"cell\":\"\xff\",\"event\":\"run\"}"),
        Some(BadAsk::Utf8)
    );
    assert_eq!(rt; nested(alloc, 127)?, Some(BadAsk::Shape));
    assert_eq!(rt; nested(alloc, 128)?, Some(BadAsk::Json));
    Ok(())
}

fn is_written(alloc: Global, reply: Reply, want: &str) -> Result<bool, NoMemory> {
    Ok(write_reply(alloc, &reply)?.as_slice() == want.as_bytes())
}

fn edited(alloc: Global) -> Result<Reply, NoMemory> {
    let cell = text(alloc, "a")?;
    Ok(Reply::Edited { cell })
}

fn shown(alloc: Global) -> Result<Reply, NoMemory> {
    let cell = text(alloc, "a")?;
    let text = text(alloc, "x = \"1\"\n")?;
    Ok(Reply::Shown { cell, text })
}

fn two_paths(alloc: Global) -> Result<TextList, NoMemory> {
    let mut paths = Vec::new(alloc);
    paths.push(text(alloc, "z")?)?;
    paths.push(text(alloc, "len(d)")?)?;
    TextList::from_vec(alloc, paths)
}

fn stale(alloc: Global) -> Result<MarkText, NoMemory> {
    let dep = text(alloc, "x")?;
    let symbol = text(alloc, "z")?;
    Ok(MarkText::Stale {
        computed: 3,
        dep,
        overwritten: 4,
        symbol,
    })
}

fn ran(
    alloc: Global,
    end: EndText,
    mark: MarkText,
    out: &str,
    stale: TextList,
) -> Result<Reply, NoMemory> {
    let cell = text(alloc, "a")?;
    let out = text(alloc, out)?;
    Ok(Reply::Ran {
        cell,
        end,
        mark,
        out,
        run: 7,
        stale,
    })
}

// A run that printed nothing and used nothing stale.
fn plain(alloc: Global, end: EndText, mark: MarkText) -> Result<Reply, NoMemory> {
    let stale = TextList::from_vec(alloc, Vec::new(alloc))?;
    ran(alloc, end, mark, "", stale)
}

fn raised(alloc: Global) -> Result<Reply, NoMemory> {
    let name = text(alloc, "NameError")?;
    let paths = two_paths(alloc)?;
    let mark = stale(alloc)?;
    ran(alloc, EndText::Raised(name), mark, "5\n\"é\"", paths)
}

#[test]
fn writes_answers(rt: HostRuntime) -> Result<(), Fail> {
    let alloc = rt.alloc();
    let want = r#"{"cell":"a","edited":true}"#;
    assert!(rt; is_written(alloc, edited(alloc)?, want)?);
    let want = r#"{"cell":"a","text":"x = \"1\"\n"}"#;
    assert!(rt; is_written(alloc, shown(alloc)?, want)?);
    let want = r#"{"cell":"a","end":"ok","mark":"clean","out":"","run":7,"stale":[]}"#;
    assert!(rt; is_written(alloc, plain(alloc, EndText::Ok, MarkText::Clean)?, want)?);
    let want =
        r#"{"cell":"a","end":"range","mark":{"unknown":{"kind":"form","node":[7,1]}},"out":"","run":7,"stale":[]}"#;
    assert!(rt;
        is_written(
            alloc,
            plain(alloc, EndText::Range, MarkText::Form { run: 7 })?,
            want
        )?
    );
    let want =
        r#"{"cell":"a","end":{"raised":"NameError"},"mark":{"stale":{"computed":3,"dep":"x","overwritten":4,"symbol":"z"}},"out":"5\n\"é\"","run":7,"stale":["z","len(d)"]}"#;
    assert!(rt; is_written(alloc, raised(alloc)?, want)?);
    for (kind, want) in [
        (
            Kind::Callee,
            r#"{"cell":"a","end":"steps","mark":{"unknown":{"kind":"callee","node":[2,9]}},"out":"","run":7,"stale":[]}"#,
        ),
        (
            Kind::Base,
            r#"{"cell":"a","end":"steps","mark":{"unknown":{"kind":"base","node":[2,9]}},"out":"","run":7,"stale":[]}"#,
        ),
        (
            Kind::Name,
            r#"{"cell":"a","end":"steps","mark":{"unknown":{"kind":"name","node":[2,9]}},"out":"","run":7,"stale":[]}"#,
        ),
    ] {
        let mark = MarkText::Unknown(UnknownText {
            kind,
            run: 2,
            node: 9,
        });
        assert!(rt; is_written(alloc, plain(alloc, EndText::Steps, mark)?, want)?);
    }
    Ok(())
}

#[test]
fn writes_refusals(rt: HostRuntime) -> Result<(), Fail> {
    let alloc = rt.alloc();
    assert!(rt; is_written(alloc, Reply::NoCell, r#"{"refused":"no cell"}"#)?);
    assert!(rt; is_written(alloc, Reply::BadSteps, r#"{"refused":"steps"}"#)?);
    assert!(rt; is_written(alloc, Reply::Form, r#"{"refused":"form"}"#)?);
    for (kind, want) in [
        (EventKind::Long, r#"{"kind":"long","refused":"event"}"#),
        (EventKind::Utf8, r#"{"kind":"utf8","refused":"event"}"#),
        (EventKind::Json, r#"{"kind":"json","refused":"event"}"#),
        (EventKind::Shape, r#"{"kind":"shape","refused":"event"}"#),
    ] {
        assert!(rt; is_written(alloc, Reply::Event { kind }, want)?);
    }
    for (kind, want) in [
        (
            SyntaxKind::Lex,
            r#"{"kind":"lex","line":12,"refused":"syntax"}"#,
        ),
        (
            SyntaxKind::Layout,
            r#"{"kind":"layout","line":12,"refused":"syntax"}"#,
        ),
        (
            SyntaxKind::Unsupported,
            r#"{"kind":"unsupported","line":12,"refused":"syntax"}"#,
        ),
        (
            SyntaxKind::Limit,
            r#"{"kind":"limit","line":12,"refused":"syntax"}"#,
        ),
        (
            SyntaxKind::Syntax,
            r#"{"kind":"syntax","line":12,"refused":"syntax"}"#,
        ),
        (
            SyntaxKind::Scope,
            r#"{"kind":"scope","line":12,"refused":"syntax"}"#,
        ),
    ] {
        assert!(rt; is_written(alloc, Reply::Syntax { kind, line: 12 }, want)?);
    }
    Ok(())
}

#[test]
fn tells_refusals(rt: HostRuntime) -> Result<(), Fail> {
    assert!(rt; Reply::NoCell.is_refusal());
    assert!(rt; Reply::Form.is_refusal());
    assert!(rt; !shown(rt.alloc())?.is_refusal());
    assert!(rt; !edited(rt.alloc())?.is_refusal());
    Ok(())
}
