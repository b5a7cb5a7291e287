// Asks and their replies, as a session shows them.
use flow_base::{NoMemory, PyText};
use flow_wire::{Ask, MarkText, Reply, write_reply};
use kernel_core::{
    Kernel, answer_law, clean_law, clean_reply_law, clean_run_law, show_law, stale_run_law,
};
use std::alloc::Global;
use std::test::Fail;

// An edit where there is a text, and else a run.
fn ask(alloc: Global, cell: &str, text: Option<&str>, steps: Option<u64>) -> Result<Ask, NoMemory> {
    let cell = PyText::from_str(alloc, cell)?;
    match text {
        Some(text) => {
            let text = PyText::from_str(alloc, text)?;
            Ok(Ask::Edit { cell, text })
        }
        None => Ok(Ask::Run { cell, steps }),
    }
}

fn answers(alloc: Global, kernel: &mut Kernel, a: &Ask, want: &str) -> Result<bool, NoMemory> {
    let reply = kernel.step(a)?;
    Ok(write_reply(alloc, &reply)?.as_slice() == want.as_bytes())
}

// Each kind of fault, at the line where it stands, in the order of the kinds.
#[test]
fn refuses_texts(rt: HostRuntime) -> Result<(), Fail> {
    let alloc = rt.alloc();
    let mut kernel = Kernel::new(alloc, 1_000_000)?;
    for (text, want) in [
        ("x = $", r#"{"kind":"lex","line":1,"refused":"syntax"}"#),
        (
            "if x:\n  y\n z",
            r#"{"kind":"layout","line":3,"refused":"syntax"}"#,
        ),
        (
            "import os",
            r#"{"kind":"unsupported","line":1,"refused":"syntax"}"#,
        ),
        (
            "x = 170141183460469231731687303715884105728",
            r#"{"kind":"limit","line":1,"refused":"syntax"}"#,
        ),
        ("x =", r#"{"kind":"syntax","line":1,"refused":"syntax"}"#),
        (
            "nonlocal x",
            r#"{"kind":"scope","line":1,"refused":"syntax"}"#,
        ),
    ] {
        let a = ask(alloc, "a", Some(text), None)?;
        assert!(rt; answers(alloc, &mut kernel, &a, want)?);
    }
    let a = ask(alloc, "a", None, None)?;
    assert!(rt; answers(alloc, &mut kernel, &a, r#"{"refused":"no cell"}"#)?);
    Ok(())
}

#[test]
fn answers_asks(rt: HostRuntime) -> Result<(), Fail> {
    let alloc = rt.alloc();
    answer_law();
    clean_law();
    clean_reply_law();
    clean_run_law();
    stale_run_law();
    let mut kernel = Kernel::new(alloc, 1_000_000)?;
    for (cell, text, steps, want) in [
        (
            "a",
            Some("x = 1 + 2"),
            None,
            r#"{"cell":"a","edited":true}"#,
        ),
        (
            "a",
            None,
            Some(4),
            r#"{"cell":"a","end":"ok","mark":"clean","out":"","run":1,"stale":[]}"#,
        ),
        (
            "a",
            None,
            Some(3),
            r#"{"cell":"a","end":"steps","mark":"clean","out":"","run":2,"stale":[]}"#,
        ),
        ("b", Some("x = len"), None, r#"{"cell":"b","edited":true}"#),
        ("c", None, Some(10_000_001), r#"{"refused":"no cell"}"#),
        ("b", None, Some(10_000_001), r#"{"refused":"steps"}"#),
        ("b", None, Some(10_000_000), r#"{"refused":"form"}"#),
        ("b", Some("len = 3"), None, r#"{"cell":"b","edited":true}"#),
        (
            "b",
            None,
            None,
            r#"{"cell":"b","end":"ok","mark":"clean","out":"","run":3,"stale":[]}"#,
        ),
        (
            "b",
            Some("z = 1\nprint(z)"),
            None,
            r#"{"cell":"b","edited":true}"#,
        ),
        ("b", None, None, r#"{"refused":"form"}"#),
        ("d", Some("y = x"), None, r#"{"cell":"d","edited":true}"#),
        (
            "d",
            Some("y = 1\nz ="),
            None,
            r#"{"kind":"syntax","line":2,"refused":"syntax"}"#,
        ),
        (
            "d",
            None,
            Some(10_000_000),
            r#"{"cell":"d","end":"ok","mark":"clean","out":"","run":4,"stale":[]}"#,
        ),
        (
            "e",
            Some("x = 1\ny = q"),
            None,
            r#"{"cell":"e","edited":true}"#,
        ),
        (
            "e",
            None,
            None,
            r#"{"cell":"e","end":{"raised":"NameError"},"mark":"clean","out":"","run":5,"stale":[]}"#,
        ),
        (
            "f",
            Some("x = 170141183460469231731687303715884105727\nx = x + 1"),
            None,
            r#"{"cell":"f","edited":true}"#,
        ),
        (
            "f",
            None,
            None,
            r#"{"cell":"f","end":"range","mark":"clean","out":"","run":6,"stale":[]}"#,
        ),
    ] {
        let a = ask(alloc, cell, text, steps)?;
        assert!(rt; answers(alloc, &mut kernel, &a, want)?);
    }
    assert!(rt; !kernel.failed());
    Ok(())
}

fn shows(alloc: Global, kernel: &mut Kernel, cell: &str, want: &str) -> Result<bool, NoMemory> {
    let show = Ask::Show {
        cell: PyText::from_str(alloc, cell)?,
    };
    answers(alloc, kernel, &show, want)
}

// A cell is shown as it is printed, whether it is run or not; what is shown is accepted, and shown as it stands.
#[test]
fn shows_cells(rt: HostRuntime) -> Result<(), Fail> {
    let alloc = rt.alloc();
    show_law();
    let mut kernel = Kernel::new(alloc, 1_000_000)?;
    assert!(rt; shows(alloc, &mut kernel, "a", r#"{"refused":"no cell"}"#)?);
    let want = r#"{"cell":"a","text":"if x:\n    y = (1,)\n"}"#;
    for text in ["if x : y = 1,", "if x:\n    y = (1,)\n"] {
        let a = ask(alloc, "a", Some(text), None)?;
        assert!(rt; answers(alloc, &mut kernel, &a, r#"{"cell":"a","edited":true}"#)?);
        assert!(rt; shows(alloc, &mut kernel, "a", want)?);
    }
    Ok(())
}

fn is_clean(reply: &Reply) -> bool {
    match reply {
        Reply::Ran {
            mark: MarkText::Clean,
            stale,
            ..
        } => stale.len() == 0,
        _ => false,
    }
}

// Gives the cell a text, unless it is empty, and runs it.
fn run_cell(alloc: Global, kernel: &mut Kernel, cell: &str, text: &str) -> Result<Reply, NoMemory> {
    if text.len() > 0 {
        kernel.step(&ask(alloc, cell, Some(text), None)?)?;
    }
    kernel.step(&ask(alloc, cell, None, None)?)
}

// Whether the runs are answered as they should be, where an empty answer stands for a clean one.
fn are_right(alloc: Global, runs: &[(&str, &str, &str)]) -> Result<bool, NoMemory> {
    let mut kernel = Kernel::new(alloc, 1_000_000)?;
    for (cell, text, want) in runs {
        if !is_right(alloc, &mut kernel, cell, text, want)? {
            return Ok(false);
        }
    }
    Ok(true)
}

fn is_right(
    alloc: Global,
    kernel: &mut Kernel,
    cell: &str,
    text: &str,
    want: &str,
) -> Result<bool, NoMemory> {
    let reply = run_cell(alloc, kernel, cell, text)?;
    if want.len() == 0 {
        return Ok(is_clean(&reply));
    }
    Ok(write_reply(alloc, &reply)?.as_slice() == want.as_bytes())
}

#[test]
fn marks_runs(rt: HostRuntime) -> Result<(), Fail> {
    let alloc = rt.alloc();
    let chain = [
        ("a", "x = 1", ""),
        ("b", "y = x", ""),
        ("c", "z = y", ""),
        ("d", "x = 2", ""),
        (
            "p",
            "w = z",
            r#"{"cell":"p","end":"ok","mark":{"stale":{"computed":3,"dep":"x","overwritten":4,"symbol":"z"}},"out":"","run":5,"stale":["z"]}"#,
        ),
        ("b", "", ""),
        ("c", "", ""),
        ("p", "", ""),
    ];
    assert!(rt; are_right(alloc, &chain)?);
    let own = [
        ("a", "x = 0", ""),
        ("b", "x = x + 1", ""),
        ("b", "", ""),
        ("b", "", ""),
        ("p", "y = x", ""),
    ];
    assert!(rt; are_right(alloc, &own)?);
    Ok(())
}

#[test]
fn marks_by_live_names(rt: HostRuntime) -> Result<(), Fail> {
    let alloc = rt.alloc();
    let live = [
        (
            "a",
            "y = q",
            r#"{"cell":"a","end":{"raised":"NameError"},"mark":"clean","out":"","run":1,"stale":[]}"#,
        ),
        ("a", "x = 1", ""),
        ("b", "y2 = x", ""),
        ("c", "z = x", ""),
        ("d", "x = 2", ""),
        ("p", "z = 1\nw = z", ""),
        ("c", "", ""),
        ("d", "", ""),
        (
            "p",
            "w = q\nw = z",
            r#"{"cell":"p","end":{"raised":"NameError"},"mark":{"stale":{"computed":7,"dep":"x","overwritten":8,"symbol":"z"}},"out":"","run":9,"stale":[]}"#,
        ),
        (
            "p",
            "w = z + y2 + z",
            r#"{"cell":"p","end":"ok","mark":{"stale":{"computed":3,"dep":"x","overwritten":5,"symbol":"y2"}},"out":"","run":10,"stale":["z","y2"]}"#,
        ),
    ];
    assert!(rt; are_right(alloc, &live)?);
    Ok(())
}
