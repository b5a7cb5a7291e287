// What no clause says: worked examples, and that each call can succeed.
use super::*;
use std::alloc::Global;
use std::io::Cursor;
use std::str;
use std::test::Fail;

// An answer as a word: a short line as it stands, between brackets.
fn word(alloc: Global, answer: Result<Line, LineFault>) -> Result<String, Fail> {
    let said = match answer {
        Ok(Line::Text(line)) => match str::from_utf8(line.as_slice()) {
            Ok(text) if text.len() < 20 => format!(in alloc; "[{text}]")?,
            _ => format!(in alloc; "[{} bytes]", line.as_slice().len())?,
        },
        Ok(Line::TooLong) => String::from_str(alloc, "long")?,
        Ok(Line::End) => String::from_str(alloc, "end")?,
        Err(fault) => format!(in alloc; "{fault}")?,
    };
    Ok(said)
}

// The answers of a reader until it is closed.
fn answers<S: Source>(alloc: Global, source: &mut S) -> Result<String, Fail> {
    let mut reader = LineReader::new(alloc)?;
    let mut said = String::new(alloc);
    for _ in 0..9 {
        if !reader.is_open() {
            break;
        }
        let answer = reader.next_line(source);
        said.push_str(&word(alloc, answer)?)?;
    }
    Ok(said)
}

#[test]
fn input_is_cut_at_line_feeds(rt: HostRuntime) -> Result<(), Fail> {
    let alloc = rt.alloc();
    for (input, fail, want) in [
        ("", 0, "end"),
        ("\n", 0, "[]end"),
        ("a\r\nb\n", 0, "[a\r][b]end"),
        ("a\n\nb", 0, "[a][][b]end"),
        ("a\nb", 2, "[a]reading failed"),
        ("a\nb", 1, "reading failed"),
    ] {
        let mut source = MemSource::new(alloc, input.as_bytes(), &[fail])?;
        assert_eq!(rt; answers(alloc, &mut source)?.as_str(), want, "at {input:?}");
    }
    Ok(())
}

#[test]
fn long_lines_are_passed_over(rt: HostRuntime) -> Result<(), Fail> {
    let alloc = rt.alloc();
    for (len, want) in [
        (1_048_576, "[1048576 bytes][y]end"),
        (1_048_577, "long[y]end"),
        (3_000_000, "long[y]end"),
    ] {
        let mut input = vec![in alloc; b'x'; len]?;
        input.extend_from_slice(b"\ny")?;
        let mut source = MemSource::new(alloc, &input, &[])?;
        assert_eq!(rt; answers(alloc, &mut source)?.as_str(), want, "at {len}");
    }
    Ok(())
}

#[test]
fn input_past_its_limit(rt: HostRuntime) -> Result<(), Fail> {
    let alloc = rt.alloc();
    let input = vec![in alloc; b'x'; 67_108_865]?;
    let mut source = SureSource::new(alloc, &input)?;
    let want = "the input has over 67,108,864 bytes";
    assert_eq!(rt; answers(alloc, &mut source)?.as_str(), want);
    Ok(())
}

#[test]
fn bytes_behind_a_line_are_held(rt: HostRuntime) -> Result<(), Fail> {
    let alloc = rt.alloc();
    let mut source = SureSource::new(alloc, b"a\nbc\n")?;
    let mut reader = LineReader::new(alloc)?;
    let first = reader.next_line(&mut source);
    reading_law();
    assert_eq!(rt; word(alloc, first)?.as_str(), "[a]");
    assert_eq!(rt; reader.held(), 3);
    Ok(())
}

#[test]
fn memory_fails_where_it_is_told(rt: HostRuntime) -> Result<(), Fail> {
    let alloc = rt.alloc();
    let mut source = MemSource::new(alloc, b"abcd", &[2, 5])?;
    let mut buf = *b"----";
    for (want, held) in [
        (Ok(3), b"abc-"),
        (Err(Failed), b"abc-"),
        (Ok(1), b"dbc-"),
        (Ok(0), b"dbc-"),
        (Err(Failed), b"dbc-"),
    ] {
        assert_eq!(rt; source.read(&mut buf[..3]), want);
        assert_eq!(rt; buf, *held);
    }
    let mut sink = MemSink::new(alloc, 4, &[2])?;
    for (piece, want) in [
        ("abc", Ok(3)),
        ("d", Err(Failed)),
        ("de", Ok(1)),
        ("e", Err(Failed)),
        ("", Ok(0)),
    ] {
        assert_eq!(rt; sink.write(piece.as_bytes()), want, "at {piece}");
    }
    assert_eq!(rt; sink.written(), b"abcd".as_slice());
    Ok(())
}

#[test]
fn pieces_are_put_whole(rt: HostRuntime) -> Result<(), Fail> {
    let alloc = rt.alloc();
    for (room, want, held) in [(5, Ok(()), "abcde"), (4, Err(Failed), "abcd")] {
        let mut sink = MemSink::new(alloc, room, &[])?;
        assert_eq!(rt; put(&mut sink, b"abcde"), want, "at {room}");
        assert_eq!(rt; sink.written(), held.as_bytes(), "at {room}");
    }
    Ok(())
}

#[test]
fn readers_and_writers_of_std(rt: HostRuntime) -> Result<(), Fail> {
    let alloc = rt.alloc();
    let mut source = StdSource::new(Cursor::new(b"abc".as_slice()));
    let mut buf = *b"----";
    assert_eq!(rt; source.read(&mut buf), Ok(3));
    assert_eq!(rt; buf, *b"abc-");
    let mut sink = StdSink::new(Vec::new(alloc));
    assert_eq!(rt; put(&mut sink, &buf), Ok(()));
    assert_eq!(rt; put(&mut SureSink::new(), &buf), Ok(()));
    let mut full = StdSink::new(Cursor::new([0u8; 2]));
    assert_eq!(rt; put(&mut full, &buf), Err(Failed));
    Ok(())
}
