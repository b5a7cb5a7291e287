// Long lines. `bench/parsing` reads longer ones, which take too long where each access to memory is watched.
use crate::tables::deep;
use std::test::Fail;

#[test]
fn long_lines(rt: HostRuntime) -> Result<(), Fail> {
    let texts =
        "x = «y ** »z ¦ x = «lambda: »y ¦ x = «lambda y=»1«: y» ¦ x = «x if y else »z ¦ x = y«.a» ¦ x = y« + z»
        ¦ x = y« or z» ¦ x«.a» = 1";
    deep(&rt, rt.alloc(), texts, 1_000, "limit")?;
    let texts =
        "x = «y ** »z) ¦ x = «lambda: »y) ¦ x = «lambda y=»1«: y») ¦ x = «x if y else »z) ¦ x = y«.a») ¦ x = y« + z»)
        ¦ x = y« or z») ¦ x«.a»() = 1";
    deep(&rt, rt.alloc(), texts, 1_000, "no line")?;
    Ok(())
}

#[test]
fn long_prefixes(rt: HostRuntime) -> Result<(), Fail> {
    deep(&rt, rt.alloc(), "x = «-»1 ¦ x = «not »y", 20_000, "limit")?;
    deep(
        &rt,
        rt.alloc(),
        "x = «-»1) ¦ x = «not »y)",
        20_000,
        "no line",
    )?;
    Ok(())
}
