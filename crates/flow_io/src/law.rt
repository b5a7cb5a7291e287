// Laws of the answers of a reader.
ghost use Rattle.std.specs.Prelude.{◌≡◌, ◌≢◌, ◌⊎◌, ◌<◌, ◌++◌, ℕ, List, [], true};
ghost use Rattle.std.specs.declared.option.Option.{Option};
ghost use Rattle.std.specs.declared.result.Result.{Result};
ghost use Rattle.flow_base.specs.Lines.{HasNoEnd};
ghost use Rattle.flow_io.specs.Reader.{Reader};
ghost use Rattle.flow_io.specs.Reading.{AnswersLine, IsFirstLine, Reads};
ghost use Rattle.flow_io.specs.declared.line.Line.{Line};
ghost use Rattle.flow_io.specs.declared.line.LineFault.{LineFault};

use crate::{INPUT_LIMIT, Line, LineFault};

/// The answers of a call of `next_line` come always where their causes hold, unless memory is wanting.
pub fn reading_law()
    // The bytes begin with a line: it is answered, as too long exactly where it has more bytes than a line may have.
    ensures line { (given : List ℕ) (before after : Option (List ℕ)) (old new : Reader) (result : Result Line LineFault)
        → Reads given before after old new result
        → (line : List ℕ) → IsFirstLine line (old.pending ++ given) after new → AnswersLine line result }

    // The source answered its end, and no byte is left.
    ensures end { (given : List ℕ) (before after : Option (List ℕ)) (old new : Reader) (result : Result Line LineFault)
        → Reads given before after old new result
        → new.ended ≡ true → old.pending ++ given ≡ [] → (result ≡ Ok Line.End) ⊎ (result ≡ Err LineFault.NoMemory) }

    // The source gave too many bytes and no whole line is left. `Read` comes only where its count of faults rose.
    ensures limit { (given : List ℕ) (before after : Option (List ℕ)) (old new : Reader) (result : Result Line LineFault)
        → Reads given before after old new result
        → HasNoEnd (old.pending ++ given) → INPUT_LIMIT < new.taken → result ≢ Err LineFault.Read
        → (result ≡ Err LineFault.InputLimit) ⊎ (result ≡ Err LineFault.NoMemory) }
{}
