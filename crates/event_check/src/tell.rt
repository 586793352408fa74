//! What is told of events.

ghost use Rattle.std.specs.Prelude.{◌≡◌, ◌++◌, OnOk};
ghost use Rattle.std.specs.Fmt.{decimal};
ghost use Rattle.event_check.specs.Output.{count_line};
ghost use Rattle.event_check.specs.Telling.{line_for, lines_for};

use crate::walk::Applied;
use itoa::Buffer;
use std::alloc::AllocError;

/// Puts a word and a number behind `text`.
fn push_number(text: &mut Vec<u8>, word: &str, n: u64) -> Result<(), AllocError>
    ensures { OnOk result (text.new.items ≡ text.old.items ++ (word.now ++ decimal n)) }
{
    let mut buffer = Buffer::new();
    text.extend_from_slice(word.as_bytes())?;
    text.extend_from_slice(buffer.format(n).as_bytes())
}

/// Puts the line of a word and a number behind `text`.
pub(crate) fn push_count(text: &mut Vec<u8>, word: &str, n: usize) -> Result<(), AllocError>
    ensures { OnOk result (text.new.items ≡ text.old.items ++ count_line word.now n) }
{
    push_number(text, word, n as u64)?;
    text.push(b'\n')?;
    Ok(())
}

/// Puts the line of an entry behind `text`, where there is one.
fn push_entry(text: &mut Vec<u8>, word: &str, entry: Option<(u32, u32)>) -> Result<(), AllocError>
    ensures { OnOk result (text.new.items ≡ text.old.items ++ line_for word.now entry) }
{
    let Some((round, number)) = entry else {
        return Ok(());
    };
    push_number(text, word, u64::from(round))?;
    push_number(text, " ", u64::from(number))?;
    text.push(b'\n')?;
    Ok(())
}

/// Puts the lines of an event that was made behind `text`.
pub(crate) fn push_made(text: &mut Vec<u8>, made: Applied) -> Result<(), AllocError>
    ensures { OnOk result (text.new.items ≡ text.old.items ++ lines_for made) }
{
    push_entry(text, "out ", made.out)?;
    push_entry(text, "take ", made.take)
}
