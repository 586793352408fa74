//! The pairs of a script.

ghost use Rattle.std.specs.Prelude.{◌≡◌, ◌++◌, IfOk, OnOk, string_bytes, slice_get};
ghost use Rattle.std.specs.List.{AllZip};
ghost use Rattle.script_pair.specs.Answers.{answer, after};
ghost use Rattle.script_run.specs.Run.{names_text, pair_line, pair_text, after_pair};
ghost use Rattle.script_run.specs.Pairs.{StandsPair, IsNew};

use part_api::Side;
use part_geometry::Geometry;
use script_pair::{MatchedPair, closed};
use script_text::Action;
use std::alloc::{AllocError, Global};

/// Appends the names of a pair.
fn tell_names(send: &[u8], recv: &[u8], text: &mut Vec<u8>) -> Result<(), AllocError>
    ensures { OnOk result (text.new.items ≡ text.old.items ++ names_text send.now recv.now) }
{
    text.extend_from_slice(b"pair ")?;
    text.extend_from_slice(send)?;
    text.push(b' ')?;
    text.extend_from_slice(recv)?;
    Ok(())
}

/// A pair and the names of its two requests.
#[derive(Drop)]
pub(crate) struct NamedPair<'a> {
    send: &'a [u8],
    recv: &'a [u8],
    pair: MatchedPair,
}

impl<'a> NamedPair<'a> {
    /// A pair that was completed just now.
    pub(crate) fn new(
        alloc: Global,
        send: &'a [u8],
        recv: &'a [u8],
        geometry: Geometry,
    ) -> Result<NamedPair<'a>, AllocError>
        ensures { IfOk result (λ pair. IsNew pair send.now recv.now geometry) }
    {
        let pair = MatchedPair::create(alloc, geometry)?;
        Ok(NamedPair { send, recv, pair })
    }

    /// What an action on one of its requests answers.
    fn answer(&mut self, alloc: Global, side: Side, action: &Action) -> Result<String, AllocError>
        ensures { (p : _) → StandsPair self.old p →
            IfOk result (λ text. string_bytes text ≡ answer p.shape side p.desk action.now)
            × StandsPair self.new (record p { desk = after p.shape side p.desk action.now }) }
    {
        self.pair.answer(alloc, side, action)
    }

    /// Appends the pair's line of the report.
    pub(crate) fn tell(self, alloc: Global, text: &mut Vec<u8>) -> Result<(), AllocError>
        ensures { (p : _) → StandsPair self.entry p → OnOk result (text.new.items ≡ text.old.items ++ pair_line p) }
    {
        tell_names(self.send, self.recv, text)?;
        let rest = closed(alloc, self.pair.close())?;
        text.extend_from_slice(rest.as_bytes())?;
        text.push(b'\n')?;
        Ok(())
    }
}

/// What an action on a request of the n-th pair answers.
pub(crate) fn answer_at(
    alloc: Global,
    pairs: &mut Vec<NamedPair<'_>>,
    n: u32,
    side: Side,
    action: &Action,
) -> Result<String, AllocError>
    ensures { (ps : _) → AllZip StandsPair pairs.old.items ps →
        IfOk result (λ text. string_bytes text ≡ pair_text (slice_get ps n) side action.now)
        × AllZip StandsPair pairs.new.items (after_pair ps n (slice_get ps n) side action.now) }
{
    let index = n as usize;
    if index >= pairs.len() {
        return Ok(String::new(alloc));
    }
    pairs[index].answer(alloc, side, action)
}
