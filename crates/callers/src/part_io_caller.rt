#![tactic(auto)]

ghost use Rattle.std.specs.Prelude.{IfSome};
ghost use Rattle.std.specs.Bool.{OnTrue};
ghost use Rattle.part_io.specs.Sink.{Adds};

use part_io::{Shelf, Sink};
use std::alloc::Global;

/// Copies the file of this name to the sink, and says whether all of it is there.
pub fn copies<S: Shelf, K: Sink>(alloc: Global, shelf: &mut S, sink: &mut K, name: &str) -> bool
    ensures { OnTrue result (IfSome (S.files shelf.old) (λ held. IfSome (held name.now)
        (Adds (K.written sink.old) (K.written sink.new)))) }
{
    match shelf.read(alloc, name, 1_000_000) {
        Ok(bytes) => sink.write(&bytes).is_ok(),
        Err(_) => false,
    }
}
