//! The report at the end of a script.

ghost use Rattle.std.specs.Prelude.{◌≡◌, ◌++◌, OnOk};
ghost use Rattle.std.specs.List.{AllZip, filter, flat_map};
ghost use Rattle.script_run.specs.Run.{pair_line, waiting_line, report};
ghost use Rattle.script_run.specs.State.{is_waiting};
ghost use Rattle.script_run.specs.Pairs.{StandsPair};
ghost use Rattle.script_run.specs.Running.{StandsFor};

use crate::pairs::NamedPair;
use crate::requests::Request;
use crate::run::Run;
use std::alloc::{AllocError, Global};

/// Appends the lines of pairs.
fn tell_pairs(
    alloc: Global,
    pairs: Vec<NamedPair<'_>>,
    text: &mut Vec<u8>,
) -> Result<(), AllocError>
    ensures { (ps : _) → AllZip StandsPair pairs.entry.items ps →
        OnOk result (text.new.items ≡ text.old.items ++ flat_map pair_line ps) }
{
    for pair in pairs {
        pair.tell(alloc, text)?;
    }
    Ok(())
}

/// Appends the line of a request that waits.
fn tell_waiting(request: &Request<'_>, text: &mut Vec<u8>) -> Result<(), AllocError>
    ensures { OnOk result (text.new.items ≡ text.old.items ++ waiting_line request.now) }
{
    text.extend_from_slice(b"unmatched ")?;
    text.extend_from_slice(request.name())?;
    text.push(b'\n')?;
    Ok(())
}

/// Appends the lines of requests that wait.
fn tell_requests(requests: &[Request<'_>], text: &mut Vec<u8>) -> Result<(), AllocError>
    ensures { OnOk result (text.new.items ≡ text.old.items ++ flat_map waiting_line (filter is_waiting requests.now)) }
{
    for request in requests {
        if request.is_waiting() {
            tell_waiting(request, text)?;
        }
    }
    Ok(())
}

/// Appends the report of a run.
pub(crate) fn report(alloc: Global, run: Run<'_>, text: &mut Vec<u8>) -> Result<(), AllocError>
    ensures { (st : _) → StandsFor run.entry st → OnOk result (text.new.items ≡ text.old.items ++ report st) }
{
    let Run {
        requests,
        pairs,
        ..
    } = run;
    tell_pairs(alloc, pairs, text)?;
    tell_requests(&requests, text)
}
