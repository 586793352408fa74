#![tactic(auto)]

ghost use Rattle.std.specs.Prelude.{◌≡◌, ◌≢◌, Err, IfErr, IfOk};
ghost use Rattle.grid_text.specs.Printing.{summary_text};
ghost use Rattle.grid_text.specs.Reading.{grid_of};
ghost use Rattle.grid_text.specs.declared.fault.TextFault.TheVariants.{NoMemory};

use grid_text::{TextFault, print_summary, read_grid};
use std::alloc::Global;

/// The summary of the grid that a text reads as.
pub fn summary_of(alloc: Global, text: &[u8]) -> Result<Vec<u8>, TextFault>
    ensures ok { IfOk result (λ summary. IfOk (grid_of text.now) (λ grid. summary.items ≡ summary_text grid 0)) }
    ensures fault { IfErr result (λ fault. fault ≢ NoMemory → grid_of text.now ≡ Err fault) }
{
    let grid = read_grid(alloc, text)?;
    Ok(print_summary(alloc, &grid, 0)?)
}
