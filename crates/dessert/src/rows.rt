//! Running a design over all rows of a source.

ghost use Rattle.std.specs.Prelude.{◌≡◌, [], IsTrue};
ghost use Rattle.stimulus.specs.Reads.{Reads};
ghost use Rattle.vl_stands.specs.StandsFor.{input_names};
ghost use Rattle.window_run.specs.Ran.{RanTo};
ghost use Rattle.dessert.specs.Inputs.{bits_named};
ghost use Rattle.dessert.specs.Outside.{source_at};
ghost use Rattle.dessert.specs.Calls.Told.{TakesBits};
ghost use Rattle.dessert.specs.Calls.Rows.{RanAll, StepsEach};

use dt_io::outside::Source;
use flat_sim::steps::Steps;
use std::alloc::Global;
use std::sync::ledger::Ledger;
use stimulus::reader::StimReader;
use stimulus::refusal::StimFault;
use window_run::run::Run;

/// Runs over every row of the source; after a failure the rows are read and checked alone. Out of memory is the reader's or the run's.
pub fn run_rows<S: Source, L: Ledger>(
    alloc: Global,
    reader: &mut StimReader,
    run: &mut Run<'_>,
    source: &mut S,
    steps: &mut Steps<L>,
) -> Result<(), StimFault>
    requires live { IsTrue reader.old.live }
    requires reads { Reads reader.old [] [] }
    requires inputs { reader.old.inputs ≡ bits_named (input_names run.old.flat) }
    requires ran { RanTo run.old.flat [] [] run.old }
    requires bits { TakesBits run.old.flat }
    ensures ran { let seen = source_at S.Source in
        RanAll run.old.flat (bits_named (input_names run.old.flat)) (seen source.old) (seen source.new)
        steps.old steps.new run.new result }
    ensures steps { StepsEach (source_at S.Source source.old) (source_at S.Source source.new) steps.old steps.new }
    ensures flat { run.new.flat ≡ run.old.flat }
    ensures lag { run.new.lag ≡ run.old.lag }
{
    'rows: loop {
        match reader.next_row(alloc, source) {
            Ok(true) => {
                let Ok(()) = run.take(alloc, reader.row(), steps) else {
                    return Err(StimFault::Memory);
                };
            }
            Ok(false) => return Ok(()),
            Err(fault) => return Err(fault),
        }
    }
}
