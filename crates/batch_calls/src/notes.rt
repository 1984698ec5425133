// What is told of a batch.
ghost use Rattle.std.specs.Prelude.{◌≡◌, ◌≤◌, length};
ghost use Rattle.lent_arrays.specs.Lending.{written};
ghost use Rattle.calls.specs.Modules as modules;
ghost use Rattle.batch_calls.specs.Batches as batches;

use batch_reports::Report;
use cell::Refusal;
use lent_arrays::lending::write_first;

// The eleven numbers of a report.
fn write_report(out: &mut [u32], report: Report)
    requires { 11 ≤ length out.old }
    ensures { out.new ≡ written (batches.report_list report) out.old }
{
    let t = report.tally;
    let mean = report.mean;
    let low = (t.cycles % 0x100000000) as u32;
    let high = (t.cycles / 0x100000000) as u32;
    write_first(
        out,
        &[
            t.forms,
            t.zeros,
            t.stacks,
            t.handlers,
            t.others,
            t.spent,
            low,
            high,
            t.largest,
            mean.quotient,
            mean.remainder,
        ],
    );
}

pub fn note_batched(answer: Result<Report, Refusal>, out: &mut [u32]) -> u32
    requires { 11 ≤ length out.old }
    ensures { modules.noted out.new result ≡ batches.batch_noted out.old answer }
{
    match answer {
        Err(r) => u32::from(r),
        Ok(t) => {
            write_report(out, t);
            0
        }
    }
}
