// The row to which the first steps of a witness lead.
ghost use Rattle.std.specs.Prelude.{◌≡◌, take};
ghost use Rattle.fddevs.specs.Rows.{row};
ghost use Rattle.fddevs.specs.Scheme.{scheme, start};
ghost use Rattle.stepping.specs.RowBytes.{cells_of};
ghost use Rattle.wiring.specs.Meaning.{wiring_of};
ghost use Rattle.reasons.specs.Walking.{walked};

use bank::interface::Bank;
use book::row::Row;
pub use proof_rules::steps::move_of;
use stepping::steps::{Scheme, start};
use wiring::wires::Wiring;

// The row after so many steps from the start, allowed or not, or after all that there are before bytes that are no step.
pub fn walk_to<B: Bank>(bank: &B, wiring: &Wiring, body: &[u8], steps: usize) -> Row
    ensures { take (B.family bank.now).count (cells_of result.bytes) ≡ walked (scheme (B.family bank.now) (wiring_of wiring.now)) steps (row (start (scheme (B.family bank.now) (wiring_of wiring.now)))) body.now }
{
    let scheme = Scheme { bank, wiring };
    let mut row = start(bank);
    let mut left = body;
    for _k in 0..steps {
        let [kind, high, low, rest @ ..] = left else {
            return row;
        };
        let Some(a) = move_of(*kind, *high, *low) else {
            return row;
        };
        scheme.step(a, &mut row);
        left = rest;
    }
    row
}
