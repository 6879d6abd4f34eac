// Reading a wiring file.
ghost use Rattle.std.specs.Prelude.{◌≡◌, ◌+◌, ◌*◌, ◌<◌, ◌≤◌, length, take};
ghost use Rattle.wiring.specs.File.{wire_at, wire_count, held};
ghost use Rattle.wiring.specs.Reading.{meant, reading};

use crate::check::{Draft, check_head, wire_count};
use crate::wires::{NO_WIRE, OuterCounts, Wiring};
use bank::interface::Bank;
use fddevs::refusal::Refusal;
use fddevs::scheme::Wire;

// The wire whose bytes begin at `at`.
fn wire(file: &[u8], at: usize) -> Wire
    requires { at + 4 ≤ length file.now }
    ensures { result ≡ wire_at file.now at }
{
    Wire {
        source: file[at],
        output: file[at + 1],
        target: file[at + 2],
        input: file[at + 3],
    }
}

// The loop fills the places of the wires alone: `from_fn` would ask for each of the 256.
fn table(file: &[u8]) -> [Wire; 256]
    requires { wire_count file.now ≤ 256 }
    ensures { take (wire_count file.now) result ≡ (held file.now).wires }
{
    let mut table = [NO_WIRE; 256];
    for k in 0..wire_count(file) {
        table[k] = wire(file, 5 + 4 * k);
    }
    table
}

// The wiring that a file gives for a bank, or the refusal with the smallest number that holds.
pub fn read<B: Bank>(bank: &B, file: &[u8]) -> Result<Wiring, Refusal>
    ensures { meant result ≡ reading (B.Bank.family bank.now) file.now }
{
    check_head(file)?;
    let outer = OuterCounts {
        inputs: file[3],
        outputs: file[4],
    };
    let table = table(file);
    let count = wire_count(file);
    let draft = Draft {
        bank,
        outer,
        wires: &table[..count],
    };
    draft.check()?;
    Ok(Wiring {
        table,
        count,
        outer,
    })
}
