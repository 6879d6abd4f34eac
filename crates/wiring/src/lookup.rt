// The look-ups of a wiring. A source is the first two bytes of a wire, given as they are: a part and its output, or outside
// and an outer input.
ghost use Rattle.std.specs.Prelude.{◌≡◌, ◌+◌};
ghost use Rattle.fddevs.specs.Scheme.{wired};
ghost use Rattle.wiring.specs.Meaning.{wiring_of, no_wiring};
ghost use Rattle.wiring.specs.Wires.{comes_below, from_source, input_to, Splits};

use crate::wires::{NO_WIRE, OuterCounts, Wiring};
use fddevs::scheme::Wire;

// Two comparisons, and not one of tuples: a look-up asks this in each turn, and tuples take half as long again.
fn is_below(wire: Wire, source: u8, output: u16) -> bool
    ensures { result ≡ comes_below source output wire }
{
    wire.source < source || wire.source == source && u16::from(wire.output) < output
}

// Where the first of the wires that leads to the target ends.
fn input_to(wires: &[Wire], target: u8) -> Option<u8>
    ensures { result ≡ input_to wires.now target }
{
    Some(wires.iter().find(|wire| wire.target == target)?.input)
}

impl Wiring {
    // No wires, no outer inputs and no outer outputs.
    pub fn none() -> Wiring
        ensures { wiring_of result ≡ no_wiring }
    {
        Wiring {
            table: [NO_WIRE; 256],
            count: 0,
            outer: OuterCounts {
                inputs: 0,
                outputs: 0,
            },
        }
    }

    pub fn outer_inputs(&self) -> u8
        ensures { result ≡ (wiring_of self.now).outer_inputs }
    {
        self.outer.inputs
    }

    pub fn outer_outputs(&self) -> u8
        ensures { result ≡ (wiring_of self.now).outer_outputs }
    {
        self.outer.outputs
    }

    pub fn wires(&self) -> &[Wire]
        ensures { result.now ≡ (wiring_of self.now).wires }
    {
        &self.table[..self.count]
    }

    // How many wires come from a lower source, or from a lower output of this one.
    fn count_below(&self, source: u8, output: u16) -> usize
        ensures { Splits (wiring_of self.now).wires source output result }
    {
        self.wires()
            .partition_point(|wire| is_below(*wire, source, output))
    }

    // How many wires come from an output where so many as `low` come from below it. They are few and stand together, so they
    // are counted by a scan.
    fn count_from(&self, low: usize, source: u8, output: u8) -> usize
        requires { Splits (wiring_of self.now).wires source output low }
        ensures { Splits (wiring_of self.now).wires source (output + 1) (low + result) }
    {
        let next = u16::from(output) + 1;
        let rest = &self.wires()[low..];
        rest.iter()
            .position(|wire| !is_below(*wire, source, next))
            .unwrap_or(rest.len())
    }

    // The wires from an output of a part, or of an outer input where the source is outside. They stand together.
    pub fn from_source(&self, source: u8, output: u8) -> &[Wire]
        ensures { result.now ≡ from_source (wiring_of self.now).wires source output }
    {
        let low = self.count_below(source, u16::from(output));
        let count = self.count_from(low, source, output);
        &self.wires()[low..low + count]
    }

    // The input of the target that is wired to an output of the source.
    pub fn input_at(&self, source: u8, output: u8, target: u8) -> Option<u8>
        ensures { result ≡ wired (wiring_of self.now).wires source output target }
    {
        input_to(self.from_source(source, output), target)
    }
}
