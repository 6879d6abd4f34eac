ghost use Rattle.std.specs.Prelude.{◌≡◌, ◌≤◌, true, length, take};
ghost use Rattle.wiring.specs.Wires.{all_apart, ascends};

use fddevs::scheme::Wire;

// How many outer inputs and outer outputs there are.
#[derive(Clone, Copy, PartialEq, Eq, Debug)]
pub struct OuterCounts {
    pub inputs: u8,
    pub outputs: u8,
}

// What the table holds past its wires.
pub(crate) const NO_WIRE: Wire = Wire {
    source: 0,
    output: 0,
    target: 0,
    input: 0,
};

// The wires, in order, are the first `count` of the table: by a rule of the project, wires lie in a plain table.
#[derive(Drop)]
pub struct Wiring {
    pub(crate) table: [Wire; 256],
    pub(crate) count: usize,
    pub(crate) outer: OuterCounts,
    ghost few: { count ≤ 256 },
    ghost whole: { length table ≡ 256 },
    ghost ordered: { ascends (take count table) ≡ true },
    ghost apart: { all_apart (take count table) ≡ true },
}
