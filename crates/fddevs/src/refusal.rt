// Why a file or a call is sent back.
ghost use Rattle.std.specs.Prelude.{◌≡◌};
ghost use Rattle.fddevs.specs.Refusals.{layer_number, number_of, layer_of, place_of};

// What was being read or asked for when the refusal came.
#[derive(Clone, Copy, PartialEq, Eq, Debug)]
pub enum Layer {
    OutputList,
    Scheme,
    TimersAndPair,
    Wiring,
    Bars,
    Proof,
    BookAndPlayback,
}

// A refusal. Each case has one number, one layer and one place: the first section, timer, wire, row or step at
// fault, counted from 0, or 0 where the whole is at fault.
#[derive(Clone, Copy, PartialEq, Eq, Debug)]
pub enum Refusal {
    // a file ends early or has bytes to spare
    NotWhole(Layer),
    // a file's version is not 01
    Version(Layer),
    // a section's length is not that of its phases and inputs
    SectionLength(u8),
    // a scheme of no parts or of more than 16
    PartCount,
    // a section with no phases, with more than 64, or with more than 16 inputs or outputs
    SectionCounts(u8),
    // a section with a start, next phase, output or mark that does not exist
    SectionNames(u8),
    // no timers, or more than 16
    TimerCount,
    // an operate or hold time beyond 65,534 ticks
    TimerTime(u8),
    // two banks of more than 16 parts together
    PairCount,
    // more than 32 outer inputs or outer outputs, or more than 256 wires
    WiringCounts,
    // a wire that does not come after the one before it
    WireOrder(usize),
    // a wire that equals an earlier one in its first three bytes
    WireTwice(usize),
    // a wire with an end that does not exist, from a part to itself, or from outside to outside
    WireNames(usize),
    // a bar of no conditions or of more than four, out of order, or with a part or phase that does not exist
    BarForm,
    // a bar whose conditions are those of a bar that stands
    BarStands,
    // a seventeenth bar
    BarsFull,
    // no free entry for a new record, or an output too short for a file
    NoRoom,
    // a file's kind is not the one that is read
    Kind(Layer),
    // a body that is empty, too long or not whole rows
    Body(Layer),
    // a row with a byte beyond its parts that is not 0
    RowBytes(usize),
    // a row that is not above the one before it
    RowOrder(Layer, usize),
    // rows of no parts or of more than 16
    RowParts,
    // a row of a set with a phase that does not exist
    RowPhase(usize),
    // a set without the row of the start
    StartAbsent,
    // a row of a set that is barred
    RowBarred(usize),
    // a row of a set from which a step leads to no row of the set
    RowLeaves(usize),
    // a step of a witness that is not allowed or not well-formed
    StepNotAllowed(usize),
    // a witness whose last state is not barred
    EndNotBarred,
}

impl Layer {
    pub fn number(self) -> u8
        ensures { result ≡ layer_number self }
    {
        match self {
            Layer::OutputList => 1,
            Layer::Scheme => 2,
            Layer::TimersAndPair => 3,
            Layer::Wiring => 4,
            Layer::Bars => 5,
            Layer::Proof => 6,
            Layer::BookAndPlayback => 7,
        }
    }
}

impl Refusal {
    pub fn number(self) -> u8
        ensures { result ≡ number_of self }
    {
        match self {
            Refusal::NotWhole(_) => 1,
            Refusal::Version(_) => 2,
            Refusal::SectionLength(_) => 3,
            Refusal::PartCount | Refusal::SectionCounts(_) => 4,
            Refusal::WiringCounts | Refusal::RowParts => 4,
            Refusal::SectionNames(_) => 5,
            Refusal::WireOrder(_) => 6,
            Refusal::WireTwice(_) => 7,
            Refusal::WireNames(_) => 8,
            Refusal::TimerCount | Refusal::TimerTime(_) => 9,
            Refusal::PairCount => 10,
            Refusal::BarForm => 11,
            Refusal::BarStands => 12,
            Refusal::BarsFull => 13,
            Refusal::NoRoom => 14,
            Refusal::Kind(_) => 17,
            Refusal::Body(_) => 18,
            Refusal::RowBytes(_) | Refusal::RowPhase(_) => 19,
            Refusal::RowOrder(_, _) => 20,
            Refusal::StartAbsent => 21,
            Refusal::RowBarred(_) => 22,
            Refusal::RowLeaves(_) => 23,
            Refusal::StepNotAllowed(_) => 24,
            Refusal::EndNotBarred => 25,
        }
    }

    pub fn layer(self) -> Layer
        ensures { result ≡ layer_of self }
    {
        match self {
            Refusal::NotWhole(layer) | Refusal::Version(layer) => layer,
            Refusal::Kind(layer) | Refusal::Body(layer) | Refusal::RowOrder(layer, _) => layer,
            Refusal::NoRoom => Layer::OutputList,
            Refusal::RowBytes(_) | Refusal::RowParts => Layer::BookAndPlayback,
            Refusal::SectionLength(_) | Refusal::PartCount => Layer::Scheme,
            Refusal::SectionCounts(_) | Refusal::SectionNames(_) => Layer::Scheme,
            Refusal::TimerCount | Refusal::TimerTime(_) | Refusal::PairCount =>
                Layer::TimersAndPair,
            Refusal::WiringCounts | Refusal::WireOrder(_) => Layer::Wiring,
            Refusal::WireTwice(_) | Refusal::WireNames(_) => Layer::Wiring,
            Refusal::BarForm | Refusal::BarStands | Refusal::BarsFull => Layer::Bars,
            Refusal::RowPhase(_) | Refusal::StartAbsent | Refusal::RowBarred(_) => Layer::Proof,
            Refusal::RowLeaves(_) | Refusal::StepNotAllowed(_) | Refusal::EndNotBarred =>
                Layer::Proof,
        }
    }

    pub fn place(self) -> usize
        ensures { result ≡ place_of self }
    {
        match self {
            Refusal::SectionLength(section) => usize::from(section),
            Refusal::SectionCounts(section) => usize::from(section),
            Refusal::SectionNames(section) => usize::from(section),
            Refusal::TimerTime(timer) => usize::from(timer),
            Refusal::WireOrder(wire) | Refusal::WireTwice(wire) | Refusal::WireNames(wire) => wire,
            Refusal::RowBytes(row) | Refusal::RowOrder(_, row) | Refusal::RowPhase(row) => row,
            Refusal::RowBarred(row) | Refusal::RowLeaves(row) => row,
            Refusal::StepNotAllowed(step) => step,
            Refusal::NotWhole(_) | Refusal::Version(_) | Refusal::Kind(_) | Refusal::Body(_) => 0,
            Refusal::PartCount | Refusal::TimerCount | Refusal::PairCount => 0,
            Refusal::WiringCounts | Refusal::NoRoom | Refusal::RowParts => 0,
            Refusal::BarForm | Refusal::BarStands | Refusal::BarsFull => 0,
            Refusal::StartAbsent | Refusal::EndNotBarred => 0,
        }
    }
}
