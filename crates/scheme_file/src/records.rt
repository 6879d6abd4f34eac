// Where a scheme file's bytes are read. A place is given beside the file: a slice from there would lose where it lies, which
// the definitions speak of.
ghost use Rattle.std.specs.Prelude.{◌≡◌, ◌+◌, ◌*◌, ◌≤◌, length};
ghost use Rattle.fddevs.specs.Bytes.{two_at};
ghost use Rattle.scheme_file.specs.File.{phase_of, external_of, section_of, record_size, record_at, record_of};

use crate::section::{Phase, Section};
use fddevs::part::{Counts, External, Mark, Output, Span};

// The two-byte number at a byte of the file.
pub(crate) fn two(file: &[u8], at: usize) -> u16
    requires { at + 2 ≤ length file.now }
    ensures { result ≡ two_at file.now at }
{
    u16::from_be_bytes([file[at], file[at + 1]])
}

// The section whose bytes begin at a byte of the file.
pub(crate) fn section(file: &[u8], at: usize) -> Section
    requires { at + 4 ≤ length file.now }
    ensures { result ≡ section_of file.now at }
{
    let counts = Counts {
        phases: file[at],
        inputs: file[at + 1],
        outputs: file[at + 2],
    };
    Section {
        counts,
        start: file[at + 3],
        records: at + 4,
    }
}

// How many bytes a phase record has.
pub(crate) fn record_size(counts: Counts) -> usize
    ensures { result ≡ record_size counts }
{
    4 + 2 * usize::from(counts.inputs)
}

// The bytes of the record of a phase.
pub(crate) fn record_bytes(file: &[u8], x: Section, number: u8) -> &[u8]
    requires { record_at x number + record_size x.counts ≤ length file.now }
    ensures bytes { result.now ≡ record_of file.now x number }
    ensures size { length result.now ≡ record_size x.counts }
{
    let size = record_size(x.counts);
    let at = x.records + usize::from(number) * size;
    &file[at..at + size]
}

// What a record says of its phase. This is the one place where a phase record's own fields are read.
pub(crate) fn phase(bytes: &[u8]) -> Phase
    requires { 4 ≤ length bytes.now }
    ensures { result ≡ phase_of bytes.now }
{
    Phase {
        lifespan: Span::from(two(bytes, 0)),
        next: bytes[2],
        output: Output::from(bytes[3]),
    }
}

// What a record says of an input.
pub(crate) fn external(bytes: &[u8], input: u8) -> External
    requires { 6 + 2 * input ≤ length bytes.now }
    ensures { result ≡ external_of bytes.now input }
{
    let at = 4 + 2 * usize::from(input);
    External {
        next: bytes[at],
        mark: Mark::from(bytes[at + 1]),
    }
}
