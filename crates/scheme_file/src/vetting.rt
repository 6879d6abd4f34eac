ghost use Rattle.std.specs.Prelude.{◌≡◌, ◌+◌, ◌*◌, ◌≤◌, true, length};
ghost use Rattle.fddevs.specs.Vetting.{Tells};
ghost use Rattle.fddevs.specs.declared.refusal.Layer.TheVariants.{Scheme};
ghost use Rattle.fddevs.specs.declared.refusal.Refusal.TheVariants.{Version, PartCount};
ghost use Rattle.scheme_file.specs.Faults.{Fault};
ghost use Rattle.fddevs.specs.Bytes.{two_at};
ghost use Rattle.scheme_file.specs.File.{record_at, record_size};
ghost use Rattle.scheme_file.specs.Vetting.{whole, right_length, counts_fit, phase_exists, external_exists, record_exists, section_exists, passes, refusal, sections_pass, Measured, Ready, vetting};

use crate::records::{phase, record_bytes, record_size, section, two};
use crate::section::{Phase, Section, Test};
use fddevs::part::Output;
use fddevs::refusal::{Layer, Refusal};

// Sections differ in length, so here and below a place in the file goes from one to the next: an iterator would need
// ghost members of its own to say the same.
fn is_whole(file: &[u8]) -> bool
    ensures { result ≡ whole file.now }
{
    if file.len() < 2 {
        return false;
    }
    let mut at = 2;
    for _k in 0..file[1] {
        if file.len() - at < 2 {
            return false;
        }
        at += 2 + usize::from(two(file, at));
        if at > file.len() {
            return false;
        }
    }
    at == file.len()
}

fn is_right_length(file: &[u8], at: usize) -> bool
    requires { at + 2 + two_at file.now at ≤ length file.now }
    ensures { result ≡ right_length file.now at }
{
    let len = usize::from(two(file, at));
    if len < 4 {
        return false;
    }
    let counts = section(file, at + 2).counts;
    len == 4 + usize::from(counts.phases) * record_size(counts)
}

impl Section {
    fn counts_fit(self) -> bool
        ensures { result ≡ counts_fit self }
    {
        let counts = self.counts;
        1 <= counts.phases && counts.phases <= 64 && counts.inputs <= 16 && counts.outputs <= 16
    }

    fn has_phase(self, p: Phase) -> bool
        ensures { result ≡ phase_exists self p }
    {
        let sends = match p.output {
            Output::Silent => true,
            Output::Sends(output) => output < self.counts.outputs,
        };
        p.next < self.counts.phases && sends
    }

    fn has_external(self, bytes: &[u8], input: u8) -> bool
        requires { 6 + 2 * input ≤ length bytes.now }
        ensures { result ≡ external_exists self bytes.now input }
    {
        let at = 4 + 2 * usize::from(input);
        bytes[at] < self.counts.phases && bytes[at + 1] <= 1
    }

    fn has_record(self, bytes: &[u8]) -> bool
        requires { length bytes.now ≡ record_size self.counts }
        ensures { result ≡ record_exists self bytes.now }
    {
        self.has_phase(phase(bytes)) && (0..self.counts.inputs).all(|i| self.has_external(bytes, i))
    }

    fn exists_in(self, file: &[u8]) -> bool
        requires { record_at self self.counts.phases ≤ length file.now }
        ensures { result ≡ section_exists file.now self }
    {
        self.start < self.counts.phases
            && (0..self.counts.phases).all(|s| self.has_record(record_bytes(file, self, s)))
    }
}

impl Test {
    // Whether the section whose length stands at `at` passes.
    fn passes(self, file: &[u8], at: usize) -> bool
        requires inside { at + 2 + two_at file.now at ≤ length file.now }
        requires ready { Measured self file.now at }
        ensures { result ≡ passes self file.now at }
    {
        match self {
            Test::Length => is_right_length(file, at),
            Test::Limits => section(file, at + 2).counts_fit(),
            Test::Names => section(file, at + 2).exists_in(file),
        }
    }

    fn refusal(self, section: u8) -> Refusal
        ensures { result ≡ refusal self section }
    {
        match self {
            Test::Length => Refusal::SectionLength(section),
            Test::Limits => Refusal::SectionCounts(section),
            Test::Names => Refusal::SectionNames(section),
        }
    }
}

fn check_sections(file: &[u8], test: Test) -> Result<(), Refusal>
    requires whole { whole file.now ≡ true }
    requires ready { Ready test file.now }
    ensures { result ≡ sections_pass test file.now }
{
    let mut at = 2;
    for k in 0..file[1] {
        if !test.passes(file, at) {
            return Err(test.refusal(k));
        }
        at += 2 + usize::from(two(file, at));
    }
    Ok(())
}

fn check_all(file: &[u8]) -> Result<(), Refusal>
    ensures { result ≡ vetting file.now }
{
    if !is_whole(file) {
        return Err(Refusal::NotWhole(Layer::Scheme));
    }
    if file[0] != 1 {
        return Err(Refusal::Version(Layer::Scheme));
    }
    check_sections(file, Test::Length)?;
    if file[1] < 1 || file[1] > 16 {
        return Err(Refusal::PartCount);
    }
    check_sections(file, Test::Limits)?;
    check_sections(file, Test::Names)
}

// Whether the file is a scheme. The refusal has the smallest number of all the faults in the file, and the first
// section at fault.
pub fn vet(file: &[u8]) -> Result<(), Refusal>
    ensures answer { result ≡ vetting file.now }
    ensures tells { Tells (Fault file.now) result }
{
    check_all(file)
}
