ghost use Rattle.std.specs.Prelude.{◌≡◌, true, is_ok, IfOk};
ghost use Rattle.bank.specs.OrIdle.{or_idle};
ghost use Rattle.scheme_file.specs.Bank.{held_family, section_in, phase_in};
ghost use Rattle.scheme_file.specs.File.{sections_of, file_family};
ghost use Rattle.scheme_file.specs.Vetting.{vetting, table_family};
ghost use Rattle.scheme_file.specs.Sound.{sound, file_within};

use crate::records::{external, phase, record_bytes, section, two};
use crate::scheme::Scheme;
use crate::section::{Phase, Section};
use crate::vetting::vet;
use bank::interface::Bank;
use bank::or_idle::OrIdle;
use fddevs::part::{Counts, External, Output, Span};
use std::alloc::{AllocError, Global};

// The table bank, or the idle bank where its vetting refused.
pub type TableBank = OrIdle<Scheme>;

impl Scheme {
    fn section(&self, part: u8) -> Option<Section>
        ensures { result ≡ section_in self.now.file.items part }
    {
        self.sections.get(usize::from(part)).copied()
    }

    fn phase(&self, part: u8, number: u8) -> Option<Phase>
        ensures { result ≡ phase_in self.now.file.items part number }
    {
        let x = self.section(part)?;
        if number >= x.counts.phases {
            return None;
        }
        Some(phase(record_bytes(self.file.as_slice(), x, number)))
    }
}

// That the number of sections fits is proved where it is cast.
impl Bank for Scheme {
    ghost family = { λ x. file_family x.file.items };

    ghost limits = { λ b. file_within _ (sound b.file.items b.vetted) };

    fn part_count(&self) -> u8 {
        self.sections.len() as u8
    }

    fn counts(&self, part: u8) -> Option<Counts> {
        Some(self.section(part)?.counts)
    }

    fn start(&self, part: u8) -> Option<u8> {
        Some(self.section(part)?.start)
    }

    fn lifespan(&self, part: u8, phase: u8) -> Option<Span> {
        Some(self.phase(part, phase)?.lifespan)
    }

    fn next(&self, part: u8, phase: u8) -> Option<u8> {
        Some(self.phase(part, phase)?.next)
    }

    fn output(&self, part: u8, phase: u8) -> Option<Output> {
        Some(self.phase(part, phase)?.output)
    }

    fn external(&self, part: u8, phase: u8, input: u8) -> Option<External> {
        let x = self.section(part)?;
        if phase >= x.counts.phases || input >= x.counts.inputs {
            return None;
        }
        Some(external(record_bytes(self.file.as_slice(), x, phase), input))
    }
}

// As in the vetting, a place in the file goes from one section to the next.
fn read_sections(heap: Global, file: &[u8]) -> Result<Vec<Section>, AllocError>
    requires { is_ok (vetting file.now) ≡ true }
    ensures { IfOk result (λ v. v.items ≡ sections_of file.now) }
{
    let mut list = Vec::new(heap);
    let mut at = 2;
    for _k in 0..file[1] {
        list.push(section(file, at + 2))?;
        at += 2 + usize::from(two(file, at));
    }
    Ok(list)
}

// The bank of a scheme file, or the idle bank where the vetting refuses it.
pub fn make(heap: Global, file: &[u8]) -> Result<TableBank, AllocError>
    ensures { IfOk result (λ b. or_idle held_family b.bank ≡ table_family file.now) }
{
    if vet(file).is_err() {
        return Ok(OrIdle { bank: None });
    }
    let sections = read_sections(heap, file)?;
    let file = file.to_vec(heap)?;
    Ok(OrIdle {
        bank: Some(Scheme { file, sections }),
    })
}
