// The lines below the answer to an offer.
use crate::offer::Offer;
use bank::interface::Bank;
use examination::examination::Examination;
use fddevs::refusal::Refusal;
use proof_rules::evidence::Evidence;
use std::alloc::{AllocError, Global};
use stepping::steps::start;

impl<B: Bank> Offer<'_, B> {
    fn set_lines(&self) -> Result<String, AllocError> {
        let count = self.rows().count();
        format!(in self.heap;
            "  a set of {count} rows: no run of the scheme enters a barred state\n"
        )
    }

    fn witness_lines(&self) -> Result<String, AllocError> {
        let count = self.step_count();
        let row = self.last_row();
        let cells = self.cells(&row);
        let mut out = format!(in self.heap;
            "  a witness of {count} steps: a run that enters a barred state\n  last row:{cells}\n"
        )?;
        self.write_held(&row, &mut out)?;
        Ok(out)
    }
}

// What an accepted proof file shows.
pub fn accepted<B: Bank>(
    heap: Global,
    x: &Examination<B>,
    file: &[u8],
    shown: Evidence,
) -> Result<String, AllocError> {
    let offer = Offer::new(heap, x, file);
    match shown {
        Evidence::Set => offer.set_lines(),
        Evidence::Witness => offer.witness_lines(),
    }
}

// What a refusal of a proof file rests on, where it rests on rows or steps.
pub fn refused<B: Bank>(
    heap: Global,
    x: &Examination<B>,
    file: &[u8],
    refusal: Refusal,
) -> Result<String, AllocError> {
    let offer = Offer::new(heap, x, file);
    match refusal {
        Refusal::RowPhase(k) => offer.phase_lines(k),
        Refusal::RowOrder(_, k) => offer.order_lines(k),
        Refusal::StartAbsent => offer.named("start", &start(x.bank())),
        Refusal::RowBarred(k) => offer.barred_lines(k),
        Refusal::RowLeaves(k) => offer.leaving_lines(k),
        Refusal::StepNotAllowed(k) => offer.step_lines(k),
        Refusal::EndNotBarred => offer.named("last row", &offer.last_row()),
        _ => Ok(String::new(heap)),
    }
}
