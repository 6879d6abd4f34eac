use bank::interface::Bank;
use fddevs::part::{External, Mark, Output, Span};
use fddevs::refusal::{Layer, Refusal};
use scheme_file::table_bank::make;
use scheme_file::vetting::vet;
use std::test::Fail;

// Two parts: one of two phases and an input, one of one phase that is due at once.
const TWO_PARTS: [u8; 30] = [
    1, 2, 0, 16, 2, 1, 1, 0, 0, 2, 1, 0, 1, 1, 255, 255, 0, 255, 1, 0, 0, 8, 1, 0, 0, 0, 0, 0, 0,
    255,
];

// The file with another byte at one place.
fn refused(at: usize, byte: u8, refusal: Refusal) -> Result<(), Fail> {
    let mut file = TWO_PARTS;
    if let Some(place) = file.get_mut(at) {
        *place = byte;
    }
    match vet(&file) {
        Err(found) if found == refusal => Ok(()),
        other => Err(Fail::new(format_args!("{other:?} in place of {refusal:?}"))),
    }
}

#[test]
fn a_file_cut_at_any_byte_or_longer_is_not_whole(rt: HostRuntime) -> Result<(), Fail> {
    assert_eq!(rt; vet(&TWO_PARTS), Ok(()));
    for cut in 0..TWO_PARTS.len() {
        assert_eq!(rt;
            vet(&TWO_PARTS[..cut]),
            Err(Refusal::NotWhole(Layer::Scheme))
        );
    }
    let mut longer = TWO_PARTS.to_vec(rt.alloc())?;
    longer.push(0)?;
    assert_eq!(rt; vet(&longer), Err(Refusal::NotWhole(Layer::Scheme)));
    Ok(())
}

#[test]
fn heads_and_counts_are_refused_at_their_place(rt: HostRuntime) -> Result<(), Fail> {
    for (at, byte, refusal) in [
        (0, 2, Refusal::Version(Layer::Scheme)),
        (5, 2, Refusal::SectionLength(0)),
        (23, 1, Refusal::SectionLength(1)),
        (6, 17, Refusal::SectionCounts(0)),
        (24, 17, Refusal::SectionCounts(1)),
    ] {
        refused(at, byte, refusal)?;
    }
    assert_eq!(rt; vet(&[1, 0]), Err(Refusal::PartCount));
    assert_eq!(rt;
        vet(&[1, 1, 0, 4, 0, 0, 0, 0]),
        Err(Refusal::SectionCounts(0))
    );
    assert_eq!(rt;
        vet(&[0, 1, 0, 4, 0, 0, 0, 0]),
        Err(Refusal::Version(Layer::Scheme))
    );
    Ok(())
}

#[test]
fn names_of_nothing_are_refused_at_their_section() -> Result<(), Fail> {
    for (at, byte) in [
        (7, 2),
        (10, 2),
        (11, 1),
        (12, 2),
        (13, 2),
        (16, 2),
        (18, 2),
        (19, 2),
    ] {
        refused(at, byte, Refusal::SectionNames(0))?;
    }
    for (at, byte) in [(25, 1), (28, 1), (29, 0)] {
        refused(at, byte, Refusal::SectionNames(1))?;
    }
    Ok(())
}

#[test]
fn a_table_bank_answers_from_its_file(rt: HostRuntime) -> Result<(), Fail> {
    let bank = make(rt.alloc(), &TWO_PARTS)?;
    assert_eq!(rt; bank.part_count(), 2);
    assert_eq!(rt; bank.lifespan(0, 0), Some(Span::Ticks(2)));
    assert_eq!(rt; bank.lifespan(0, 1), Some(Span::Unlimited));
    assert_eq!(rt; bank.next(0, 0), Some(1));
    assert_eq!(rt; bank.output(0, 0), Some(Output::Sends(0)));
    assert_eq!(rt; bank.output(1, 0), Some(Output::Silent));
    assert_eq!(rt;
        bank.external(0, 0, 0),
        Some(External {
            next: 1,
            mark: Mark::Restart,
        })
    );
    assert_eq!(rt;
        bank.external(0, 1, 0),
        Some(External {
            next: 1,
            mark: Mark::Keep,
        })
    );
    assert_eq!(rt; bank.external(0, 0, 1), None);
    assert_eq!(rt; bank.lifespan(1, 1), None);
    assert_eq!(rt; bank.start(2), None);
    Ok(())
}

#[test]
fn a_refused_file_makes_the_idle_bank(rt: HostRuntime) -> Result<(), Fail> {
    let bank = make(rt.alloc(), &[1])?;
    assert_eq!(rt; bank.part_count(), 1);
    assert_eq!(rt; bank.lifespan(0, 0), Some(Span::Unlimited));
    assert_eq!(rt; bank.lifespan(0, 1), None);
    assert_eq!(rt; bank.external(0, 0, 0), None);
    Ok(())
}
