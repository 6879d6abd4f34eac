use bank::interface::Bank;
use bank::pair;
use bank::pair::Pair;
use fddevs::part::{External, Mark, Span};
use fddevs::refusal::Refusal;
use std::test::Fail;
use timers::setting::Setting;
use timers::timer_bank::make;
use timers::vetting::vet;

fn of(operate: u64, hold: u64) -> Setting {
    Setting { operate, hold }
}

#[test]
fn settings_are_refused_at_their_timer(rt: HostRuntime) {
    assert_eq!(rt; vet(&[of(0, 65_534)]), Ok(()));
    assert_eq!(rt; vet(&[of(1, 1), of(65_535, 0)]), Err(Refusal::TimerTime(1)));
    assert_eq!(rt;
        vet(&[of(1, 1), of(0, 4_294_967_296), of(65_535, 0)]),
        Err(Refusal::TimerTime(1))
    );
    assert_eq!(rt; vet(&[of(65_535, 0); 17]), Err(Refusal::TimerCount));
    assert_eq!(rt; vet(&[of(1, 1); 16]), Ok(()));
    assert_eq!(rt; vet(&[]), Err(Refusal::TimerCount));
}

#[test]
fn a_pair_numbers_the_second_bank_behind_the_first(rt: HostRuntime) -> Result<(), Fail> {
    let first = make(rt.alloc(), &[of(20, 5), of(35, 6)])?;
    let second = make(rt.alloc(), &[of(7, 8)])?;
    assert_eq!(rt; pair::vet(&first, &second), Ok(()));
    let both = Pair::new(first, second);
    assert_eq!(rt; both.part_count(), 3);
    assert_eq!(rt; both.lifespan(1, 3), Some(Span::Ticks(6)));
    assert_eq!(rt; both.lifespan(2, 1), Some(Span::Ticks(7)));
    assert_eq!(rt;
        both.external(2, 3, 0),
        Some(External {
            next: 2,
            mark: Mark::Restart,
        })
    );
    assert_eq!(rt; both.start(3), None);
    Ok(())
}

#[test]
fn a_pair_over_sixteen_parts_is_its_first_bank(rt: HostRuntime) -> Result<(), Fail> {
    let first = make(rt.alloc(), &[of(20, 5); 9])?;
    let second = make(rt.alloc(), &[of(7, 8); 8])?;
    assert_eq!(rt; pair::vet(&first, &second), Err(Refusal::PairCount));
    let both = Pair::new(first, second);
    assert_eq!(rt; both.part_count(), 9);
    assert_eq!(rt; both.start(9), None);
    Ok(())
}
