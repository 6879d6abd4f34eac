use fddevs::part::PartMove;
use session::command::{Command, Malformed, Source};
use session::numeral::{decimal_number, hex_byte};
use session::parse::parse;
use std::alloc::Global;
use std::test::Fail;
use timers::setting::Setting;

fn malformed(heap: Global, line: &str, what: Malformed) -> Result<(), Fail> {
    match parse(heap, line) {
        Ok(_) => Err(Fail::new("a malformed line was read")),
        Err(found) if found == what => Ok(()),
        Err(found) => Err(Fail::new(format_args!("{found:?} in place of {what:?}"))),
    }
}

#[test]
fn numbers_are_read(rt: HostRuntime) {
    assert_eq!(rt; decimal_number(b"65534"), Some(65_534));
    assert_eq!(rt; decimal_number(b"18446744073709551615"), Some(u64::MAX));
    assert_eq!(rt; decimal_number(b"18446744073709551616"), None);
    assert_eq!(rt; decimal_number(b""), None);
    assert_eq!(rt; decimal_number(b"+5"), None);
    assert_eq!(rt; hex_byte(b"Ff"), Some(255));
    assert_eq!(rt; hex_byte(b"0g"), None);
    assert_eq!(rt; hex_byte(b"F"), None);
}

#[test]
fn bank_lines_are_read(rt: HostRuntime) -> Result<(), Fail> {
    match parse(rt.alloc(), "timers 20/5 70000/0")? {
        Some(Command::Timers(list)) => {
            assert!(rt; list.len() == 2);
            assert_eq!(rt;
                list[1],
                Setting {
                    operate: 70_000,
                    hold: 0,
                }
            );
        }
        _ => return Err(Fail::new("no timers")),
    }
    match parse(rt.alloc(), "scheme hex 01 fF")? {
        Some(Command::Scheme(Source::Bytes(bytes))) => {
            assert!(rt; bytes.len() == 2);
            assert_eq!(rt; bytes[1], 255);
            Ok(())
        }
        _ => Err(Fail::new("no bytes")),
    }
}

#[test]
fn moves_are_read(rt: HostRuntime) -> Result<(), Fail> {
    match parse(rt.alloc(), "follow 3: input 1, delay 20,inner")? {
        Some(Command::Follow(part, moves)) => {
            assert_eq!(rt; part, 3);
            assert!(rt; moves.len() == 3);
            assert_eq!(rt; moves[0], PartMove::Input(1));
            assert_eq!(rt; moves[1], PartMove::Delay(20));
            assert_eq!(rt; moves[2], PartMove::Internal);
            Ok(())
        }
        _ => Err(Fail::new("no moves")),
    }
}

#[test]
fn malformed_lines_say_what_was_expected(rt: HostRuntime) -> Result<(), Fail> {
    for (line, what) in [
        ("bank 1", Malformed::Command),
        ("sheet all", Malformed::NothingMore),
        ("timers 20", Malformed::Setting),
        ("timers 20/-5", Malformed::Setting),
        ("scheme", Malformed::Source),
        ("scheme hex 1 02", Malformed::HexPair),
        ("rows hex 01", Malformed::PartCount),
        ("bar 0:1 2", Malformed::Condition),
        ("verdict now", Malformed::NothingMore),
        ("follow inner", Malformed::Part),
        ("follow 256: inner", Malformed::Part),
        ("follow 0: input", Malformed::Move),
        ("follow 0: inner, ", Malformed::Move),
    ] {
        malformed(rt.alloc(), line, what)?;
    }
    Ok(())
}

#[test]
fn empty_lines_and_comments_are_passed_over(rt: HostRuntime) -> Result<(), Fail> {
    assert!(rt; parse(rt.alloc(), "  ")?.is_none());
    assert!(rt; parse(rt.alloc(), "# sheet")?.is_none());
    Ok(())
}
