// The lines of a session that ask something of its bank or of the examination. Some calls change the examination, some read
// it and some take its bank alone, so it is given to each beside the line.
use crate::failure::Failure;
use crate::line::{Line, Session};
use bank::interface::Bank;
use book::row::Row;
use examination::examination::Examination;
use fddevs::part::PartMove;
use reason_text::offers::{accepted, refused};
use report::rows::rows_text;
use report::sheet::sheet;
use report::show::{Reads, show};
use report::trace::follow_part;
use report::words::Refused;
use rewriting::again::write_again;
use rewriting::records::records;
use session::command::{Command, Malformed, Source};
use set_file::reader::SetReader;

fn print_sheet<B: Bank>(line: Line, bank: &B) -> Result<(), Failure> {
    let number = line.number;
    let count = bank.part_count();
    let text = sheet(line.rt.alloc(), bank)?;
    print!(line.rt; "{number} sheet: parts {count}\n{text}")?;
    Ok(())
}

fn print_follow<B: Bank>(
    line: Line,
    bank: &B,
    part: u8,
    moves: &[PartMove],
) -> Result<(), Failure> {
    let number = line.number;
    let Some(followed) = follow_part(line.rt.alloc(), bank, part, moves)? else {
        println!(line.rt; "{number} follow: no part {part}")?;
        return Ok(());
    };
    match followed.stuck {
        None => println!(line.rt; "{number} follow: ok")?,
        Some(k) => println!(line.rt; "{number} follow: not allowed {k}")?,
    }
    let text = followed.text;
    print!(line.rt; "{text}")?;
    Ok(())
}

// Prints the rows of a set file, keeps them in a book, and writes the set of the book again.
fn print_rows(line: Line, n: u8, source: Source) -> Result<(), Failure> {
    let heap = line.rt.alloc();
    let number = line.number;
    let file = line.bytes(source)?;
    let set = match SetReader::read(n, &file) {
        Ok(set) => set,
        Err(refusal) => return line.print_vetted("rows", Err(refusal)),
    };
    let rows = records(heap, &set)?;
    let count = rows.len();
    let text = rows_text(heap, &set)?;
    print!(line.rt; "{number} rows: read {count}\n{text}")?;
    let mut list = vec![in heap; Row::ZERO; count]?;
    let mut out = vec![in heap; 0u8; file.len()]?;
    match write_again(n, &rows, &mut list, &mut out) {
        Ok(size) if out == file => println!(line.rt;
            "  written again from a book: {size} bytes, the same"
        )?,
        Ok(size) => println!(line.rt; "  written again from a book: {size} bytes, others")?,
        Err(refusal) => println!(line.rt; "  not written again: {}", Refused(refusal))?,
    }
    Ok(())
}

fn wire<B: Bank>(line: Line, x: &mut Examination<B>, source: Source) -> Result<(), Failure> {
    let file = line.bytes(source)?;
    line.print_vetted("wire", x.wire(&file))
}

// Prints whether a proof file is accepted, and what it shows or what the refusal rests on.
fn offer<B: Bank>(line: Line, x: &mut Examination<B>, source: Source) -> Result<(), Failure> {
    let heap = line.rt.alloc();
    let number = line.number;
    let file = line.bytes(source)?;
    let text = match x.offer(&file) {
        Ok(shown) => {
            println!(line.rt; "{number} offer: accepted")?;
            accepted(heap, x, &file, shown)?
        }
        Err(refusal) => {
            line.print_vetted("offer", Err(refusal))?;
            refused(heap, x, &file, refusal)?
        }
    };
    print!(line.rt; "{text}")?;
    Ok(())
}

fn print_verdict<B: Bank>(line: Line, x: &Examination<B>) -> Result<(), Failure> {
    println!(line.rt; "{} verdict: {}", line.number, Reads(x.verdict()))?;
    Ok(())
}

fn print_show<B: Bank>(line: Line, x: &Examination<B>) -> Result<(), Failure> {
    let number = line.number;
    let wires = x.wiring().wires().len();
    let bars = x.bar_count();
    let text = show(line.rt.alloc(), x)?;
    print!(line.rt; "{number} show: wires {wires} bars {bars}\n{text}")?;
    Ok(())
}

fn run_call<B: Bank>(line: Line, x: &mut Examination<B>, command: Command) -> Result<(), Failure> {
    match command {
        Command::Sheet => print_sheet(line, x.bank()),
        Command::Follow(part, moves) => print_follow(line, x.bank(), part, &moves),
        Command::Rows(n, source) => print_rows(line, n, source),
        Command::Wire(source) => wire(line, x, source),
        Command::Offer(source) => offer(line, x, source),
        Command::Bar(conditions) => line.print_vetted("bar", x.bar(&conditions)),
        Command::Verdict => print_verdict(line, x),
        Command::Show => print_show(line, x),
        Command::Timers(_) | Command::Scheme(_) => line.malformed(Malformed::BankFirst),
    }
}

// Runs the lines of a session behind the first `passed`, on an examination of the bank.
pub fn run_calls<B: Bank>(session: Session, bank: B, passed: usize) -> Result<(), Failure> {
    let mut x = Examination::new(bank);
    for (k, content) in session.text.lines().enumerate().skip(passed) {
        let line = session.line(k);
        if let Some(command) = line.command(content)? {
            run_call(line, &mut x, command)?;
        }
    }
    Ok(())
}
