use crate::reader::SetReader;
use crate::writing::write;
use book::keeping::{Book, Put};
use book::row::Row;
use book::stimulus::Stimulus;
use fddevs::refusal::{Layer, Refusal};
use std::alloc::{AllocError, Global};
use std::test::Fail;

fn stimulus(tick: u32, serial: u32, input: u8) -> Stimulus {
    Stimulus {
        tick,
        serial,
        input,
    }
}

// A row of one part, and of a second where `second` is not 0.
fn row(phase: u8, remaining: u8, second: u8) -> Row {
    let mut bytes = [0; 48];
    bytes[0] = phase;
    bytes[2] = remaining;
    bytes[3] = second;
    Row { bytes }
}

// These promise nothing, so that a test is quickly proved.
fn put(book: &mut Book<Stimulus>, item: Stimulus) -> Result<Put, Refusal> {
    book.put(item)
}

fn put_row(book: &mut Book<Row>, item: Row) -> Result<Put, Refusal> {
    book.put(item)
}

fn written(n: u8, rows: &[Row], count: usize, out: &mut [u8]) -> Result<usize, Refusal> {
    write(n, rows, count, out)
}

fn refused(n: u8, file: &[u8]) -> Option<Refusal> {
    match SetReader::read(n, file) {
        Ok(_) => None,
        Err(refusal) => Some(refusal),
    }
}

#[test]
fn stimuli_are_kept_in_order(rt: HostRuntime) {
    let mut list = [stimulus(0, 0, 0); 3];
    let mut book = Book::new(&mut list);
    assert_eq!(rt; put(&mut book, stimulus(5, 0, 1)), Ok(Put::Added));
    assert_eq!(rt; put(&mut book, stimulus(2, 7, 0)), Ok(Put::Added));
    assert_eq!(rt; put(&mut book, stimulus(5, 0, 1)), Ok(Put::Present));
    assert_eq!(rt; put(&mut book, stimulus(5, 0, 0)), Ok(Put::Added));
    assert_eq!(rt; put(&mut book, stimulus(2, 6, 9)), Err(Refusal::NoRoom));
    assert_eq!(rt; put(&mut book, stimulus(2, 7, 0)), Ok(Put::Present));
    assert_eq!(rt; book.count(), 3);
    assert_eq!(rt; list[0], stimulus(2, 7, 0));
    assert_eq!(rt; list[1], stimulus(5, 0, 0));
    assert_eq!(rt; list[2], stimulus(5, 0, 1));
}

#[test]
fn a_written_set_is_read_back(rt: HostRuntime) -> Result<(), Fail> {
    let mut list = [row(0, 0, 0); 4];
    let mut book = Book::new(&mut list);
    assert_eq!(rt; put_row(&mut book, row(1, 9, 0)), Ok(Put::Added));
    assert_eq!(rt; put_row(&mut book, row(1, 2, 0)), Ok(Put::Added));
    assert_eq!(rt; put_row(&mut book, row(1, 9, 0)), Ok(Put::Present));
    let (list, count) = book.into_parts();
    let mut out = [7; 14];
    assert_eq!(rt; written(1, list, count, &mut out), Ok(12));
    assert!(rt; out == [1, 1, 0, 0, 0, 6, 1, 0, 2, 1, 0, 9, 7, 7]);
    let Ok(set) = SetReader::read(1, &out[0..12]) else {
        return Err(Fail::new("the file was refused"));
    };
    assert!(rt; set.row(0) == Some(&[1, 0, 2]));
    assert!(rt; set.row(1) == Some(&[1, 0, 9]));
    assert!(rt; set.row(2) == None);
    Ok(())
}

#[test]
fn sets_that_are_not_written(rt: HostRuntime) {
    let layer = Layer::BookAndPlayback;
    let two = [row(1, 2, 0), row(1, 2, 5)];
    let mut out = [7; 18];
    assert_eq!(rt; written(0, &two, 2, &mut out), Err(Refusal::RowParts));
    assert_eq!(rt; written(3, &two, 2, &mut out), Err(Refusal::NoRoom));
    assert_eq!(rt; written(2, &two, 0, &mut out), Err(Refusal::Body(layer)));
    assert_eq!(rt; written(1, &two, 2, &mut out), Err(Refusal::RowBytes(1)));
    let equal = [two[0], two[0]];
    assert_eq!(rt;
        written(1, &equal, 9, &mut out),
        Err(Refusal::RowOrder(layer, 1))
    );
    assert!(rt; out == [7; 18]);
    assert_eq!(rt; written(2, &two, 9, &mut out), Ok(18));
}

#[test]
fn damaged_files_are_refused(rt: HostRuntime) {
    let layer = Layer::BookAndPlayback;
    let file = [1, 1, 0, 0, 0, 6, 1, 0, 2, 1, 0, 9];
    assert_eq!(rt; refused(1, &file), None);
    assert_eq!(rt; refused(1, &file[0..5]), Some(Refusal::NotWhole(layer)));
    assert_eq!(rt; refused(1, &file[0..11]), Some(Refusal::NotWhole(layer)));
    assert_eq!(rt; refused(17, &file), Some(Refusal::RowParts));
    assert_eq!(rt; refused(4, &file), Some(Refusal::Body(layer)));
    assert_eq!(rt; refused(1, &[1, 1, 0, 0, 0, 0]), Some(Refusal::Body(layer)));
    assert_eq!(rt;
        refused(1, &[2, 1, 0, 0, 0, 0]),
        Some(Refusal::Version(layer))
    );
    assert_eq!(rt; refused(1, &[1, 2, 0, 0, 0, 0]), Some(Refusal::Kind(layer)));
    let turned = [1, 1, 0, 0, 0, 6, 1, 0, 9, 1, 0, 2];
    assert_eq!(rt; refused(1, &turned), Some(Refusal::RowOrder(layer, 1)));
}

#[test]
fn an_empty_list_has_no_room(rt: HostRuntime) {
    let mut list: [Row; 0] = [];
    let mut book = Book::new(&mut list);
    assert_eq!(rt; put_row(&mut book, row(0, 0, 0)), Err(Refusal::NoRoom));
    assert_eq!(rt; book.count(), 0);
}

#[test]
fn rows_of_sixteen_parts_are_read_back(rt: HostRuntime) -> Result<(), Fail> {
    let last = Row { bytes: [255; 48] };
    let mut out = [7; 102];
    assert_eq!(rt; written(16, &[row(0, 1, 2), last], 2, &mut out), Ok(102));
    let Ok(set) = SetReader::read(16, &out) else {
        return Err(Fail::new("the file was refused"));
    };
    assert!(rt; set.row(1) == Some(&[255; 48]));
    assert!(rt; set.row(2) == None);
    Ok(())
}

// A set file for one part of so many rows, the rows of the numbers from 0.
fn long_file(heap: Global, rows: u32) -> Result<Vec<u8>, AllocError> {
    let mut file = Vec::new(heap);
    let [a, b, c, d] = rows.wrapping_mul(3).to_be_bytes();
    file.extend_from_slice(&[1, 1, a, b, c, d])?;
    for k in 0..rows {
        let [_, high, middle, low] = k.to_be_bytes();
        file.extend_from_slice(&[high, middle, low])?;
    }
    Ok(file)
}

#[test]
fn the_longest_body_is_read_and_one_row_more_is_not(rt: HostRuntime) -> Result<(), Fail> {
    let longest = long_file(rt.alloc(), 1_398_101)?;
    let Ok(set) = SetReader::read(1, &longest) else {
        return Err(Fail::new("the file was refused"));
    };
    assert!(rt; set.row(1_398_100) == Some(&[21, 85, 84]));
    assert!(rt; set.row(1_398_101) == None);
    let longer = long_file(rt.alloc(), 1_398_102)?;
    assert_eq!(rt;
        refused(1, &longer),
        Some(Refusal::Body(Layer::BookAndPlayback))
    );
    Ok(())
}
