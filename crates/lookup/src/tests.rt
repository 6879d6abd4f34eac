use crate::finding::find;
use crate::rows::Rows;
use book::row::Row;

// A record of one part.
fn record(phase: u8, remaining: u8) -> Row {
    let mut bytes = [0; 48];
    bytes[0] = phase;
    bytes[2] = remaining;
    Row { bytes }
}

// Where one of them stands among the rows of a body. What follows promises nothing, so that a test is quickly proved.
fn found(parts: u8, body: &[u8], phase: u8, remaining: u8, hint: usize) -> Option<usize> {
    find(&Rows::new(parts, body), &record(phase, remaining), hint)
}

// Whether every row of one part in a body is found from every row as the hint.
fn each_is_found(body: &[u8]) -> bool {
    let rows = Rows::new(1, body);
    for k in 0..rows.count() {
        let mut row = record(255, 255);
        rows.load(k, &mut row);
        for hint in 0..rows.count() {
            if find(&rows, &row, hint) != Some(k) {
                return false;
            }
        }
    }
    true
}

// Eight rows of one part: the phases 0 to 7.
fn phases() -> [u8; 24] {
    let mut body = [0; 24];
    for phase in 0..8u8 {
        body[3 * usize::from(phase)] = phase;
    }
    body
}

#[test]
fn rows_are_found_from_any_hint(rt: HostRuntime) {
    let body = phases();
    assert!(rt; each_is_found(&body));
    assert_eq!(rt; found(1, &body, 7, 0, 9), Some(7));
    assert_eq!(rt; found(1, &body, 0, 0, 8), Some(0));
    assert_eq!(rt; found(1, &body, 3, 1, 0), None);
    assert_eq!(rt; found(1, &body, 8, 0, 3), None);
    assert_eq!(rt; found(0, &body, 0, 0, 0), None);
    assert_eq!(rt; found(17, &body, 0, 0, 0), None);
}

fn climbs(rows: &Rows, k: usize) -> bool {
    rows.climbs(k)
}

fn is_row(rows: &Rows, k: usize, bytes: &[u8]) -> bool {
    rows.row(k) == Some(bytes)
}

#[test]
fn rows_are_read_by_their_number(rt: HostRuntime) {
    let body = [0, 0, 1, 0, 0, 7, 0, 0, 1, 0, 0, 7, 0, 1, 0, 0, 0, 0, 5];
    let rows = Rows::new(2, &body);
    assert_eq!(rt; rows.count(), 3);
    assert!(rt; is_row(&rows, 2, &[0, 1, 0, 0, 0, 0]));
    assert!(rt; !is_row(&rows, 3, &[5]));
    assert!(rt; !climbs(&rows, 0));
    assert!(rt; !climbs(&rows, 1));
    assert!(rt; climbs(&rows, 2));
    assert!(rt; !climbs(&rows, 3));
}
