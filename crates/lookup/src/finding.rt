// The place of a record among the rows, by ever larger steps from a hint and then by bisection. The loops are written out:
// the rows are no slice that the library could search, and up and down differ in direction, bound and probe.
ghost use Rattle.std.specs.Prelude.{◌≡◌, ◌<◌, ◌≤◌};
ghost use Rattle.book.specs.Records.{byte_order};
ghost use Rattle.set_file.specs.Layout.{front, stretch};
ghost use Rattle.lookup.specs.Searching.{IsNarrowed, IsFound};

use book::bytes::compare;
use book::row::Row;
use set_file::rows::Rows;
use std::cmp::Ordering;

// A record that is sought among rows by its first bytes. Whichever way it is sought, the answer is what `IsFound` says.
#[derive(Clone, Copy)]
struct Search<'a> {
    rows: Rows<'a>,
    row: &'a Row,
}

impl Search<'_> {
    // How row k stands to the record's first bytes.
    fn compare_at(self, k: usize) -> Ordering
        requires { k < self.rows.count }
        ensures { result ≡ byte_order (stretch self.entry.rows.width self.entry.rows.body.now k) (front self.entry.rows.width self.entry.row.now) }
    {
        match self.rows.row(k) {
            Some(bytes) => compare(bytes, &self.row.bytes[..bytes.len()]),
            None => unreachable!(),
        }
    }

    // The record among the rows from `from` up to `to`.
    fn bisect(self, from: usize, to: usize) -> Option<usize>
        requires ordered { from ≤ to }
        requires within { to ≤ self.rows.count }
        requires narrowed { IsNarrowed self.rows self.row.now from to }
        ensures { IsFound self.entry.rows self.entry.row.now result }
    {
        let mut low = from;
        let mut high = to;
        while low < high {
            let mid = low + (high - low) / 2;
            match self.compare_at(mid) {
                Ordering::Less => low = mid + 1,
                Ordering::Equal => return Some(mid),
                Ordering::Greater => high = mid,
            }
        }
        None
    }

    // The record among the rows from `from` on.
    fn upward(self, from: usize) -> Option<usize>
        requires within { from ≤ self.rows.count }
        requires narrowed { IsNarrowed self.rows self.row.now from self.rows.count }
        ensures { IsFound self.entry.rows self.entry.row.now result }
    {
        let count = self.rows.count();
        let mut low = from;
        let mut step = 1usize;
        while count - low > step {
            let probe = low + step - 1;
            match self.compare_at(probe) {
                Ordering::Less => low = probe + 1,
                Ordering::Equal => return Some(probe),
                Ordering::Greater => return self.bisect(low, probe),
            }
            step *= 2;
        }
        self.bisect(low, count)
    }

    // The record among the rows below `to`.
    fn downward(self, to: usize) -> Option<usize>
        requires within { to ≤ self.rows.count }
        requires narrowed { IsNarrowed self.rows self.row.now 0 to }
        ensures { IsFound self.entry.rows self.entry.row.now result }
    {
        let mut high = to;
        let mut step = 1usize;
        while high > step {
            let probe = high - step;
            match self.compare_at(probe) {
                Ordering::Less => return self.bisect(probe + 1, high),
                Ordering::Equal => return Some(probe),
                Ordering::Greater => high = probe,
            }
            step *= 2;
        }
        self.bisect(0, high)
    }
}

// The row that the record's first bytes are, or none. The nearer the hint is, the sooner it is found.
pub fn find(rows: &Rows, row: &Row, hint: usize) -> Option<usize>
    ensures { IsFound rows.now row.now result }
{
    let search = Search { rows: *rows, row };
    let count = rows.count();
    if hint >= count {
        return search.downward(count);
    }
    match search.compare_at(hint) {
        Ordering::Less => search.upward(hint + 1),
        Ordering::Equal => Some(hint),
        Ordering::Greater => search.downward(hint),
    }
}
