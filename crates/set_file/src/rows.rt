// The rows of a body by their number.
ghost use Rattle.std.specs.Prelude.{◌≡◌, ◌-◌, ◌<◌, ◌≤◌, length, nat_lt};
ghost use Rattle.std.specs.Option.{option_map};
ghost use Rattle.fddevs.specs.Machine.{when};
ghost use Rattle.fddevs.specs.Vetting.{seek};
ghost use Rattle.set_file.specs.Reading.{climbs};
ghost use Rattle.set_file.specs.Layout.{stretch, row_count};
ghost use Rattle.set_file.specs.Rows.{loaded, climbs_at};

use crate::layout::{some_parts, width};
use book::row::{Row, below};

// The rows of a set's body, each of `width` bytes, and their number, which each look-up asks. They are lent, not copied.
// There are so few that twice their number is still a `usize`. For a number of parts that no row has, the width is 0 and
// there are none: that is an answer and no error.
#[derive(Clone, Copy)]
pub struct Rows<'a> {
    pub(crate) body: &'a [u8],
    pub(crate) width: usize,
    pub(crate) count: usize,
    ghost narrow: { width ≤ 48 },
    ghost counted: { count ≡ row_count width body.now },
    ghost few: { count ≤ 9223372036854775807 },
}

impl<'a> Rows<'a> {
    ghost use Rattle.set_file.specs.Shape.{shape, shape_of};

    // The rows of a body for 1 to 16 parts. For any other number of parts there are none.
    pub fn new(parts: u8, body: &'a [u8]) -> Self
        ensures { shape result ≡ shape_of parts body.now }
    {
        if !some_parts(parts) {
            return Rows {
                body,
                width: 0,
                count: 0,
            };
        }
        let width = width(parts);
        let count = body.len() / width;
        Rows { body, width, count }
    }

    // How many rows there are.
    pub fn count(&self) -> usize
        ensures { result ≡ self.now.count }
    {
        self.count
    }

    // The bytes of row k.
    fn stretch(&self, k: usize) -> &'a [u8]
        requires { k < self.now.count }
        ensures row { result.now ≡ stretch self.now.width self.now.body.now k }
        ensures long { length result.now ≡ self.now.width }
    {
        let start = k * self.width;
        &self.body[start..start + self.width]
    }

    // The bytes of row k, or none where there is no such row.
    pub fn row(&self, k: usize) -> Option<&'a [u8]>
        ensures { option_map (λ x. x.now) result ≡ when (nat_lt k self.now.count) (stretch self.now.width self.now.body.now k) }
    {
        if k < self.count {
            Some(self.stretch(k))
        } else {
            None
        }
    }

    // Writes row k over the first bytes of a record. Where there is no such row the record stays as it is.
    pub fn load(&self, k: usize, row: &mut Row)
        ensures { row.new.bytes ≡ loaded self.now.width self.now.body.now self.now.count k row.old.bytes }
    {
        if k < self.count {
            row.bytes[..self.width].copy_from_slice(self.stretch(k));
        }
    }

    // Whether there are a row k and a row before it, and row k is above that.
    pub fn climbs(&self, k: usize) -> bool
        ensures { result ≡ climbs_at self.now.width self.now.body.now self.now.count k }
    {
        1 <= k && k < self.count && below(self.stretch(k - 1), self.stretch(k))
    }

    // The first row that is not above the one before it.
    pub fn first_fall(&self) -> Option<usize>
        ensures { result ≡ seek (climbs self.now.width self.now.body.now) 1 (row_count self.now.width self.now.body.now - 1) }
    {
        (1..self.count).find(|&k| !self.climbs(k))
    }
}
