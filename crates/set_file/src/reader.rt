// Reading a set file: it is vetted once, and then hands out its rows.
ghost use Rattle.std.specs.Prelude.{◌≡◌, length, drop};
ghost use Rattle.std.specs.Option.{option_map};
ghost use Rattle.std.specs.Result.{result_map_both};
ghost use Rattle.std.specs.List.{slice_get};
ghost use Rattle.set_file.specs.Reading.{head_vetting, vetted, read_set};

use crate::layout::{Head, KIND, VERSION, body_fits, some_parts, width};
use crate::rows::Rows;
use fddevs::refusal::{Layer, Refusal};

// A set file that was vetted, as its rows.
#[derive(Clone, Copy)]
pub struct SetReader<'a> {
    pub(crate) rows: Rows<'a>,
}

// The body of a file whose head says what a set of rows of n parts has.
fn body(n: u8, file: &[u8]) -> Result<&[u8], Refusal>
    ensures { result_map_both (λ b. b.now) (λ e. e) result ≡ vetted (head_vetting n file.now) (drop 6 file.now) }
{
    let layer = Layer::BookAndPlayback;
    let Some(head) = Head::read(file) else {
        return Err(Refusal::NotWhole(layer));
    };
    if head.version != VERSION {
        return Err(Refusal::Version(layer));
    }
    if !some_parts(n) {
        return Err(Refusal::RowParts);
    }
    if head.kind != KIND {
        return Err(Refusal::Kind(layer));
    }
    let length = head.body.len();
    if !body_fits(length) || length % width(n) != 0 {
        return Err(Refusal::Body(layer));
    }
    Ok(head.body)
}

impl<'a> SetReader<'a> {
    ghost use Rattle.set_file.specs.Held.{held, held_by};

    // Vets a set file of rows of n parts.
    pub fn read(n: u8, file: &'a [u8]) -> Result<Self, Refusal>
        ensures { held_by result ≡ read_set n file.now }
    {
        let rows = Rows::new(n, body(n, file)?);
        if let Some(k) = rows.first_fall() {
            return Err(Refusal::RowOrder(Layer::BookAndPlayback, k));
        }
        Ok(SetReader { rows })
    }

    // How many rows there are.
    pub fn count(&self) -> usize
        ensures { result ≡ length (held self.now) }
    {
        self.rows.count()
    }

    // Row k as bytes, or none where there is no such row.
    pub fn row(&self, k: usize) -> Option<&'a [u8]>
        ensures { option_map (λ x. x.now) result ≡ slice_get (held self.now) k }
    {
        self.rows.row(k)
    }
}
