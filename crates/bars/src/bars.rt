ghost use Rattle.std.specs.Prelude.{◌≡◌, length};

use crate::bar::Bar;

pub mod table;

// Room for sixteen bars: by rules of the project, bars lie in plain tables, and how many of them stand is kept with the
// verdict in a record of its own.
#[derive(Drop)]
pub struct Bars {
    table: [Bar; 16],
    ghost whole: { length table ≡ 16 },
}
