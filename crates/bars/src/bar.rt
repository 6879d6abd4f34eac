ghost use Rattle.std.specs.Prelude.{◌≡◌, ◌≤◌, length};

use crate::condition::Condition;

pub mod compare;

// A bar: a combination of phases that must never be entered, as one to four conditions with ascending parts. They are
// the first `count` of the table; a place of a table of bars that is free has none. By a rule of the project, bars lie
// in plain tables.
#[derive(Clone, Copy)]
pub struct Bar {
    table: [Condition; 4],
    count: usize,
    ghost few: { count ≤ 4 },
    ghost whole: { length table ≡ 4 },
}
