ghost use Rattle.std.specs.Prelude.{◌≡◌, ◌≤◌, length};
ghost use Rattle.bars.specs.Bars.{same_bar};
ghost use Rattle.bars.specs.Meaning.{conditions_of};

use crate::bar::Bar;
use crate::condition::{Condition, NO_CONDITION};

impl Bar {
    pub(crate) fn of(conditions: &[Condition]) -> Bar
        requires { length conditions.now ≤ 4 }
        ensures { conditions_of result ≡ conditions.now }
    {
        let mut table = [NO_CONDITION; 4];
        table[..conditions.len()].copy_from_slice(conditions);
        Bar {
            table,
            count: conditions.len(),
        }
    }

    pub fn conditions(&self) -> &[Condition]
        ensures { result.now ≡ conditions_of self.now }
    {
        &self.table[..self.count]
    }

    pub(crate) fn has_conditions(&self, conditions: &[Condition]) -> bool
        ensures { result ≡ same_bar (conditions_of self.now) conditions.now }
    {
        self.conditions() == conditions
    }
}
