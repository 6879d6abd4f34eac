ghost use Rattle.std.specs.Prelude.{◌≡◌, ◌+◌, ◌<◌, ◌≤◌, min, [], ◌∷◌, ◌++◌, length, replicate};
ghost use Rattle.bars.specs.Meaning.{all_conditions, bars_of};

use crate::bar::Bar;
use crate::bars::Bars;
use crate::condition::Condition;

impl Bars {
    // A table in which no bar stands yet.
    pub fn empty() -> Bars
        ensures { bars_of 16 result ≡ replicate 16 [] }
    {
        Bars {
            table: [Bar::of(&[]); 16],
        }
    }

    // The first `count` bars, all if the count is larger.
    pub fn standing(&self, count: usize) -> &[Bar]
        ensures { all_conditions result.now ≡ bars_of count self.now }
    {
        &self.table[..count.min(16)]
    }

    // Puts a bar after the first `count`, where the table has room for it and it has at most four conditions.
    pub fn put(&mut self, count: usize, conditions: &[Condition])
        ensures put { count < 16 → length conditions.now ≤ 4 → bars_of (count + 1) self.new ≡ bars_of count self.old ++ (conditions.now ∷ []) }
        ensures no_room { 16 ≤ count → self.new ≡ self.old }
        ensures too_many { 4 < length conditions.now → self.new ≡ self.old }
    {
        if count < 16 && conditions.len() <= 4 {
            self.table[count] = Bar::of(conditions);
        }
    }
}
