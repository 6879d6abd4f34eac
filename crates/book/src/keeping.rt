ghost use Rattle.std.specs.Prelude.{◌≡◌, ◌+◌, ◌<◌, ◌≤◌, ◌++◌, length, take, drop, MatchResult};
ghost use Rattle.std.specs.List.{insert};
ghost use Rattle.book.specs.Order.{Kept, Kept-prop};
ghost use Rattle.book.specs.Place.{place};
ghost use Rattle.book.specs.Putting.{Puts, PutsRight};

use crate::record::Record;
use fddevs::refusal::Refusal;
use std::cmp::Ordering;

// A list of the caller's, whose first `count` entries are the records kept: by a rule of the project, a book keeps them in
// a list that it is given.
#[derive(Drop)]
pub struct Book<'a, T: Record> {
    list: &'a mut [T],
    count: usize,
    ghost kept: { Kept T.order list.now count } by { Kept-prop T.order list.now count },
}

// What became of a record: it was added, or it was there already. A `bool` would not say which is which.
#[derive(Clone, Copy, PartialEq, Eq, Debug)]
pub enum Put {
    Added,
    Present,
}

// Where the record stands among the first `count`, or else where it belongs, by bisection. The loop is written out: it ends
// at a record that is met, and the library's search goes on to the last turn.
fn find<T: Record>(list: &[T], count: usize, item: &T) -> Result<usize, usize>
    requires { count ≤ length list.now }
    ensures place { result ≡ place T.order item.now list.now count }
    ensures bound { MatchResult result (λ i. i < count) (λ i. i ≤ count) }
{
    let mut low = 0;
    let mut high = count;
    while low < high {
        let mid = low + (high - low) / 2;
        match list[mid].compare(item) {
            Ordering::Less => low = mid + 1,
            Ordering::Equal => return Ok(mid),
            Ordering::Greater => high = mid,
        }
    }
    Err(low)
}

// Moves the records from `at` on up by one entry, as one block, and writes the new one at `at`.
fn insert<T: Copy>(list: &mut [T], count: usize, at: usize, item: T)
    requires { (at ≤ count) × (count < length list.old) }
    ensures { list.new ≡ insert (take count list.old) at item ++ drop (count + 1) list.old }
{
    list.copy_within(at..count, at + 1);
    list[at] = item;
}

impl<'a, T: Record> Book<'a, T> {
    // An empty book over a list.
    pub fn new(list: &'a mut [T]) -> Self
        ensures list { result.list.now ≡ list.old }
        ensures count { result.count ≡ 0 }
        ensures kept { Kept T.order result.list.now result.count }
        ensures names { result.list.ghost_name ≡ list.entry.ghost_name }
    {
        Book { list, count: 0 }
    }

    // Where the record stands, or else where it belongs.
    fn place(&self, item: &T) -> Result<usize, usize>
        ensures place { result ≡ place T.order item.now self.now.list.now self.now.count }
        ensures bound { MatchResult result (λ i. i < self.now.count) (λ i. i ≤ self.now.count) }
    {
        let Book { list, count } = self;
        find(list, *count, item)
    }

    // Puts a record in its place, once. A refusal leaves the book as it was.
    pub fn put(&mut self, item: T) -> Result<Put, Refusal>
        ensures puts { Puts T.order item self.old.list.now self.old.count result self.new.list.now self.new.count }
        ensures right { PutsRight T.order item self.old.list.now self.old.count result self.new.list.now self.new.count }
        ensures names { self.new.list.ghost_name ≡ self.old.list.ghost_name }
    {
        let at = match self.place(&item) {
            Ok(_) => return Ok(Put::Present),
            Err(at) => at,
        };
        let Book { list, count } = self;
        if *count == list.len() {
            return Err(Refusal::NoRoom);
        }
        insert(list, *count, at, item);
        *count += 1;
        Ok(Put::Added)
    }

    // How many records are kept.
    pub fn count(&self) -> usize
        ensures { result ≡ self.now.count }
    {
        self.count
    }

    // The list again, and the count of its records.
    pub fn into_parts(self) -> (&'a mut [T], usize)
        ensures list { result.0.now ≡ self.entry.list.now }
        ensures count { result.1 ≡ self.entry.count }
        ensures names { result.0.ghost_name ≡ self.entry.list.ghost_name }
    {
        let Book { list, count } = self;
        (list, count)
    }
}
