ghost use Rattle.std.specs.Prelude.{◌≡◌};
ghost use Rattle.std.specs.declared.cmp.Ordering.{Ordering as Rank};
ghost use Rattle.book.specs.Order.{TotalOrder};

use std::cmp::Ordering;

// What a book can keep: values in a total order that tells any two of them apart. The order is the record's own and not
// its `Ord`, so that a type may have none, or another. A book is proved against the order alone.
pub trait Record: Copy {
    ghost order: { Self → Self → Rank };

    // Whether this record stands below, at or above the other.
    fn compare(&self, other: &Self) -> Ordering
        ensures { result ≡ order self.now other.now };

    ghost total: { TotalOrder order };
}
