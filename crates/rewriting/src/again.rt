// Records kept in a book, and the set of the book written.
ghost use Rattle.std.specs.Prelude.{◌≡◌, reverse, length};
ghost use Rattle.rewriting.specs.Again.{kept_in, keep_all, written_again, left_again, ReadAgain};

use book::keeping::Book;
use book::row::Row;
use fddevs::refusal::Refusal;
use set_file::writing::write;

// Puts the records into a book, the last first, up to one that is refused.
fn keep_all(records: &[Row], book: &mut Book<Row>) -> Result<(), Refusal>
    ensures { kept_in result book.new.list.now book.new.count ≡ keep_all (reverse records.now) book.old.list.now book.old.count }
{
    for record in records.iter().rev() {
        book.put(*record)?;
    }
    Ok(())
}

// Keeps the records in a book over the list, the last first, and writes the set of the book into the output.
pub fn write_again(
    n: u8,
    records: &[Row],
    list: &mut [Row],
    out: &mut [u8],
) -> Result<usize, Refusal>
    ensures answer { result ≡ written_again n (keep_all (reverse records.now) list.old 0) (length out.old) }
    ensures after { out.new ≡ left_again n (keep_all (reverse records.now) list.old 0) out.old }
    ensures again { ReadAgain n (keep_all (reverse records.now) list.old 0) result out.new }
{
    let mut book = Book::new(list);
    keep_all(records, &mut book)?;
    let (rows, count) = book.into_parts();
    write(n, rows, count, out)
}
