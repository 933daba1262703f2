// A source of rows: how many, and each by its number from 1.
ghost use Rattle.std.specs.Prelude.{◌≡◌, ◌≤◌, List, length};
ghost use Rattle.requests.specs.declared.row.Row.{Row};
ghost use Rattle.archive.specs.Opened.{row_numbered, row_given};

use keys::Refusal;
use requests::Row;

pub trait Rows<K, T> {
    // Whether these are the source's rows.
    ghost has: { Self → List (Row K T) → Type 0 };

    fn count(&self) -> usize
        ensures few { result ≤ 1024 }
        ensures all { (rows : List (Row K T)) → has self.now rows → result ≡ length rows };

    fn row(&self, number: usize) -> Result<Row<K, T>, Refusal>
        ensures { (rows : List (Row K T)) → has self.now rows → result ≡ row_given (row_numbered rows number) };
}
