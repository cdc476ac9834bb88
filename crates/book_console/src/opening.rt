// Opening a book, and the text that answers it.
ghost use Rattle.std.specs.Prelude.{◌≡◌, ◌++◌, Some};
ghost use Rattle.std.specs.Result.{result_map_both};
ghost use Rattle.book.specs.Model.{model, fresh};
ghost use Rattle.book.specs.Opening.{opening, check_value};
ghost use Rattle.book_console.specs.Bases.{basis_called};
ghost use Rattle.book_console.specs.Lines.{fault_line, opening_line, check_line};

use basis::Commitment;
use book::{Book, Layer, OpenFault};
use commands::BasisName;
use std::fmt;

// The basis that a name stands for. No `From`: the name's crate knows no basis, and the basis' crate no names.
fn basis_called(name: BasisName) -> Commitment
    ensures { result ≡ basis_called name }
{
    match name {
        BasisName::Commitment => Commitment,
    }
}

// The book that an image opens on a basis, or why it opens none.
pub(crate) fn opened_book(name: BasisName, image: &[u8]) -> Result<Book<Commitment>, OpenFault>
    ensures { result_map_both model (λ fault. fault) result ≡ result_map_both (fresh (basis_called name)) (λ fault. fault) (opening image.now) }
{
    let basis = basis_called(name);
    let mut book = Book::new(basis);
    book.open(basis, image)?;
    Ok(book)
}

// The line of a refused opening.
#[derive(Clone, Copy)]
struct Refused(OpenFault);

impl fmt::Display for Refused {
    ghost output = { λ line. Some (fault_line line.0) };

    fn fmt<W: fmt::Write>(&self, f: &mut fmt::Formatter<W>) -> fmt::Result {
        let fault = self.0;
        let layer = match fault.layer() {
            Layer::Image => "image",
            Layer::Roll => "roll",
            Layer::Book => "book",
        };
        writeln!(
            f,
            "refused {} place {} layer {layer}",
            fault.number(),
            fault.place()
        )
    }
}

// What is said of an opening from an image: whether a book was opened, or why not; then what the check answers for the
// same bytes.
#[derive(Clone, Copy)]
pub(crate) struct Opening<'a> {
    pub(crate) outcome: &'a Result<Book<Commitment>, OpenFault>,
    pub(crate) image: &'a [u8],
}

impl fmt::Display for Opening<'_> {
    ghost output = { λ said. Some (opening_line said.outcome.now ++ check_line (check_value (opening said.image.now))) };

    fn fmt<W: fmt::Write>(&self, f: &mut fmt::Formatter<W>) -> fmt::Result {
        match self.outcome {
            Ok(_) => writeln!(f, "open ok")?,
            Err(fault) => write!(f, "{}", Refused(*fault))?,
        }
        writeln!(f, "check {}", book::allocation_book_check(self.image))
    }
}
