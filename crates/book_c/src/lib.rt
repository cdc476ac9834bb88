// The book's check of an image, for the margin system, which is written in C.
#![tactic(auto)]

ghost use Rattle.std.specs.Prelude.{◌≡◌};
ghost use Rattle.book.specs.Opening.{opening, check_value, Tells};

// What the book's own check answers: the refusal that opening from these bytes would give, as 10,000 × its number + its
// place, or 0.
#[unsafe(no_mangle)]
pub extern "C" fn allocation_book_check(image: &[u8]) -> u32
    ensures tells_what_opening_would_answer { result ≡ check_value (opening image.now) }
    ensures number_and_place_can_be_read_off { Tells result (opening image.now) }
{
    book::allocation_book_check(image)
}
