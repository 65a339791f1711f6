// What is true of every book. The function answers nothing: its contract is the theorem.
ghost use Rattle.book.specs.Decoded.{DecodedIsBounded};

// What an accepted book holds keeps the bounds of a plan.
pub fn decoded_is_bounded()
    ensures { DecodedIsBounded }
{}
