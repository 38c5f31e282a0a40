// An order that somebody else keeps.
use crate::order::Order;

// A borrowed order means what the order means that it borrows, so that the rules of access may be asked of two orders which their
// owner keeps.
#[derive(Drop)]
pub struct Borrowed<'a, O>(pub &'a O);

impl<O: Order> Order for Borrowed<'_, O> {
    ghost class = { λ o code. O.class o.0.now code };

    ghost below = { λ o a b. O.below o.0.now a b };

    ghost ordered = { λ o. O.ordered o.0.now };

    fn is_class(&self, code: u64) -> bool {
        self.0.is_class(code)
    }

    fn at_or_below(&self, a: u64, b: u64) -> bool {
        self.0.at_or_below(a, b)
    }
}
