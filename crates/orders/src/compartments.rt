// Compartments: a level and sixty categories in one code.
ghost use Rattle.std.specs.Prelude.{◌≡◌};
ghost use Rattle.orders.specs.Compartments.{level, included, is_class, at_or_below};
ghost use Rattle.std.proofs.Common.{rules};
ghost use Rattle.orders.specs.Inclusion.{included_self, included_trans};

use crate::order::Order;

// Bit 63, which is 0 in every class.
const UNUSED: u64 = 1 << 63;

// The level stands from this bit on.
const LEVEL_SHIFT: u32 = 60;

// Bits 0 to 59, one for each category.
const CATEGORIES: u64 = (1 << LEVEL_SHIFT) - 1;

// The order of a level and sixty categories. There is one, so it holds nothing.
#[derive(Clone, Copy)]
pub struct Compartments;

fn level_of(code: u64) -> u64
    ensures { result ≡ level code }
{
    code >> LEVEL_SHIFT
}

// Whether each category of a is also in b.
fn within(a: u64, b: u64) -> bool
    ensures { result ≡ included a b }
{
    a & b & CATEGORIES == a & CATEGORIES
}

impl Order for Compartments {
    ghost class = { λ _ code. is_class code };

    ghost below = { λ _ a b. at_or_below a b };

    ghost ordered = { λ o.
        record {
          classes = Prim.search rules;
          reflexive = λ a class. let self = included_self a in Prim.search rules;
          transitive = λ a b c ab bc. let whole = included_trans a b c in Prim.search rules;
        } };

    fn is_class(&self, code: u64) -> bool {
        code & UNUSED == 0
    }

    fn at_or_below(&self, a: u64, b: u64) -> bool {
        self.is_class(a) && self.is_class(b) && level_of(a) <= level_of(b) && within(a, b)
    }
}
