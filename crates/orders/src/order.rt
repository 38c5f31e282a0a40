// What an order is: which codes are classes, and which class is at or below which.
ghost use Rattle.std.specs.Prelude.{◌≡◌, ℕ, Bool};
ghost use Rattle.orders.specs.Laws.{Ordered};

// An order of marks or of grades. Asking it changes nothing.
pub trait Order {
    // Whether a code is a class.
    ghost class: { Self → ℕ → Bool };

    // Whether the first code is at or below the second.
    ghost below: { Self → ℕ → ℕ → Bool };

    fn is_class(&self, code: u64) -> bool
        ensures { result ≡ class self.now code };

    fn at_or_below(&self, a: u64, b: u64) -> bool
        ensures { result ≡ below self.now a b };

    // Only classes stand in the relation, every class is at or below itself, and the relation is transitive.
    ghost ordered: { (o : Self) → Ordered (class o) (below o) };
}
