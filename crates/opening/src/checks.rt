// The tests of an opening that ask the orders and the store, each over the whole register.
ghost use Rattle.std.specs.Prelude.{◌≡◌, Bool};
ghost use Rattle.std.specs.List.{list_all};
ghost use Rattle.register.specs.Tables.{book_of};
ghost use Rattle.model.specs.Opening.{classed, entry_classed, certificate_classed, all_classed, in_range, floored, same_sizes};
ghost use Rattle.model.specs.Orders.{order};
ghost use Rattle.register.specs.declared.certificate.Certificate.{Certificate};

use access::Orders;
use orders::order::Order;
use register::certificate::Certificate;
use register::entry::Entry;
use register::label::Label;
use register::tables::Register;
use stores::store::Store;

// Whether the mark is a class of the marks, and the grade one of the grades.
fn is_classed<M: Order, G: Order>(orders: &Orders<M, G>, label: Label) -> bool
    ensures { result ≡ classed (order M.Order orders.now.marks) (order G.Order orders.now.grades) label }
{
    orders.marks.is_class(label.mark) && orders.grades.is_class(label.grade)
}

// Whether the label of each sheet has classes.
fn are_entries_classed<M: Order, G: Order>(orders: &Orders<M, G>, entries: &[Entry]) -> bool
    ensures { result ≡ list_all (entry_classed (order M.Order orders.now.marks) (order G.Order orders.now.grades)) entries.now }
{
    entries.iter().all(|e| is_classed(orders, e.label))
}

// Whether each certificate passes a test. A rule of the project wants a `for` here (docs/DECISIONS.md, Named forms).
fn all_pass<F: Fn(Certificate) -> bool>(certificates: &[Certificate], test: F) -> bool
    requires { F.IsAlwaysCallable test }
    ensures { (passes : Certificate → Bool) → ((c : Certificate) (b : Bool) → F.post test c b → b ≡ passes c) → result ≡ list_all passes certificates.now }
{
    for c in certificates {
        if !test(*c) {
            return false;
        }
    }
    true
}

// Whether both labels of each certificate have classes.
fn are_certificates_classed<M: Order, G: Order>(
    orders: &Orders<M, G>,
    certificates: &[Certificate],
) -> bool
    ensures { result ≡ list_all (certificate_classed (order M.Order orders.now.marks) (order G.Order orders.now.grades)) certificates.now }
{
    all_pass(certificates, |c| {
        is_classed(orders, c.reading) && is_classed(orders, c.writing)
    })
}

// Whether every mark, every grade and the floor is a class of its order.
pub fn are_all_classed<M: Order, G: Order>(
    orders: &Orders<M, G>,
    register: &Register,
    floor: u64,
) -> bool
    ensures { result ≡ all_classed (order M.Order orders.now.marks) (order G.Order orders.now.grades) (book_of register.now) floor }
{
    are_entries_classed(orders, register.entries())
        && are_certificates_classed(orders, register.certificates())
        && orders.grades.is_class(floor)
}

// Whether each certificate writes at or below its reading mark, and at or above its reading grade.
pub fn are_in_range<M: Order, G: Order>(orders: &Orders<M, G>, certificates: &[Certificate]) -> bool
    ensures { result ≡ list_all (in_range (order M.Order orders.now.marks) (order G.Order orders.now.grades)) certificates.now }
{
    all_pass(certificates, |c| {
        orders.marks.at_or_below(c.writing.mark, c.reading.mark)
            && orders.grades.at_or_below(c.reading.grade, c.writing.grade)
    })
}

// Whether each certificate that is ranged in marks writes at or above the floor.
pub fn are_floored<M: Order, G: Order>(
    orders: &Orders<M, G>,
    certificates: &[Certificate],
    floor: u64,
) -> bool
    ensures { result ≡ list_all (floored (order M.Order orders.now.marks) (order G.Order orders.now.grades) floor) certificates.now }
{
    all_pass(certificates, |c| {
        orders.marks.at_or_below(c.reading.mark, c.writing.mark)
            || orders.grades.at_or_below(floor, c.writing.grade)
    })
}

// Whether the store has these sheets, in their sizes.
pub fn sizes_agree<S: Store>(store: &S, entries: &[Entry]) -> bool
    ensures { result ≡ same_sizes (S.Store.sheets store.now) entries.now }
{
    let count = store.count();
    usize::from(count) == entries.len()
        && (0..count)
            .zip(entries)
            .all(|(k, e)| store.size(k) == e.size)
}
