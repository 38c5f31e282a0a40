// An opening: all its tests in their order, and then what it keeps.
ghost use Rattle.std.specs.Prelude.{◌≡◌, false};
ghost use Rattle.refusals.specs.Refusals.{checked};
ghost use Rattle.register.specs.Tables.{book_of};
ghost use Rattle.model.specs.Opening.{opening};
ghost use Rattle.opening.specs.Admission.{made, admitted};
ghost use Rattle.opening.specs.Tests.{later_tests};
ghost use Rattle.model.specs.Orders.{order};

use crate::opening::Opening;
use crate::{checks, making};
use access::Orders;
use orders::order::Order;
use refusals::refusal::Refusal;
use register::tables::Register;
use register::{numbers, reader};
use stores::store::Store;

// The tests that follow those of the register's form.
fn test<M: Order, G: Order, S: Store>(
    orders: &Orders<M, G>,
    store: &S,
    register: &Register,
    floor: u64,
) -> Result<(), Refusal>
    ensures { result ≡ checked (later_tests (order M.Order orders.now.marks) (order G.Order orders.now.grades) (S.Store.sheets store.now) (book_of register.now) floor) tt }
{
    let certificates = register.certificates();
    Refusal::Numbers.unless(numbers::are_sound(register))?;
    Refusal::NoClass.unless(checks::are_all_classed(orders, register, floor))?;
    Refusal::Range.unless(checks::are_in_range(orders, certificates))?;
    Refusal::UnderFloor.unless(checks::are_floored(orders, certificates, floor))?;
    Refusal::OtherStore.unless(checks::sizes_agree(store, register.entries()))
}

// What an opening of a closed vault over the store keeps, if one with this register and this floor is accepted.
pub fn admit<M: Order, G: Order, S: Store>(
    orders: &Orders<M, G>,
    store: &S,
    bytes: &[u8],
    floor: u64,
) -> Result<Opening, Refusal>
    ensures { admitted result ≡ made floor (opening (order M.Order orders.now.marks) (order G.Order orders.now.grades) bytes.now floor (S.Store.sheets store.now) false) }
{
    let register = reader::read(bytes)?;
    test(orders, store, &register, floor)?;
    Ok(Opening {
        floor,
        sheets: making::sheets_of(&register),
        seats: making::seats_of(&register),
    })
}
