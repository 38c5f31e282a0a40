// The vault: its opening, and the five calls of a seat.
ghost use Rattle.std.specs.Prelude.{◌≡◌, Ok};
ghost use Rattle.std.specs.Result.{result_map_both};
ghost use Rattle.model.specs.Calls.{read as reading, write as writing, run as running, hand as handing, tell as telling};
ghost use Rattle.model.specs.Rules.{answer, after, reply};
ghost use Rattle.model.specs.TwoRuns.{Law};
ghost use Rattle.vault.specs.Meaning.{policy, state, store_of, told, done, opening_of, answer_of, Left, Closed, Kept, SizesStay};
ghost use Rattle.refusals.specs.Refusals.{checked};
ghost use Rattle.model.specs.States.{seat_at, held, certificate_of, with_seat};
ghost use Rattle.vault.specs.Parts.{opening_kept, read_front, write_front, run_front, hand_front};

use access::Orders;
use model::seat::Seat;
use opening::admission;
use opening::opening::Opening;
use orders::order::Order;
use refusals::refusal::Refusal;
use register::certificate::Certificate;
use stores::store::Store;

// A vault over an order of marks, an order of grades and a store. Calls change the store and the opening's seats alone.
// No plainer with a Model: what a vault means needs the ghost members of its three bounds, which each clause would still name.
#[derive(Drop)]
pub struct Vault<M, G, S> {
    orders: Orders<M, G>,
    store: S,
    // What the opening kept; nothing in a vault that is not open.
    opening: Option<Opening>,
}

impl<M: Order, G: Order, S: Store> Vault<M, G, S> {
    // A vault that is not open.
    pub fn new(marks: M, grades: G, store: S) -> Vault<M, G, S>
        ensures { Closed marks grades store result }
    {
        Vault {
            orders: Orders { marks, grades },
            store,
            opening: None,
        }
    }

    // Opens the vault by a register and a floor, over the store that it has.
    pub fn open(&mut self, register: &[u8], floor: u64) -> Result<(), Refusal>
        ensures value { result ≡ answer_of (opening_of M.Order G.Order S.Store self.old register.now floor) }
        ensures after { Left self.old floor (opening_of M.Order G.Order S.Store self.old register.now floor) self.new }
        ensures law { result ≡ Ok tt → Law (policy M.Order G.Order self.new) (state S.Store self.new) register.now }
        ensures sizes { result ≡ Ok tt → SizesStay (policy M.Order G.Order self.new) (state S.Store self.new) register.now }
    {
        Refusal::AlreadyOpen.unless(self.opening.is_none())?;
        let opening = admission::admit(&self.orders, &self.store, register, floor)?;
        self.opening = Some(opening);
        Ok(())
    }

    // What the opening kept.
    fn opening(&self) -> Result<&Opening, Refusal>
        ensures { result_map_both (λ o. o.now) (λ e. e) result ≡ opening_kept self.now }
    {
        self.opening.as_ref().ok_or(Refusal::Closed)
    }

    // Whether the seat may read the sheet.
    fn may_read(&self, seat: u16, sheet: u16) -> Result<(), Refusal>
        ensures { result ≡ checked (read_front (policy M.Order G.Order self.now) (state S.Store self.now) seat sheet) tt }
    {
        let opening = self.opening()?;
        let holder = opening.seat(seat)?.certificate;
        self.orders.may_read(holder, opening.sheet(sheet)?.label)
    }

    // Whether the seat may write the sheet; a certified program is never written.
    fn may_write(&self, seat: u16, sheet: u16) -> Result<(), Refusal>
        ensures { result ≡ checked (write_front (policy M.Order G.Order self.now) (state S.Store self.now) seat sheet) tt }
    {
        let opening = self.opening()?;
        let holder = opening.seat(seat)?.certificate;
        let target = opening.sheet(sheet)?;
        Refusal::Certified.unless(target.certificate.is_none())?;
        self.orders.may_write(holder, target.label)
    }

    // The record of the seat, if it may run the sheet.
    fn may_run(&self, seat: u16, sheet: u16) -> Result<Seat, Refusal>
        ensures { result ≡ checked (run_front (policy M.Order G.Order self.now) (state S.Store self.now) seat sheet) (seat_at (state S.Store self.now) seat) }
    {
        let opening = self.opening()?;
        let caller = opening.seat(seat)?;
        let code = opening.sheet(sheet)?.label;
        self.orders.may_run(caller.certificate, code)?;
        Ok(caller)
    }

    // The certificate of the program, if the seat may be handed over to it.
    fn may_hand(&self, seat: u16, sheet: u16) -> Result<Certificate, Refusal>
        ensures { result ≡ checked (hand_front (policy M.Order G.Order self.now) (state S.Store self.now) seat sheet) (held (certificate_of (policy M.Order G.Order self.now) sheet)) }
    {
        let opening = self.opening()?;
        let holder = opening.seat(seat)?.certificate;
        let program = opening.sheet(sheet)?;
        let next = program.certificate.ok_or(Refusal::NotCertified)?;
        self.orders.may_hand(holder, program.label, next)?;
        Ok(next)
    }

    // Puts another record in the place of seat i's; nothing changes in a vault that is not open.
    fn put(&mut self, i: u16, seat: Seat)
        ensures state { state S.Store self.new ≡ with_seat (state S.Store self.old) i seat }
        ensures kept { Kept self.old self.new }
        ensures store { store_of self.new ≡ store_of self.old }
    {
        if let Some(opening) = &mut self.opening {
            opening.put(i, seat);
        }
    }

    // The seat's running program and slip.
    pub fn tell(&self, seat: u16) -> Result<(u16, u64), Refusal>
        ensures { told result ≡ answer (policy M.Order G.Order self.now) (state S.Store self.now) (telling seat) }
    {
        let caller = self.opening()?.seat(seat)?;
        Ok((caller.program, caller.slip))
    }

    // Fills the buffer from the sheet's bytes that start at the place.
    pub fn read(
        &mut self,
        seat: u16,
        sheet: u16,
        place: u32,
        buffer: &mut [u8],
    ) -> Result<(), Refusal>
        ensures value { done result ≡ answer (policy M.Order G.Order self.old) (state S.Store self.old) (reading seat sheet place buffer.old) }
        ensures buffer { buffer.new ≡ (reply (policy M.Order G.Order self.old) (state S.Store self.old) (reading seat sheet place buffer.old)).buffer }
        ensures same { self.new ≡ self.old }
    {
        self.may_read(seat, sheet)?;
        self.store.read(sheet, place, buffer)
    }

    // Puts the bytes over the sheet's bytes that start at the place.
    pub fn write(&mut self, seat: u16, sheet: u16, place: u32, bytes: &[u8]) -> Result<(), Refusal>
        ensures value { done result ≡ answer (policy M.Order G.Order self.old) (state S.Store self.old) (writing seat sheet place bytes.now) }
        ensures after { state S.Store self.new ≡ after (policy M.Order G.Order self.old) (state S.Store self.old) (writing seat sheet place bytes.now) }
        ensures kept { Kept self.old self.new }
    {
        self.may_write(seat, sheet)?;
        self.store.write(sheet, place, bytes)
    }

    // Fills the buffer as a read does, and has the seat run the sheet.
    pub fn run(
        &mut self,
        seat: u16,
        sheet: u16,
        place: u32,
        buffer: &mut [u8],
    ) -> Result<(), Refusal>
        ensures value { done result ≡ answer (policy M.Order G.Order self.old) (state S.Store self.old) (running seat sheet place buffer.old) }
        ensures buffer { buffer.new ≡ (reply (policy M.Order G.Order self.old) (state S.Store self.old) (running seat sheet place buffer.old)).buffer }
        ensures after { state S.Store self.new ≡ after (policy M.Order G.Order self.old) (state S.Store self.old) (running seat sheet place buffer.old) }
        ensures kept { Kept self.old self.new }
        ensures store { store_of self.new ≡ store_of self.old }
    {
        let mut caller = self.may_run(seat, sheet)?;
        self.store.read(sheet, place, buffer)?;
        caller.program = sheet;
        self.put(seat, caller);
        Ok(())
    }

    // Hands the seat over to a certified program, with a slip.
    pub fn hand(&mut self, seat: u16, sheet: u16, slip: u64) -> Result<(), Refusal>
        ensures value { done result ≡ answer (policy M.Order G.Order self.old) (state S.Store self.old) (handing seat sheet slip) }
        ensures after { state S.Store self.new ≡ after (policy M.Order G.Order self.old) (state S.Store self.old) (handing seat sheet slip) }
        ensures kept { Kept self.old self.new }
        ensures store { store_of self.new ≡ store_of self.old }
    {
        let certificate = self.may_hand(seat, sheet)?;
        let handed = Seat {
            certificate,
            program: sheet,
            slip,
        };
        self.put(seat, handed);
        Ok(())
    }
}
