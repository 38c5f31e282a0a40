// A whole day at a vault: the opening, and then the lines of an input, as one text.
ghost use Rattle.std.specs.Prelude.{◌≡◌, ◌++◌, IfOk, string_bytes, OnOk};
ghost use Rattle.asks.specs.Replies.{line_text};
ghost use Rattle.asks.specs.declared.answer.Answer.TheVariants.{Opened};
ghost use Rattle.vault.specs.Meaning.{policy, state, opening_of, answer_of, Left};
ghost use Rattle.dayrun.specs.Days.{ended, printed, opening_number, day_text};

use crate::answering;
use asks::answer::Answer;
use asks::lines::Lines;
use orders::order::Order;
use std::alloc::{AllocError, Global};
use stores::store::Store;
use vault::vault::Vault;

// The most bytes of an input; what stands beyond is not read.
pub const MOST_INPUT: u64 = 16_384;

// Opens the vault, and adds the opening's number: 0 where it is accepted.
fn open<M: Order, G: Order, S: Store>(
    vault: &mut Vault<M, G, S>,
    out: &mut String,
    register: &[u8],
    floor: u64,
) -> Result<(), AllocError>
    ensures bytes { OnOk result (string_bytes out.new ≡ string_bytes out.old ++ ended (line_text (Opened (opening_number (answer_of (opening_of M.Order G.Order S.Store vault.old register.now floor)))))) }
    ensures after { Left vault.old floor (opening_of M.Order G.Order S.Store vault.old register.now floor) vault.new }
{
    let refused = vault.open(register, floor).err();
    answering::print(out, Answer::Opened(refused.map_or(0, u8::from)))
}

// Answers each line of the input, and adds what is printed for it.
fn answer_all<M: Order, G: Order, S: Store>(
    vault: &mut Vault<M, G, S>,
    out: &mut String,
    input: &[u8],
) -> Result<(), AllocError>
    ensures { OnOk result (string_bytes out.new ≡ string_bytes out.old ++ printed (policy M.Order G.Order vault.old) (state S.Store vault.old) input.now) }
{
    for line in Lines::new(input) {
        answering::answer_line(vault, out, line)?;
    }
    Ok(())
}

// The text of a day: the opening's number, and then one line for each line of the input. Only want of memory fails.
pub fn text<M: Order + Drop, G: Order + Drop, S: Store + Drop>(
    alloc: Global,
    mut vault: Vault<M, G, S>,
    register: &[u8],
    floor: u64,
    input: &[u8],
) -> Result<String, AllocError>
    ensures { IfOk result (λ out. string_bytes out ≡ day_text M.Order G.Order S.Store vault register.now floor input.now) }
{
    let mut out = String::new(alloc);
    open(&mut vault, &mut out, register, floor)?;
    answer_all(&mut vault, &mut out, input)?;
    Ok(out)
}
