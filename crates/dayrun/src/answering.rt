// One line of input: what it asks for is asked of the vault, and the answer is added to the text.
ghost use Rattle.std.specs.Prelude.{◌≡◌, ◌++◌, string_bytes, OnOk};
ghost use Rattle.model.specs.Rules.{after};
ghost use Rattle.asks.specs.Lines.{call, parsed};
ghost use Rattle.asks.specs.Replies.{line_text};
ghost use Rattle.vault.specs.Meaning.{policy, state, Kept};
ghost use Rattle.dayrun.specs.Answers.{said_line};
ghost use Rattle.dayrun.specs.Days.{ended};
ghost use Rattle.dayrun.specs.Steps.{call_text, ask_text, ask_after};

use asks::answer::Answer;
use asks::ask::{Ask, Malformed, parse};
use asks::stretch::MOST_SIZE;
use orders::order::Order;
use refusals::refusal::Refusal;
use std::alloc::AllocError;
use stores::store::Store;
use vault::vault::Vault;

// Adds a line to the text.
pub fn print(out: &mut String, line: Answer<'_>) -> Result<(), AllocError>
    ensures { OnOk result (string_bytes out.new ≡ string_bytes out.old ++ ended (line_text line.entry)) }
{
    writeln!(out, "{line}")
}

// Makes the call that is asked for: its answer, which may be the buffer.
fn ask_vault<'a, M: Order, G: Order, S: Store>(
    vault: &mut Vault<M, G, S>,
    ask: Ask<'_>,
    buffer: &'a mut [u8; MOST_SIZE],
) -> Result<Answer<'a>, Refusal>
    ensures said { said_line result ≡ call_text (policy M.Order G.Order vault.old) (state S.Store vault.old) (call ask.entry) }
    ensures after { state S.Store vault.new ≡ after (policy M.Order G.Order vault.old) (state S.Store vault.old) (call ask.entry) }
    ensures kept { Kept vault.old vault.new }
{
    match ask {
        Ask::Read(stretch) => {
            let part = &mut buffer[..usize::from(stretch.size)];
            vault.read(stretch.seat, stretch.sheet, stretch.place, part)?;
            Ok(Answer::Filled(part))
        }
        Ask::Write {
            seat,
            sheet,
            place,
            bytes,
        } => {
            vault.write(seat, sheet, place, bytes)?;
            Ok(Answer::Done)
        }
        // As for a read but for the call; a closure for it, which would be passed the vault and the stretch again, would be no plainer.
        Ask::Run(stretch) => {
            let part = &mut buffer[..usize::from(stretch.size)];
            vault.run(stretch.seat, stretch.sheet, stretch.place, part)?;
            Ok(Answer::Filled(part))
        }
        Ask::Hand { seat, sheet, slip } => {
            vault.hand(seat, sheet, slip)?;
            Ok(Answer::Done)
        }
        Ask::Tell { seat } => {
            let (program, slip) = vault.tell(seat)?;
            Ok(Answer::Told(program, slip))
        }
    }
}

// Answers one line, and adds what is printed for it. The vault and the text stand apart in the clauses, so one value of both would be
// no plainer.
pub fn answer_line<M: Order, G: Order, S: Store>(
    vault: &mut Vault<M, G, S>,
    out: &mut String,
    line: &[u8],
) -> Result<(), AllocError>
    ensures bytes { OnOk result (string_bytes out.new ≡ string_bytes out.old ++ ended (ask_text (policy M.Order G.Order vault.old) (state S.Store vault.old) (parsed line.now))) }
    ensures after { state S.Store vault.new ≡ ask_after (policy M.Order G.Order vault.old) (state S.Store vault.old) (parsed line.now) }
    ensures kept { Kept vault.old vault.new }
{
    // No plainer as an `ArrayVec`, which had to be filled with zeros first: a call is lent as much of the largest buffer as it asks for.
    let mut buffer = [0; MOST_SIZE];
    match parse(line) {
        Ok(ask) => match ask_vault(vault, ask, &mut buffer) {
            Ok(answer) => print(out, answer),
            Err(refusal) => print(out, Answer::Refused(refusal)),
        },
        Err(Malformed) => print(out, Answer::Malformed),
    }
}
