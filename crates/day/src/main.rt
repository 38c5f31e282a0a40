// The day run: reads standard input, answers its lines at the example vault, and prints the text.
#![tactic(auto)]

use dayrun::day::MOST_INPUT;
use dayrun::example;
use std::io::Read;

fn main(rt: HostRuntime) -> anyhow::Result<()> {
    let mut input = Vec::new(rt.alloc());
    rt.stdin().take(MOST_INPUT).read_to_end(&mut input)?;
    let text = example::text(rt.alloc(), input.as_slice())?;
    rt.print(text)?;
    Ok(())
}
