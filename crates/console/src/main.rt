//! The console: one command a line from standard input, one line of answer for each.
#![tactic(auto)]

ghost use Rattle.console.specs.Lines.{LineReads, Answers};

mod site;
#[cfg(test)]
mod tests;

use commands::{Command, Declined, Reply, parse};
use site::{Site, run_command};
use std::alloc::Global;
use std::io;
use std::io::{BufRead, BufReader};

// No command is longer, so a longer line is kept only this far and one byte more.
const LONGEST: usize = 128;

fn read_command(alloc: Global, line: &[u8]) -> Result<Command, Declined>
    ensures { LineReads line.now result }
{
    let text = std::str::from_utf8(line).map_err(|_| Declined::Unreadable)?;
    let words: Vec<&str> = text.split(' ').collect(alloc)?;
    parse(&words).ok_or(Declined::Unreadable)
}

fn answer(alloc: Global, site: &mut Option<Site>, line: &[u8]) -> Result<Reply, Declined>
    ensures { Answers line.now site.old result site.new }
{
    run_command(alloc, site, read_command(alloc, line)?)
}

fn print_answer(
    rt: &(impl Print + AllocGlobal),
    site: &mut Option<Site>,
    line: &[u8],
) -> io::Result<()> {
    match answer(rt.alloc(), site, line) {
        Ok(reply) => println!(rt; "{reply}"),
        Err(declined) => println!(rt; "{declined}"),
    }
}

// None at an end of the input. A terminal may go on behind one.
fn read_byte(input: &mut impl BufRead) -> io::Result<Option<u8>> {
    let Some(&byte) = input.fill_buf()?.first() else {
        return Ok(None);
    };
    input.consume(1);
    Ok(Some(byte))
}

fn main(rt: HostRuntime) -> io::Result<()> {
    let mut input = BufReader::new(rt.alloc(), rt.stdin())?;
    let mut line = Vec::with_capacity(rt.alloc(), LONGEST + 1)?;
    let mut site = None;
    // nothing says that an input ends, so the turns are counted
    for _ in 0..u64::MAX {
        match read_byte(&mut input)? {
            Some(byte) if byte != b'\n' => {
                if line.len() <= LONGEST {
                    line.push(byte)?;
                }
            }
            None if line.is_empty() => break,
            _ => {
                print_answer(&rt, &mut site, &line)?;
                line.clear();
            }
        }
    }
    Ok(())
}
