// The lines that are printed.
ghost use Rattle.std.specs.Prelude.{◌+◌, ◌*◌, ◌≤◌, length};

use std::io;
use words::number_at;

// Desk, code, item, reason, first and second number of the answer at index at: bytes, which no type of the repository reads back, so no Display.
fn print_answer(rt: &impl Print, answers: &[u8], at: usize) -> io::Result<()>
    requires { at + 12 ≤ length answers.now }
{
    let code = answers[at];
    let desk = answers[at + 1];
    let item = answers[at + 2];
    let reason = answers[at + 3];
    let first = number_at(answers, at + 4);
    let second = number_at(answers, at + 8);
    println!(rt; "{desk} {code} {item} {reason} {first} {second}")
}

// As many answers as are counted, 12 bytes each.
pub fn print_answers(rt: &impl Print, answers: &[u8], count: usize) -> io::Result<()>
    requires { 12 * count ≤ length answers.now }
{
    for place in 0..count {
        print_answer(rt, answers, 12 * place)?;
    }
    Ok(())
}

fn print_change(rt: &impl Print, item: usize, was: u32, is: u32) -> io::Result<()> {
    if was != is {
        println!(rt; "final {item} {is}")?;
    }
    Ok(())
}

// The items whose value differs from its opening, by the rows of the table and the values of 4 bytes.
pub fn print_changes(rt: &impl Print, table: &[u8], values: &[u8]) -> io::Result<()>
    requires table_whole { 1024 ≤ length table.now }
    requires values_whole { 256 ≤ length values.now }
{
    for item in 0..64 {
        let was = number_at(table, 16 * item + 8);
        let is = number_at(values, 4 * item);
        print_change(rt, item, was, is)?;
    }
    Ok(())
}
