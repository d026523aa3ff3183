// The bench case of document 01 with one request from standard input: number and k on a line, then the reply's words
// on a line.
#![tactic(auto)]

ghost use Rattle.std.specs.Prelude.{◌≤◌, length, IfOk};

use std::io;
use std::io::Read;

// One byte more than a request may have, so that a longer line is noticed.
const LINE_BYTES: usize = asking::LONGEST_TEXT + 1;

// The next byte of the line; a line feed ends the line as the end of the input does.
fn next_byte<R: Read>(input: &mut R) -> io::Result<Option<u8>> {
    let next = input.by_ref().bytes().next().transpose()?;
    Ok(next.filter(|b| *b != b'\n'))
}

// The line up to its end, or as much of it as there is room for. As Read's own `read` has it: the caller's buffer, and
// how much of it.
fn read_line<R: Read>(input: &mut R, line: &mut [u8]) -> io::Result<usize>
    ensures { IfOk result (λ r. r ≤ length line.new) }
{
    for (n, place) in line.iter_mut().enumerate() {
        let Some(b) = next_byte(input)? else {
            return Ok(n);
        };
        *place = b;
    }
    Ok(line.len())
}

// The words on a line.
fn print_words(rt: &impl Print, words: &[u64]) -> io::Result<()> {
    if let Some((first, others)) = words.split_first() {
        print!(rt; "{first}")?;
        for word in others {
            print!(rt; " {word}")?;
        }
    }
    println!(rt; "")
}

// Asks the bench case, and prints the answer and the reply.
fn answer(rt: &impl Print, text: &[u8]) -> io::Result<()> {
    let mut reply = [0u64; bench::REPLY_WORDS];
    let answer = bench::ask(text, &mut reply);
    let number = answers::answer_number(answer);
    let k = answers::answer_count(answer);
    println!(rt; "{number} {k}")?;
    let n = bench::word_count(answer, &reply);
    print_words(rt, &reply[..n])
}

fn main(rt: HostRuntime) -> io::Result<()> {
    let mut line = [0u8; LINE_BYTES];
    let n = read_line(&mut rt.reader(), &mut line)?;
    answer(&rt, &line[..n])
}
