// The rules file: read whole, then added line by line.
ghost use Rattle.std.specs.Prelude.{◌≡◌, ◌≤◌, length};
ghost use Rattle.watcher.specs.Lines.{line_answer, line_words};
ghost use Rattle.watcher.specs.Invariants.{FromEmpty};

use crate::output;
use rules::Added;
use std::io::{Read, Stdout};
use std::rt::Files;
use std::{fs, io};

// The most bytes of a rules file. One byte more is read, to see that there is no more.
const MOST: usize = 16_384;

// Reads until the text is full, the file ends or a read fails; how many bytes.
fn read_full(file: &mut impl Read, text: &mut [u8]) -> usize
    ensures { result ≤ length text.new }
{
    let mut size = 0;
    // How far a turn goes, the read says; `read_to_end` would need a heap.
    while size < text.len() {
        match file.read(&mut text[size..]) {
            Ok(0) | Err(_) => break,
            Ok(more) => size += more,
        }
    }
    size
}

// Reads the start of the rules file; how many bytes. A file that cannot be opened has none.
fn read_rules(rt: &impl Files, text: &mut [u8]) -> usize
    ensures { result ≤ length text.new }
{
    match fs::open(rt, "rules.txt") {
        Ok(mut file) => read_full(&mut file, text),
        Err(_) => 0,
    }
}

// Adds the rule of a line. A malformed line is refused with 22.
fn add_line(words: &mut [u64], line: &[u8]) -> Added
    ensures answer { result ≡ line_answer words.old line.now }
    ensures words { words.new ≡ line_words words.old line.now }
{
    let Some(rule) = lines::rule_line(line) else {
        return Added {
            number: 22,
            place: 0,
        };
    };
    rules::add(words, rule.id, rule.flags, &line[rule.pattern..])
}

// Adds the rules of a text, line by line, and says which were refused.
fn add_lines(stdout: Stdout, words: &mut [u64], text: &[u8], out: &mut [u8]) -> io::Result<()>
    requires { FromEmpty words.old }
    ensures { FromEmpty words.new }
{
    let mut from = 0;
    let mut line: u64 = 0;
    let mut at = 0;
    // `split` would give one more line, an empty one, after the last newline.
    while from < text.len() {
        let end = lines::line_end(text, from);
        line += 1;
        let added = add_line(words, &text[from..end]);
        at = output::say_answer(stdout, out, at, line, added.number, added.place)?;
        from = end + 1;
    }
    output::flush(stdout, out, at)
}

// Adds the rules of rules.txt; whether the file was short enough.
pub fn add_rules(
    rt: &impl Files,
    stdout: Stdout,
    words: &mut [u64],
    out: &mut [u8],
) -> io::Result<bool>
    requires { FromEmpty words.old }
    ensures { FromEmpty words.new }
{
    let mut text = [0u8; 16385];
    let size = read_rules(rt, &mut text);
    if MOST < size {
        output::say_too_long(stdout)?;
        return Ok(false);
    }
    add_lines(stdout, words, &text[..size], out)?;
    Ok(true)
}
