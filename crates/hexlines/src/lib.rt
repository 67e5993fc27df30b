// Lines of hexadecimal digits as bytes, for the programs that run test vectors.
//
// Such a program reads its input into an array, lends a second one for the bytes of a line,
//
//     let mut text = hexlines::text_buffer();
//     let mut out = hexlines::line_buffer();
//     let size = hexlines::read_full(&mut rt.reader(), &mut text)?;
//     let mut to = BufWriter::new(rt.alloc(), io::writer(&rt))?;
//     show_all(&mut to, &text[..size], &mut out)?;
//     to.flush()
//
// and goes from line to line:
//
//     for line in text.split_inclusive(|b| *b == b'\n') {
//         let line = line.strip_suffix(b"\n").unwrap_or(line);
//         let count = hexlines::bytes(line, 0, line.len(), out);
//         show(to, &out[..count])?;
//     }
#![tactic(auto)]

ghost use Rattle.std.specs.Prelude.{◌≤◌, ◌≡◌, ◌<◌, length, take, IfOk};
ghost use Rattle.std.specs.Io.KnownBytes.{Consumes, IsAtEnd};
ghost use Rattle.hexlines.specs.Counts.{IsPrefixLen};

use std::cmp::min;
use std::io;
use std::io::Read;

// Zeros, for all of a program's input: at most 1,048,576 bytes of it are read.
pub fn text_buffer() -> [u8; 1048576]
    ensures { 1048576 ≡ length result }
{
    [0; 1048576]
}

// Zeros, for the bytes of one line.
pub fn line_buffer() -> [u8; 131072]
    ensures { 131072 ≡ length result }
{
    [0; 131072]
}

// Reads until `buf` is full or the input ends, and answers how many bytes it put at the start of `buf`. Where
// it is known what the reader has left, they are its next bytes. Nothing is said of an error.
pub fn read_full<R: Read>(reader: &mut R, buf: &mut [u8]) -> io::Result<usize>
    ensures in_bounds { IfOk result (λ n. IsPrefixLen n buf.new) }
    ensures bytes { IfOk result (λ n. Consumes (R.remaining reader.old) (R.remaining reader.new) (take n buf.new)) }
    ensures end { IfOk result (λ n. n < length buf.new → IsAtEnd (R.remaining reader.new)) }
{
    let mut done = 0;
    while done < buf.len() {
        let n = reader.read(&mut buf[done..])?;
        if n == 0 {
            break;
        }
        done += n;
    }
    Ok(done)
}

// The place of the first line end at `at` or after it, or the length of the text.
pub fn line_end(text: &[u8], at: usize) -> usize
    ensures { at ≤ length text.now → (at ≤ result) × (result ≤ length text.now) }
{
    match text.get(at..) {
        Some(rest) => at + rest.iter().position(|b| *b == b'\n').unwrap_or(rest.len()),
        None => at,
    }
}

// Puts the bytes that the digits from `at` to `end` write at the start of `out`, as many as it holds, and answers how many they
// are. An odd last digit is left out, and what is no digit counts as 0.
pub fn bytes(text: &[u8], at: usize, end: usize, out: &mut [u8]) -> usize
    ensures { IsPrefixLen result out.new }
{
    let Some(digits) = text.get(at..end) else {
        return 0;
    };
    let mut n = 0;
    for pair in digits.chunks_exact(2) {
        if out.len() <= n {
            return n;
        }
        out[n] = digit(pair[0]) * 16 + digit(pair[1]);
        n += 1;
    }
    n
}

// The same where a line may go on with `+` and a decimal number: so many zero bytes follow.
pub fn padded(text: &[u8], at: usize, end: usize, out: &mut [u8]) -> usize
    ensures { IsPrefixLen result out.new }
{
    let plus = plus_at(text, at, end);
    let n = bytes(text, at, plus, out);
    let more = decimal(text, plus, end);
    zeros(out, n, more)
}

// The place of the first `+`, or the end.
fn plus_at(text: &[u8], at: usize, end: usize) -> usize {
    let line = text.get(at..min(end, text.len())).unwrap_or(&[]);
    match line.iter().position(|b| *b == b'+') {
        Some(n) => at + n,
        None => end,
    }
}

// The number that the digits after the place write, or the largest of seven digits; 0 where there are none.
fn decimal(text: &[u8], plus: usize, end: usize) -> usize
    ensures { result ≤ 9999999 }
{
    if end <= plus {
        return 0;
    }
    let mut value = 0;
    for b in text.get(plus + 1..end).unwrap_or(&[]) {
        value = value * 10 + digit(*b) as usize;
        if 9999999 <= value {
            return 9999999;
        }
    }
    value
}

// Puts zeros at `from` and after it, as many as wanted and as `out` holds, and answers where they end.
fn zeros(out: &mut [u8], from: usize, wanted: usize) -> usize
    ensures { IsPrefixLen result out.new }
{
    if out.len() < from {
        return 0;
    }
    let end = from + min(wanted, out.len() - from);
    out[from..end].fill(0);
    end
}

fn digit(b: u8) -> u8
    ensures { result ≤ 15 }
{
    match b {
        b'0'..=b'9' => b - b'0',
        b'A'..=b'F' => b - b'A' + 10,
        b'a'..=b'f' => b - b'a' + 10,
        _ => 0,
    }
}
