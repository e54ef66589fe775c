// What the programs of trials have in common: reading the standard input, taking lines of numbers apart, and writing
// words and numbers. No contract can say what the standard output takes, so what writes promises nothing: what a program
// writes is held to its file stdout. A write that fails is passed over.
#![tactic(auto)]

ghost use Rattle.std.specs.Prelude.{◌≡◌, ◌+◌, ◌*◌, ◌%◌, ◌≤◌, length};

use std::fmt::Display;
use std::io::Read;

// Reads until the buffer is full, the input ends or a call fails: how many bytes were put at the buffer's start.
pub fn read_full(input: &impl Input, buf: &mut [u8]) -> usize
    ensures { result ≤ length buf.new }
{
    let mut reader = input.reader();
    let mut n: usize = 0;
    while n < buf.len() {
        let more = reader.read(&mut buf[n..]).unwrap_or(0);
        if more == 0 {
            return n;
        }
        n += more;
    }
    n
}

// Where a byte first stands, or the end where it does not.
pub fn find(s: &[u8], byte: u8) -> usize
    ensures { result ≤ length s.now }
{
    s.iter().position(|b| *b == byte).unwrap_or(s.len())
}

// A number with one digit more, in 32 bits.
fn with_digit(value: u32, digit: u8) -> u32
    ensures { result ≡ (value * 10 + digit) % 4294967296 }
{
    let longer = u64::from(value) * 10 + u64::from(digit);
    (longer % 4294967296) as u32
}

// The number that digits write, in 32 bits.
fn value_of(digits: &[u8]) -> u32 {
    digits
        .iter()
        .fold(0, |value, d| with_digit(value, d.wrapping_sub(b'0')))
}

// The numbers of a line, in decimal, as many as there is room for; anything but a digit parts two numbers: how many.
pub fn numbers_of(s: &[u8], out: &mut [u32]) -> usize
    ensures { result ≤ length out.new }
{
    let mut n: usize = 0;
    for digits in s.split(|c| !c.is_ascii_digit()) {
        if !digits.is_empty() && n < out.len() {
            out[n] = value_of(digits);
            n += 1;
        }
    }
    n
}

// The low byte of a number.
fn low(n: u32) -> u8
    ensures { result ≡ n % 256 }
{
    (n % 256) as u8
}

// Numbers as bytes, as many as both have room for: how many.
pub fn bytes_of(numbers: &[u32], out: &mut [u8]) -> usize
    ensures { result ≤ length out.new }
{
    for (byte, n) in out.iter_mut().zip(numbers) {
        *byte = low(*n);
    }
    numbers.len().min(out.len())
}

// Writes one byte.
pub fn put(rt: &impl Print, b: u8) {
    let _ = rt.write_all(&[b]);
}

// Writes bytes.
pub fn word(rt: &impl Print, s: &[u8]) {
    let _ = rt.write_all(s);
}

// Writes a number in decimal.
pub fn number<T: Display + Drop>(rt: &impl Print, n: T) {
    let _ = rt.print(n);
}

// Writes 1 for true and 0 for false.
pub fn flag(rt: &impl Print, b: bool) {
    number(rt, u8::from(b));
}

// Writes a number with a space before it.
pub fn spaced<T: Display + Drop>(rt: &impl Print, n: T) {
    put(rt, b' ');
    number(rt, n);
}

// Writes every number of a list, each with a space before it.
pub fn list<T: Copy + Display + Drop>(rt: &impl Print, numbers: &[T]) {
    for n in numbers {
        spaced(rt, *n);
    }
}
