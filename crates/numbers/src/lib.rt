// Casts between the widths of numbers, which keep the number, and a test as a number.
#![tactic(auto)]

ghost use Rattle.std.specs.Prelude.{◌≡◌, ◌^◌, ◌<◌};
ghost use Rattle.numbers.specs.Numbers.{toℕ};

// A byte as a number of 32 bits.
pub fn wide(x: u8) -> u32
    ensures { (result ≡ x) × (result < 256) }
{
    x as u32
}

// A byte as an index.
pub fn place(x: u8) -> usize
    ensures { result ≡ x }
{
    x as usize
}

// A number of 32 bits as an index.
pub fn index(x: u32) -> usize
    ensures { (result ≡ x) × (result < 2 ^ 32) }
{
    x as usize
}

// A number of 32 bits as one of 64.
pub fn long(x: u32) -> u64
    ensures { (result ≡ x) × (result < 2 ^ 32) }
{
    x as u64
}

// A number that a byte holds, as that byte.
pub fn byte(x: usize) -> u8
    requires { x < 256 }
    ensures { result ≡ x }
{
    x as u8
}

// A test as a number: 1 or 0.
pub fn flag(b: bool) -> u32
    ensures { result ≡ toℕ b }
{
    if b { 1 } else { 0 }
}
