// Typed queries: the pieces of a text, and the reading that the grammar gives them.
#![tactic(auto)]

ghost use Rattle.std.specs.Prelude.{◌≡◌, true, false, cond, [], ◌∷◌, eqb, ◌+◌, ◌-◌, ◌^◌, ◌*◌, ◌≤◌, ◌<◌, min, max, length, get_or, take, drop};
ghost use Rattle.std.specs.List.{prefix_len};
ghost use Rattle.grammar.specs.Pieces.{between, is_letter_or_digit};
ghost use Rattle.grammar.specs.Parser.{run, begins};
ghost use Rattle.text.specs.Programs.{after_token, written, with_word, word_written, sign_word};
ghost use Rattle.text.specs.Programs.{ComparedShows, compared_words, right_words, closing, Gave, Shows, ItemsShow};
ghost use Rattle.text.specs.Programs.{is_at_end, text_if, TextShows};
ghost use Rattle.grammar.specs.Parser.{comparison_at, or_at, and_at, not_at, primary_at, condition_at, items_at, parse};
ghost use Rattle.text.specs.Tokens.{letter_word, name_number, magnitude, token_at, word_token, item_token, number_token, fixed_token};

// The most bytes that a text may have.
pub const MAX_TEXT: usize = 1024;

// The value of a constant whose digits say this or more: in no kind's range.
const VALUE_BOUND: u64 = 1 << 32;

// The words and marks of a text.
#[derive(Clone, Copy, PartialEq, Eq)]
pub enum Word {
    Retrieve,
    Where,
    Not,
    And,
    Or,
    Open,
    Close,
    Comma,
}

// The operators, in the order of their numbers in a program.
#[derive(Clone, Copy)]
pub enum Operator {
    Equal,
    Unequal,
    Less,
    AtMost,
    Greater,
    AtLeast,
}

// The first word of a comparison in a program.
const COMPARISON: u64 = 0;

// The words of a program that stand behind what they negate or join.
const NOT: u64 = 1;

const AND: u64 = 2;

const OR: u64 = 3;

// What stands at a position of a text, behind spaces: a piece, and the position behind it.
#[derive(Clone, Copy)]
pub enum Token {
    // No byte but spaces.
    AtEnd,
    // No piece.
    NoPiece,
    WordAt(Word, usize),
    OperatorAt(Operator, usize),
    // The letter of the variable, none for the blank one, and the number of the name.
    ItemAt(Option<u8>, u64, usize),
    // Whether there is a minus, and the value of the digits, 2 ^ 32 where it is more.
    NumberAt(bool, u64, usize),
}

// Whether a byte is one of those from `first` to `last`.
fn between(first: u8, last: u8, b: u8) -> bool
    ensures { result ≡ between first last b }
{
    first <= b && b <= last
}

// How many such bytes stand before the first other.
fn run_length(s: &[u8], first: u8, last: u8) -> usize
    ensures value { result ≡ prefix_len (between first last) s.now }
    ensures within { result ≤ length s.now }
{
    s.iter().take_while(|b| between(first, last, **b)).count()
}

// Where the run of such bytes ends that stands at a position.
fn run_end(s: &[u8], at: usize, first: u8, last: u8) -> usize
    requires { at ≤ length s.now }
    ensures value { result ≡ at + run (between first last) (drop at s.now) }
    ensures inside { result ≤ length s.now }
{
    at + run_length(&s[at..], first, last)
}

// The byte at a position, 0 behind the last.
fn byte_at(s: &[u8], at: usize) -> u8
    ensures { result ≡ get_or s.now at 0 }
{
    s.get(at).copied().unwrap_or(0)
}

// Whether a letter or digit stands at a position.
fn goes_on(s: &[u8], at: usize) -> bool
    ensures { result ≡ is_letter_or_digit (get_or s.now at 0) }
{
    byte_at(s, at).is_ascii_alphanumeric()
}

// Whether a text stands at a position.
fn stands(s: &[u8], at: usize, text: &[u8]) -> bool
    requires { at ≤ length s.now }
    ensures { result ≡ begins text.now (drop at s.now) }
{
    s[at..].starts_with(text)
}

// A word, spelled so, where it stands at a position.
fn spelled_word(s: &[u8], at: usize, w: Word, text: &[u8]) -> Token
    requires at_in_bounds { at ≤ length s.now }
    requires text_len_bound { length text.now ≤ 8 }
    ensures { result ≡ word_token w text.now (drop at s.now) at }
{
    if !stands(s, at, text) {
        return Token::NoPiece;
    }
    let end: usize = at + text.len();
    if goes_on(s, end) {
        return Token::NoPiece;
    }
    Token::WordAt(w, end)
}

// The number of a letter of a name, and of a digit.
fn above(b: u8, least: u8) -> u64
    ensures { (result ≡ b - least) × (result < 256) }
{
    u64::from(b.saturating_sub(least))
}

// The number of the name that the bytes from one position to another are.
fn name_number(s: &[u8], from: usize, end: usize) -> u64
    requires { (from ≤ end) × (end ≤ from + 12) × (end ≤ length s.now) }
    ensures { result ≡ name_number (take (end - from) (drop from s.now)) }
{
    let mut m: u64 = 0;
    for b in &s[from..end] {
        m = m * 27 + above(*b, b'A' - 1);
    }
    m
}

// The value of the digits from one position to another, 2 ^ 32 where it is more.
fn magnitude(s: &[u8], from: usize, end: usize) -> u64
    requires { (from ≤ end) × (end ≤ length s.now) }
    ensures { result ≡ magnitude (take (end - from) (drop from s.now)) }
{
    let mut m: u64 = 0;
    for b in &s[from..end] {
        m = (m * 10 + above(*b, b'0')).min(VALUE_BOUND);
    }
    m
}

// The item whose name starts at a position, where one stands, of the variable with a letter.
#[tactic(auto, using(crate::proofs::Marks::item_long))]
fn item(s: &[u8], from: usize, letter: Option<u8>) -> Token
    requires { from ≤ length s.now }
    ensures { result ≡ item_token letter (drop from s.now) from }
{
    let end: usize = run_end(s, from, b'A', b'Z');
    if end == from {
        return Token::NoPiece;
    }
    if end - from > 12 {
        return Token::NoPiece;
    }
    if goes_on(s, end) {
        return Token::NoPiece;
    }
    Token::ItemAt(letter, name_number(s, from, end), end)
}

// The constant whose digits start at a position, where one stands, with or without a minus before them.
fn constant(s: &[u8], from: usize, minus: bool) -> Token
    requires { from ≤ length s.now }
    ensures { result ≡ number_token minus (drop from s.now) from }
{
    let end: usize = run_end(s, from, b'0', b'9');
    if end == from {
        return Token::NoPiece;
    }
    if goes_on(s, end) {
        return Token::NoPiece;
    }
    Token::NumberAt(minus, magnitude(s, from, end), end)
}

// The operator that begins with a byte which may stand alone, and is another one with `=` behind it.
fn with_equal(s: &[u8], at: usize, alone: Operator, equal: Operator) -> Token
    requires { at < length s.now }
    ensures { result ≡ cond (eqb (get_or s.now (at + 1) 0) 61) (Token.OperatorAt equal (at + 2))
        (Token.OperatorAt alone (at + 1)) }
{
    if byte_at(s, at + 1) == b'=' {
        return Token::OperatorAt(equal, at + 2);
    }
    Token::OperatorAt(alone, at + 1)
}

// The operator that begins with `<`.
fn less(s: &[u8], at: usize) -> Token
    requires { (at < length s.now) × (get_or s.now at 0 ≡ 60) }
    ensures { result ≡ fixed_token (drop at s.now) at }
{
    if byte_at(s, at + 1) == b'>' {
        return Token::OperatorAt(Operator::Unequal, at + 2);
    }
    with_equal(s, at, Operator::Less, Operator::AtMost)
}

// The word, mark or operator that stands at a position.
fn fixed(s: &[u8], at: usize) -> Token
    requires { at < length s.now }
    ensures { result ≡ fixed_token (drop at s.now) at }
{
    match s[at] {
        b'r' => spelled_word(s, at, Word::Retrieve, b"retrieve"),
        b'w' => spelled_word(s, at, Word::Where, b"where"),
        b'n' => spelled_word(s, at, Word::Not, b"not"),
        b'a' => spelled_word(s, at, Word::And, b"and"),
        b'o' => spelled_word(s, at, Word::Or, b"or"),
        b'(' => Token::WordAt(Word::Open, at + 1),
        b')' => Token::WordAt(Word::Close, at + 1),
        b',' => Token::WordAt(Word::Comma, at + 1),
        b'<' => less(s, at),
        b'>' => with_equal(s, at, Operator::Greater, Operator::AtLeast),
        b'=' => Token::OperatorAt(Operator::Equal, at + 1),
        _ => Token::NoPiece,
    }
}

// What stands at a position, behind spaces.
pub fn token_at(s: &[u8], at: usize) -> Token
    requires { at ≤ length s.now }
    ensures { result ≡ token_at s.now at }
{
    let start: usize = run_end(s, at, b' ', b' ');
    let Some(b) = s.get(start) else {
        return Token::AtEnd;
    };
    match *b {
        b'A'..=b'Z' => item(s, start, None),
        b'a'..=b'z' if byte_at(s, start + 1) == b'.' => item(s, start + 2, Some(*b)),
        b'0'..=b'9' => constant(s, start, false),
        b'-' => constant(s, start + 1, true),
        _ => fixed(s, start),
    }
}

// A condition that a parser found.
#[derive(Clone, Copy)]
pub struct Parse {
    // The position of the text behind it.
    pub next: usize,
    // The depth of its parentheses.
    pub depth: usize,
    // The place behind its program.
    pub end: usize,
}

// The right side of a comparison.
#[derive(Clone, Copy)]
pub enum Operand {
    // The letter of the variable, none for the blank one, and the number of the name.
    Item(Option<u8>, u64),
    // Whether there is a minus, and the magnitude.
    Constant(bool, u64),
}

// A comparison: its left item by letter and number.
#[derive(Clone, Copy)]
pub struct Compared {
    pub letter: Option<u8>,
    pub name: u64,
    pub operator: Operator,
    pub right: Operand,
    // The position of the text behind it.
    pub next: usize,
}

// The position behind a word, where it stands at a position.
fn after(s: &[u8], at: usize, w: Word) -> Option<usize>
    requires { at ≤ length s.now }
    ensures { result ≡ after_token w (token_at s.now at) }
{
    let Token::WordAt(v, next) = token_at(s, at) else {
        return None;
    };
    if v == w { Some(next) } else { None }
}

// Writes one word of a program. The place behind it.
fn put(out: &mut [u64], at: usize, word: u64) -> usize
    requires { at < length out.old }
    ensures value { result ≡ at + 1 }
    ensures out_after { out.new ≡ written at (word ∷ []) out.old }
{
    out[at] = word;
    at + 1
}

// A condition with one more word in its program, of a depth or deeper.
fn with_word(e: Parse, depth: usize, word: u64, out: &mut [u64]) -> Parse
    requires { e.end < length out.old }
    ensures value { result ≡ with_word e depth }
    ensures out_after { out.new ≡ word_written e word out.old }
{
    Parse {
        next: e.next,
        depth: depth.max(e.depth),
        end: put(out, e.end, word),
    }
}

// The first word of a constant.
fn sign_word(minus: bool) -> u64
    ensures { result ≡ sign_word minus }
{
    if minus { 2 } else { 1 }
}

// The first word of an item.
fn letter_word(letter: Option<u8>) -> u64
    ensures { result ≡ letter_word letter }
{
    match letter {
        Some(b) => u64::from(b),
        None => 0,
    }
}

// The two words of a right side.
fn right_words(x: Operand) -> (u64, u64)
    ensures { result.0 ∷ result.1 ∷ [] ≡ right_words x }
{
    match x {
        Operand::Item(letter, name) => (letter_word(letter), name),
        Operand::Constant(minus, magnitude) => (sign_word(minus), magnitude),
    }
}

// The comparison that stands at a position.
fn comparison_at(s: &[u8], at: usize) -> Option<Compared>
    requires { at ≤ length s.now }
    ensures { ComparedShows s.now at result (comparison_at s.now at) }
{
    let Token::ItemAt(letter, name, mid) = token_at(s, at) else {
        return None;
    };
    let Token::OperatorAt(operator, late) = token_at(s, mid) else {
        return None;
    };
    let (right, next) = match token_at(s, late) {
        Token::ItemAt(letter, name, next) => (Operand::Item(letter, name), next),
        Token::NumberAt(minus, magnitude, next) => (Operand::Constant(minus, magnitude), next),
        _ => return None,
    };
    Some(Compared {
        letter,
        name,
        operator,
        right,
        next,
    })
}

// Writes the words of a comparison.
fn put_comparison(x: Compared, out: &mut [u64], to: usize) -> usize
    requires { to + 6 ≤ length out.old }
    ensures value { result ≡ to + 6 }
    ensures out_after { out.new ≡ written to (compared_words x) out.old }
{
    let (first, second) = right_words(x.right);
    let mut at = put(out, to, COMPARISON);
    at = put(out, at, letter_word(x.letter));
    at = put(out, at, x.name);
    at = put(out, at, x.operator as u64);
    at = put(out, at, first);
    put(out, at, second)
}

// The condition in parentheses, behind which a closing one must stand.
fn closed(s: &[u8], c: Parse) -> Option<Parse>
    requires { (c.next ≤ length s.now) × (c.depth < length s.now) }
    ensures { result ≡ closing s.now c }
{
    let next = after(s, c.next, Word::Close)?;
    Some(Parse {
        next,
        depth: c.depth + 1,
        end: c.end,
    })
}

// The comparison that stands at a position, as a condition.
fn comparison(s: &[u8], at: usize, out: &mut [u64], to: usize) -> Option<Parse>
    requires { (at ≤ length s.now) × (to + 2 * (length s.now - at) ≤ length out.old) }
    ensures { Gave (λ n. comparison_at s.now at) 0 s.now at to out.old
        out.new result }
{
    let x = comparison_at(s, at)?;
    let end = put_comparison(x, out, to);
    Some(Parse {
        next: x.next,
        depth: 0,
        end,
    })
}

// "or, and, not and primary parsers call each other, remaining depth and bytes falling": the condition that stands at a
// position, its program written from word `to` on. First those parted by `or`.
#[cycle(and_at_not_at_or_at_primary_at)]
fn or_at(s: &[u8], at: usize, out: &mut [u64], to: usize) -> Option<Parse>
    requires { (at ≤ length s.now) × (to + 2 * (length s.now - at) ≤ length out.old) }
    ensures { Gave (λ n. or_at n s.now at) (4 * (length s.now - at) + 4) s.now at
        to out.old out.new result }
{
    let mut c = and_at(s, at, out, to)?;
    while let Some(next) = after(s, c.next, Word::Or) {
        let e = and_at(s, next, out, c.end)?;
        c = with_word(e, c.depth, OR, out);
    }
    Some(c)
}

// Those parted by `and`.
#[cycle(and_at_not_at_or_at_primary_at)]
fn and_at(s: &[u8], at: usize, out: &mut [u64], to: usize) -> Option<Parse>
    requires { (at ≤ length s.now) × (to + 2 * (length s.now - at) ≤ length out.old) }
    ensures { Gave (λ n. and_at n s.now at) (4 * (length s.now - at) + 3) s.now at
        to out.old out.new result }
{
    let mut c = not_at(s, at, out, to)?;
    while let Some(next) = after(s, c.next, Word::And) {
        let e = not_at(s, next, out, c.end)?;
        c = with_word(e, c.depth, AND, out);
    }
    Some(c)
}

// One behind `not`, or a primary.
#[cycle(and_at_not_at_or_at_primary_at)]
fn not_at(s: &[u8], at: usize, out: &mut [u64], to: usize) -> Option<Parse>
    requires { (at ≤ length s.now) × (to + 2 * (length s.now - at) ≤ length out.old) }
    ensures { Gave (λ n. not_at n s.now at) (4 * (length s.now - at) + 2) s.now at
        to out.old out.new result }
{
    let Some(next) = after(s, at, Word::Not) else {
        return primary_at(s, at, out, to);
    };
    let c = not_at(s, next, out, to)?;
    Some(with_word(c, 0, NOT, out))
}

// A comparison, or a condition in parentheses.
#[cycle(and_at_not_at_or_at_primary_at)]
fn primary_at(s: &[u8], at: usize, out: &mut [u64], to: usize) -> Option<Parse>
    requires { (at ≤ length s.now) × (to + 2 * (length s.now - at) ≤ length out.old) }
    ensures { Gave (λ n. primary_at n s.now at) (4 * (length s.now - at) + 1) s.now
        at to out.old out.new result }
{
    let Some(next) = after(s, at, Word::Open) else {
        return comparison(s, at, out, to);
    };
    let c = or_at(s, next, out, to)?;
    closed(s, c)
}

// The condition that stands at a position, its program written from the first word on.
pub fn condition_at(s: &[u8], at: usize, out: &mut [u64]) -> Option<Parse>
    requires { (at ≤ length s.now) × (2 * length s.now ≤ length out.old) }
    ensures { Shows s.now at 0 out.old out.new result
        (condition_at s.now at) }
{
    or_at(s, at, out, 0)
}

// The items that a text asks for.
#[derive(Clone, Copy)]
pub struct Items {
    // How many, and the position of the text behind the last.
    pub count: usize,
    pub next: usize,
}

// The items that stand at a position, two words each (the letter of the variable and the number of the name), from the
// first word on.
fn items_at(s: &[u8], at: usize, out: &mut [u64]) -> Option<Items>
    requires { (at ≤ length s.now) × (2 * length s.now ≤ length out.old) }
    ensures { ItemsShow s.now at out.old out.new result
        (items_at (length s.now) s.now at) }
{
    let mut here: usize = at;
    let mut n: usize = 0;
    loop {
        let Token::ItemAt(letter, name, mid) = token_at(s, here) else {
            return None;
        };
        let place: usize = put(out, 2 * n, letter_word(letter));
        put(out, place, name);
        n += 1;
        let Some(next) = after(s, mid, Word::Comma) else {
            return Some(Items {
                count: n,
                next: mid,
            });
        };
        here = next;
    }
}

// What a text says: its items stand in the first 2 * items words, the program of its condition behind them.
#[derive(Clone, Copy)]
pub struct Text {
    pub items: usize,
    // The depth of the parentheses of its condition, where it has one.
    pub depth: Option<usize>,
    // The place behind the last word.
    pub end: usize,
}

// Whether only spaces stand from a position on.
fn is_end(s: &[u8], at: usize) -> bool
    requires { at ≤ length s.now }
    ensures { result ≡ is_at_end (token_at s.now at) }
{
    let t = token_at(s, at);
    matches!(t, Token::AtEnd)
}

// What was read up to a position, if only spaces stand behind it.
fn text_end(s: &[u8], at: usize, t: Text) -> Option<Text>
    requires { at ≤ length s.now }
    ensures { result ≡ text_if (is_at_end (token_at s.now at)) t }
{
    if is_end(s, at) { Some(t) } else { None }
}

// Reads a text into words, two to a byte at most: what the grammar says of it, where the grammar has it.
pub fn read_text(s: &[u8], out: &mut [u64]) -> Option<Text>
    requires { 2 * length s.now ≤ length out.old }
    ensures { TextShows out.old out.new result (parse s.now) }
{
    let first = after(s, 0, Word::Retrieve)?;
    let second = after(s, first, Word::Open)?;
    let list = items_at(s, second, out)?;
    let fourth = after(s, list.next, Word::Close)?;
    let from: usize = 2 * list.count;
    let Some(wanted) = after(s, fourth, Word::Where) else {
        let plain = Text {
            items: list.count,
            depth: None,
            end: from,
        };
        return text_end(s, fourth, plain);
    };
    let c = or_at(s, wanted, out, from)?;
    let whole = Text {
        items: list.count,
        depth: Some(c.depth),
        end: c.end,
    };
    text_end(s, c.next, whole)
}
