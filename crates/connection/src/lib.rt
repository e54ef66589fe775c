// What an answer to a query over a book is: the definitions that say it are in specs/, the functions that find it in
// `answer`.
#![tactic(auto)]

ghost use Rattle.std.specs.Prelude.{◌≡◌};
ghost use Rattle.connection.specs.Answering.{refused};

use refusals::Refusal;

// What an answer comes to: why it is refused, if it is; the count of rows; the serial number; the bytes of the query that
// were read.
#[derive(Clone, Copy)]
pub struct Answer {
    pub refusal: Option<Refusal>,
    pub rows: usize,
    pub serial: u32,
    pub read: usize,
}

// A refusal by its number: why, no rows, the serial unchanged, no bytes read.
#[tactic(auto, unfolding(crate::specs::Answering::refused, refusals::specs::Refusals::refusal_of_number, refusals::specs::Refusals::refusals))]
pub fn refused(number: u8, serial: u32) -> Answer
    ensures { result ≡ refused number serial }
{
    Answer {
        refusal: Refusal::from_number(u32::from(number)),
        rows: 0,
        serial,
        read: 0,
    }
}
