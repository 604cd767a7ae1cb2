ghost use Rattle.std.specs.Prelude.{◌≡◌};
ghost use Rattle.records.specs.Records.{zeros as zeros_of, if_zeros as with_zeros, signed, relation_of, term_of, statement_of, theory_of, eight_of, record_of};

use crate::faults::RecordFault;

// The relation of a predicate or a goal, by its letter: `=`, `!`, `L` or `<`.
#[derive(Clone, Copy, Default)]
pub enum Relation {
    #[default]
    Equal,
    Different,
    AtMost,
    Below,
}

// The theory of a question; differences come with their number of variables.
#[derive(Clone, Copy)]
pub enum TheoryName {
    Terms,
    Differences(u8),
}

// A predicate or a goal as it was written, before a theory has looked at it.
#[derive(Clone, Copy, Default)]
pub struct Statement {
    pub relation: Relation,
    pub left: u8,
    pub right: u8,
    pub constant: i8,
}

// What a record says; `left` and `right` of a term are its arguments, also those that it does not use.
#[derive(Clone, Copy)]
pub enum Record {
    Term {
        arity: u8,
        symbol: u16,
        left: u8,
        right: u8,
    },
    Predicate(Statement),
    Goal(Statement),
    Question(TheoryName),
    Abstraction(TheoryName),
}

// How many bytes a record has.
const RECORD: usize = 8;

// The record in the first eight bytes.
pub fn read(bytes: &[u8]) -> Result<Record, RecordFault>
    ensures { result ≡ record_of bytes.now }
{
    let eight = bytes.first_chunk::<RECORD>().ok_or(RecordFault::Cut)?;
    Record::try_from(*eight)
}

// What eight bytes say, by the letter in the first.
impl TryFrom<[u8; RECORD]> for Record {
    type Error = RecordFault;

    ghost try_from_gives = { λ bytes read. read ≡ eight_of bytes };

    fn try_from(bytes: [u8; RECORD]) -> Result<Record, RecordFault> {
        match bytes {
            [b'T', ..] => read_term(bytes),
            [b'P', ..] => Ok(Record::Predicate(bytes.try_into()?)),
            [b'E', ..] => Ok(Record::Goal(bytes.try_into()?)),
            [b'A', ..] => Ok(Record::Question(bytes.try_into()?)),
            [b'W', ..] => Ok(Record::Abstraction(bytes.try_into()?)),
            _ => Err(RecordFault::UnknownLetter),
        }
    }
}

// A term: its argument count, its symbol with the high byte first, and its arguments.
fn read_term(bytes: [u8; RECORD]) -> Result<Record, RecordFault>
    ensures { result ≡ term_of bytes }
{
    let [_, arity, high, low, left, right, ..] = bytes;
    let term = Record::Term {
        arity,
        symbol: u16::from_be_bytes([high, low]),
        left,
        right,
    };
    if_zeros(&bytes[6..], term)
}

// A predicate or a goal: its relation, its sides and its constant in two's complement.
impl TryFrom<[u8; RECORD]> for Statement {
    type Error = RecordFault;

    ghost try_from_gives = { λ bytes read. read ≡ statement_of bytes };

    fn try_from(bytes: [u8; RECORD]) -> Result<Statement, RecordFault> {
        let [_, letter, left, right, constant, ..] = bytes;
        let statement = Statement {
            relation: letter.try_into()?,
            left,
            right,
            constant: read_signed(constant),
        };
        if_zeros(&bytes[5..], statement)
    }
}

// A byte in two's complement.
fn read_signed(byte: u8) -> i8
    ensures { result ≡ signed byte }
{
    byte.cast_signed()
}

// The relation that a letter names.
impl TryFrom<u8> for Relation {
    type Error = RecordFault;

    ghost try_from_gives = { λ letter read. read ≡ relation_of letter };

    fn try_from(letter: u8) -> Result<Relation, RecordFault> {
        match letter {
            b'=' => Ok(Relation::Equal),
            b'!' => Ok(Relation::Different),
            b'L' => Ok(Relation::AtMost),
            b'<' => Ok(Relation::Below),
            _ => Err(RecordFault::UnknownLetter),
        }
    }
}

// The theory that a letter names, for differences with the number of variables behind it.
impl TryFrom<[u8; RECORD]> for TheoryName {
    type Error = RecordFault;

    ghost try_from_gives = { λ bytes read. read ≡ theory_of bytes };

    fn try_from(bytes: [u8; RECORD]) -> Result<TheoryName, RecordFault> {
        match bytes {
            [_, b'U', ..] => if_zeros(&bytes[2..], TheoryName::Terms),
            [_, b'D', variables, ..] => {
                if_zeros(&bytes[3..], TheoryName::Differences(variables))
            }
            _ => Err(RecordFault::UnknownLetter),
        }
    }
}

// What was read, if the bytes that it does not use are zero.
fn if_zeros<X: Drop>(unused: &[u8], value: X) -> Result<X, RecordFault>
    ensures { result ≡ with_zeros unused.now value }
{
    zeros(unused).then_some(value).ok_or(RecordFault::NotZero)
}

// Whether every byte is zero.
fn zeros(bytes: &[u8]) -> bool
    ensures { result ≡ zeros_of bytes.now }
{
    bytes.iter().all(|byte| *byte == 0)
}
