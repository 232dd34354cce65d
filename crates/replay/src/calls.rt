// Reading a line: the call that it makes.
ghost use Rattle.std.specs.Prelude.{◌≡◌, Some, None};
ghost use Rattle.replay.specs.Lines.{Number, digit, digits, kind_name, Spelt, Reads, Says, FirstWords, Asks};

use crate::fault::Fault;
use words::Table;

// No mask is made for a domain past this one, whose words take half a gigabyte.
const LARGEST_DOMAIN: usize = 1 << 32;

#[derive(Clone, Copy, PartialEq, Eq, Debug)]
pub enum Kind {
    Dense,
}

// A mask to be made, with every index of its domain or none.
#[derive(Clone, Copy, PartialEq, Eq, Debug)]
pub struct NewMask {
    pub kind: Kind,
    pub domain: usize,
    pub full: bool,
}

// A change of one mask. It is no mask::Call, which may name an operand: these four never need one.
#[derive(Clone, Copy, PartialEq, Eq, Debug)]
pub enum Change {
    Insert(usize),
    Remove(usize),
    Clear,
    InsertAll,
}

// A change of one mask by another.
#[derive(Clone, Copy, PartialEq, Eq, Debug)]
pub enum Combination {
    Union,
    Intersect,
    Subtract,
    UnionNot,
    CloneFrom,
    Tabled(Table),
}

// What a mask of any kind is asked.
#[derive(Clone, Copy, PartialEq, Eq, Debug)]
pub enum Question {
    Contains(usize),
    Empty,
    Count,
    Next(usize),
    List,
}

// A call on a mask. An operand is named by its number.
#[derive(Clone, Copy, PartialEq, Eq, Debug)]
pub enum Call {
    Make(NewMask),
    Change(Change),
    Combine(Combination, usize),
    Ask(Question),
    Loose(usize),
    Superset(usize),
    Equal(usize),
    Picture,
}

// A call on the mask of that number.
#[derive(Clone, Copy, PartialEq, Eq, Debug)]
pub struct Request {
    pub mask: usize,
    pub call: Call,
}

// What a line asks for: nothing if it is blank or a comment.
pub fn read_line(text: &str) -> Result<Option<Request>, Fault>
    ensures { Asks text.now result }
{
    let text = text.trim();
    if text.is_empty() || text.starts_with('#') {
        return Ok(None);
    }
    let request = read_words(Words::of(text)).ok_or(Fault::Text)?;
    Ok(Some(request))
}

// The first words of a line: the call's name, the mask's number, and at most two words after it. A fifth is one too many.
#[derive(Clone, Copy)]
struct Words<'a> {
    name: Option<&'a str>,
    mask: Option<&'a str>,
    number: Option<&'a str>,
    word: Option<&'a str>,
    more: Option<&'a str>,
}

impl<'a> Words<'a> {
    fn of(text: &'a str) -> Words<'a>
        ensures { FirstWords text.now result }
    {
        let mut words = text.split_whitespace();
        Words {
            name: words.next(),
            mask: words.next(),
            number: words.next(),
            word: words.next(),
            more: words.next(),
        }
    }
}

fn read_words(words: Words<'_>) -> Option<Request>
    ensures { Reads (Says words.entry) result }
{
    let mask = read_number(words.mask?)?;
    let name = words.name?;
    let call = match (words.number, words.word, words.more) {
        (None, None, None) => read_alone(name)?,
        (Some(number), None, None) => read_with_number(name, read_number(number)?)?,
        (Some(number), Some(word), None) => read_with_word(name, read_number(number)?, word)?,
        _ => return None,
    };
    Some(Request { mask, call })
}

// A call that names nothing but its mask.
fn read_alone(name: &str) -> Option<Call>
    ensures { Reads (Spelt name.now None None) result }
{
    match name {
        "clear" => Some(Call::Change(Change::Clear)),
        "insert_all" => Some(Call::Change(Change::InsertAll)),
        "empty" => Some(Call::Ask(Question::Empty)),
        "count" => Some(Call::Ask(Question::Count)),
        "list" => Some(Call::Ask(Question::List)),
        "picture" => Some(Call::Picture),
        _ => None,
    }
}

// A call with an index, or with the number of another mask.
fn read_with_number(name: &str, number: usize) -> Option<Call>
    ensures { Reads (Spelt name.now (Some number) None) result }
{
    match name {
        "insert" => Some(Call::Change(Change::Insert(number))),
        "remove" => Some(Call::Change(Change::Remove(number))),
        "contains" => Some(Call::Ask(Question::Contains(number))),
        "loose" => Some(Call::Loose(number)),
        "next" => Some(Call::Ask(Question::Next(number))),
        "union" => Some(Call::Combine(Combination::Union, number)),
        "intersect" => Some(Call::Combine(Combination::Intersect, number)),
        "subtract" => Some(Call::Combine(Combination::Subtract, number)),
        "union_not" => Some(Call::Combine(Combination::UnionNot, number)),
        "clone_from" => Some(Call::Combine(Combination::CloneFrom, number)),
        "superset" => Some(Call::Superset(number)),
        "equal" => Some(Call::Equal(number)),
        _ => None,
    }
}

// A call with a number and a word: a mask's making, or a table.
fn read_with_word(name: &str, number: usize, word: &str) -> Option<Call>
    ensures { Reads (Spelt name.now (Some number) (Some word.now)) result }
{
    match name {
        "dense" => read_make(Kind::Dense, number, word),
        "table" => Some(Call::Combine(Combination::Tabled(read_table(word)?), number)),
        _ => None,
    }
}

fn read_make(kind: Kind, domain: usize, filling: &str) -> Option<Call>
    ensures { Reads (Spelt (kind_name kind) (Some domain) (Some filling.now)) result }
{
    if domain > LARGEST_DOMAIN {
        return None;
    }
    let full = match filling {
        "empty" => false,
        "filled" => true,
        _ => return None,
    };
    Some(Call::Make(NewMask { kind, domain, full }))
}

// A table's four bits, in the order of its fields.
fn read_table(word: &str) -> Option<Table>
    ensures { Reads (λ t. word.now ≡ digits t) result }
{
    match word.as_bytes() {
        [neither, operand_only, own_only, both] => Some(Table {
            neither: read_bit(*neither)?,
            operand_only: read_bit(*operand_only)?,
            own_only: read_bit(*own_only)?,
            both: read_bit(*both)?,
        }),
        _ => None,
    }
}

fn read_bit(byte: u8) -> Option<bool>
    ensures { Reads (λ b. byte ≡ digit b) result }
{
    match byte {
        b'0' => Some(false),
        b'1' => Some(true),
        _ => None,
    }
}

// A decimal number of 64 bits. `splice` reads one so too; a crate for one line would be no plainer.
fn read_number(word: &str) -> Option<usize>
    ensures { Number word.now result }
{
    word.parse().ok()
}
