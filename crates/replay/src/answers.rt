// What a call answers, and how that is printed.
use std::fmt;
use words::Word;

#[derive(Drop, PartialEq, Eq, Debug)]
pub enum Answer {
    Made,
    // How many indices entered the mask, and how many left it.
    Report(usize, usize),
    Flag(bool),
    Count(usize),
    // The index that was found, if there is one.
    Found(Option<usize>),
    Numbers(Vec<usize>),
    // A mask's domain, and then the words that it takes.
    Picture(Vec<Word>),
    // The words behind the mask's own are not what they were.
    Spoilt,
}

impl fmt::Display for Answer {
    fn fmt<W: fmt::Write>(&self, f: &mut fmt::Formatter<W>) -> fmt::Result {
        match self {
            Answer::Made => f.write_str("made"),
            Answer::Report(entered, left) => write!(f, "{entered} {left}"),
            Answer::Flag(flag) => write!(f, "{flag}"),
            Answer::Count(count) => write!(f, "{count}"),
            Answer::Found(Some(index)) => write!(f, "{index}"),
            Answer::Found(None) => f.write_str("none"),
            Answer::Numbers(numbers) => show_numbers(numbers, f),
            Answer::Picture(numbers) => show_numbers(numbers, f),
            Answer::Spoilt => f.write_str("spoilt"),
        }
    }
}

// Each number after the first follows a space.
fn show_numbers<N: fmt::Display, W: fmt::Write>(
    numbers: &[N],
    f: &mut fmt::Formatter<W>,
) -> fmt::Result {
    let Some((first, rest)) = numbers.split_first() else {
        return f.write_str("none");
    };
    write!(f, "{first}")?;
    for number in rest {
        write!(f, " {number}")?;
    }
    Ok(())
}
