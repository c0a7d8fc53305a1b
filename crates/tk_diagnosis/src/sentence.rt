//! Sentences about a file, with values from it.
use crate::escaped::ShownWord;
use std::fmt;
use tk_params::Key;
use tk_words::Keyword;

/// A value of a sentence, which replaces one of its `{}`.
#[derive(Clone, Copy)]
enum Value {
    Nothing,
    Number(u64),
    Integer(i64),
    Text(&'static str),
    /// The sentence's word.
    Word,
}

/// Maximum number of values of a sentence.
const VALUES: usize = 6;

/// A sentence with values, which replace its `{}` in order. At most one of them is a word of the file.
#[derive(Clone, Copy)]
pub struct Sentence {
    form: &'static str,
    values: [Value; VALUES],
    count: usize,
    word: ShownWord,
}

impl Sentence {
    /// A sentence without values. If it has any, they are added afterwards.
    pub fn of(form: &'static str) -> Sentence {
        Sentence {
            form,
            values: [Value::Nothing; VALUES],
            count: 0,
            word: ShownWord::of(b""),
        }
    }

    /// A sentence that consists only of a word of the file.
    pub fn of_word(bytes: &[u8]) -> Sentence {
        Sentence::about("{}", bytes)
    }

    /// A sentence whose first value is a word of the file.
    pub fn about(form: &'static str, word: &[u8]) -> Sentence {
        Sentence::of(form).word(word)
    }

    /// A sentence about a value of the file, or `no value` if it is empty.
    pub fn of_value(form: &'static str, bytes: &[u8]) -> Sentence {
        if bytes.is_empty() {
            Sentence::of("no value")
        } else {
            Sentence::about(form, bytes)
        }
    }

    /// The sentence with its next value.
    fn with(self, value: Value) -> Sentence {
        let mut sentence = self;
        if let Some(place) = sentence.values.get_mut(self.count) {
            *place = value;
        }
        sentence.count = self.count.saturating_add(1);
        sentence
    }

    /// The sentence with a number as its next value.
    pub fn number(self, number: u64) -> Sentence {
        self.with(Value::Number(number))
    }

    /// The sentence with numbers as its next values.
    pub fn numbers<const N: usize>(self, numbers: [u64; N]) -> Sentence {
        let mut sentence = self;
        for number in numbers {
            sentence = sentence.number(number);
        }
        sentence
    }

    /// The sentence with an integer, which can be negative, as its next value.
    pub fn integer(self, number: i64) -> Sentence {
        self.with(Value::Integer(number))
    }

    /// The sentence with a keyword as its next value.
    pub fn keyword(self, word: Keyword) -> Sentence {
        self.with(Value::Text(word.word()))
    }

    /// The sentence with a key of parameter files as its next value.
    pub fn key(self, key: Key) -> Sentence {
        self.with(Value::Text(key.word()))
    }

    /// The sentence with a fixed text as its next value.
    pub fn text(self, text: &'static str) -> Sentence {
        self.with(Value::Text(text))
    }

    /// The sentence with its word as its next value.
    pub fn word(self, word: &[u8]) -> Sentence {
        let mut sentence = self.with(Value::Word);
        sentence.word = ShownWord::of(word);
        sentence
    }

    /// Writes a value.
    fn write_value<W: fmt::Write>(&self, f: &mut fmt::Formatter<W>, value: Value) -> fmt::Result {
        match value {
            Value::Nothing => Ok(()),
            Value::Number(number) => write!(f, "{number}"),
            Value::Integer(number) => write!(f, "{number}"),
            Value::Text(text) => f.write_str(text),
            Value::Word => fmt::Display::fmt(&self.word, f),
        }
    }
}

impl fmt::Display for Sentence {
    fn fmt<W: fmt::Write>(&self, f: &mut fmt::Formatter<W>) -> fmt::Result {
        let mut rest = self.form;
        for value in self.values {
            let Some((front, behind)) = rest.split_once("{}") else {
                break;
            };
            f.write_str(front)?;
            self.write_value(f, value)?;
            rest = behind;
        }
        f.write_str(rest)
    }
}
