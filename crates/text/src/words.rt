//! The words of a line.
use crate::deed::Deed;
use record::limits::HIGHEST_CLIENT;
use std::fmt;
use std::str::{FromStr, SplitWhitespace};

/// The highest number of a site: a pool has sixteen at most.
const HIGHEST_SITE: u8 = 15;

/// Which kind of object a line is about.
#[derive(Clone, Copy)]
pub enum Kept {
    Titles,
    Slots,
}

impl Kept {
    /// The kind that a word names.
    pub fn named(word: &str) -> Option<Kept> {
        match word {
            "titles" => Some(Kept::Titles),
            "slots" => Some(Kept::Slots),
            _ => None,
        }
    }
}

impl fmt::Display for Kept {
    fn fmt<W: fmt::Write>(&self, f: &mut fmt::Formatter<W>) -> fmt::Result {
        f.write_str(match self {
            Kept::Titles => "titles",
            Kept::Slots => "slots",
        })
    }
}

/// Why a line cannot be read.
#[derive(Clone, Copy)]
pub enum Unreadable {
    NoCommand,
    NoStep,
    NoObject,
    NoClient,
    NoClientAlone,
    NoSite,
    NoDeed,
    NoNumber,
    NoHex,
    NoOperation,
    NoNonce,
    TooMuch,
}

impl fmt::Display for Unreadable {
    fn fmt<W: fmt::Write>(&self, f: &mut fmt::Formatter<W>) -> fmt::Result {
        f.write_str(match self {
            Unreadable::NoCommand => "no such command",
            Unreadable::NoStep => "a step begins with titles or slots",
            Unreadable::NoObject => "titles or slots was expected",
            Unreadable::NoClient => "a client's number from 0 to 15, or back, was expected",
            Unreadable::NoClientAlone => "a client's number from 0 to 15 was expected",
            Unreadable::NoSite => "a site's number from 0 to 15 was expected",
            Unreadable::NoDeed =>
                "the words for titles are issue, transfer, surrender and look, for slots move and look",
            Unreadable::NoNumber => "a number is missing, is none, or is too large",
            Unreadable::NoHex => "bytes in hexadecimal, or - for none, were expected",
            Unreadable::NoOperation => "an operation is 16 bytes, written as 32 hexadecimal digits",
            Unreadable::NoNonce => "a nonce is 8 bytes, written as 16 hexadecimal digits",
            Unreadable::TooMuch => "there are words after the end of the step",
        })
    }
}

/// A word as a number up to a highest one.
fn up_to(word: &str, highest: u8) -> Option<u8> {
    word.parse().ok().filter(|number| *number <= highest)
}

/// A word as a client's number.
pub fn as_client(word: &str) -> Option<u8> {
    up_to(word, HIGHEST_CLIENT)
}

/// A word as a site's number.
fn as_site(word: &str) -> Option<u8> {
    up_to(word, HIGHEST_SITE)
}

/// The words of a line that are still to be read.
#[derive(Drop)]
pub struct Words<'a>(SplitWhitespace<'a>);

impl<'a> Words<'a> {
    /// The words of a line.
    pub fn of(line: &'a str) -> Words<'a> {
        Words(line.split_whitespace())
    }

    /// The next word.
    pub fn next(&mut self) -> Option<&'a str> {
        self.0.next()
    }

    /// The next word as a number.
    pub fn number<T: FromStr>(&mut self) -> Result<T, Unreadable>
    where
        T::Err: Drop,
    {
        self.next()
            .and_then(|word| word.parse().ok())
            .ok_or(Unreadable::NoNumber)
    }

    /// The next word as a number, or the usual one where the line has ended.
    pub fn number_or<T: FromStr + Drop>(&mut self, usual: T) -> Result<T, Unreadable>
    where
        T::Err: Drop,
    {
        match self.next() {
            Some(word) => word.parse().ok().ok_or(Unreadable::NoNumber),
            None => Ok(usual),
        }
    }

    /// The next word as a client's number.
    pub fn client(&mut self) -> Result<u8, Unreadable> {
        self.next()
            .and_then(as_client)
            .ok_or(Unreadable::NoClientAlone)
    }

    /// The next word as a site's number.
    pub fn site(&mut self) -> Result<u8, Unreadable> {
        self.next().and_then(as_site).ok_or(Unreadable::NoSite)
    }

    /// The next word as the kind of an object.
    pub fn kept(&mut self) -> Result<Kept, Unreadable> {
        self.next()
            .and_then(Kept::named)
            .ok_or(Unreadable::NoObject)
    }

    /// No word follows.
    pub fn end(&mut self) -> Result<(), Unreadable> {
        match self.next() {
            None => Ok(()),
            Some(_) => Err(Unreadable::TooMuch),
        }
    }

    /// What is done to titles.
    fn title_deed(&mut self, word: &str) -> Result<Deed, Unreadable> {
        let title = self.number()?;
        match word {
            "issue" => Ok(Deed::Issue {
                title,
                receiver: self.number()?,
            }),
            "transfer" => Ok(Deed::Transfer {
                title,
                receiver: self.number()?,
            }),
            "surrender" => Ok(Deed::Surrender { title }),
            "look" => Ok(Deed::Title { title }),
            _ => Err(Unreadable::NoDeed),
        }
    }

    /// What is done to slots.
    fn slot_deed(&mut self, word: &str) -> Result<Deed, Unreadable> {
        let account = self.number()?;
        match word {
            "move" => Ok(Deed::Move {
                account,
                amount: self.number()?,
            }),
            "look" => Ok(Deed::Account { account }),
            _ => Err(Unreadable::NoDeed),
        }
    }

    /// What is done to an object, in words: the first of them, and those that follow it.
    pub fn deed(&mut self, kept: Kept, word: &str) -> Result<Deed, Unreadable> {
        match kept {
            Kept::Titles => self.title_deed(word),
            Kept::Slots => self.slot_deed(word),
        }
    }
}
