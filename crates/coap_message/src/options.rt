//! Options, and lists of them in order (RFC 7252, 3.1), borrowed as the bytes that encode them.
ghost use Rattle.std.specs.Prelude.{◌≡◌, ◌<◌, ◌≤◌, ◌^◌, ◌++◌, [], None, ◌↔◌, IsTrue, IfOk, IfSome, OnErr, OnOk, length, option_map};
ghost use Rattle.coap_message.specs.Spelling.{options_spelling};
ghost use Rattle.coap_message.specs.Reading.{options_at};
ghost use Rattle.coap_message.specs.Options.{AreOptions, from_number, values_of};
ghost use Rattle.coap_message.specs.Parsing.{parsed};
ghost use Rattle.coap_message.specs.ShortRun.{ShortRun, ShortPiece};
ghost use Rattle.coap_message.specs.SpelledOptions.{SplitFrom};

use crate::error::OutOfMemory;
use crate::option_list::OptionList;
use crate::pieces::Pieces;
use crate::reading::{EXTENDED, Parsed, is_option, read_option, read_payload};
use crate::seq::Seq;
use std::alloc::Global;
use std::marker::Model;

/// An option: a number and a value (RFC 7252, 3.1).
#[derive(Drop)]
pub struct Opt {
    pub number: u16,
    pub value: Seq<u8>,
}

/// An option whose value is borrowed.
#[derive(Clone, Copy)]
pub struct OptRef<'a> {
    pub number: u16,
    pub value: &'a [u8],
}

/// An iterator over the remaining options. A contract sees the list.
#[derive(Drop)]
pub struct OptRefs<'a> {
    before: u16,
    rest: &'a [u8],
}

impl<'a> Model for OptRefs<'a> {
    ghost use Rattle.std.specs.Prelude.{List};
    ghost use Rattle.coap_message.specs.declared.options.Opt.{Opt};

    ghost Value = { List Opt };

    ghost use Rattle.coap_message.specs.SpelledOptions.{options_of, SpellOptions};

    ghost view = { λ s. options_of s.before s.rest.now };

    ghost invariant = { λ s. SpellOptions s.before s.rest.now };
}

impl<'a> OptRefs<'a> {
    /// A copy, which continues from the same place.
    pub fn clone(&self) -> OptRefs<'a>
        ensures { result ≡ self.now }
    {
        OptRefs {
            before: self.before,
            rest: self.rest,
        }
    }

    /// The options from the first one on whose number isn't lower than `number`.
    fn from_number(self, number: u16) -> OptRefs<'a>
        ensures { result ≡ from_number number self.entry }
    {
        let mut before = self.before;
        let mut rest = self.rest;
        'below: while let Some(option) = read_option(before, rest) {
            if option.number >= number {
                return OptRefs { before, rest };
            }
            before = option.number;
            rest = option.rest;
        }
        OptRefs { before, rest }
    }

    /// Appends copies of the values of the options with this number to a list, in order.
    ///
    /// # Errors
    /// Out of memory. The list is then empty.
    pub fn append_values(self, number: u16, list: &mut Pieces) -> Result<(), OutOfMemory>
        ensures ok { OnOk result (list.new ≡ list.old ++ values_of number self.entry) }
        ensures err { OnErr result (list.new ≡ []) }
    {
        let appended = self.append_each(number, list);
        if appended.is_err() {
            list.clear();
        }
        appended
    }

    /// The same, but if memory runs out, some of them may have been appended.
    fn append_each(self, number: u16, list: &mut Pieces) -> Result<(), OutOfMemory>
        ensures { OnOk result (list.new ≡ list.old ++ values_of number self.entry) }
    {
        let mut before = self.before;
        let mut rest = self.rest;
        'options: while let Some(option) = read_option(before, rest) {
            if option.number > number {
                return Ok(());
            }
            before = option.number;
            rest = option.rest;
            if before < number {
                continue;
            }
            list.push(option.value)?;
            let (run, behind) = split_run(rest);
            list.append_spelled(run)?;
            rest = behind;
        }
        Ok(())
    }
}

impl<'a> Iterator for OptRefs<'a> {
    ghost use Rattle.std.specs.Iterator.{YieldsFirstBy, item_count};
    ghost use Rattle.coap_message.specs.OptRef.{seen};

    type Item = OptRef<'a>;

    ghost next_gives = { YieldsFirstBy seen (λ left. left) };

    ghost remaining = { item_count (λ left. left) };

    #[inline(always)]
    fn next(&mut self) -> Option<OptRef<'a>> {
        let option = read_option(self.before, self.rest)?;
        self.before = option.number;
        self.rest = option.rest;
        Some(OptRef {
            number: option.number,
            value: option.value,
        })
    }
}

/// Options in order, borrowed as the bytes that encode them. A contract sees the list.
#[derive(Drop)]
pub struct Options<'a> {
    pub(crate) bytes: &'a [u8],
    pub(crate) last: u16,
}

impl<'a> Model for Options<'a> {
    ghost use Rattle.std.specs.Prelude.{List};
    ghost use Rattle.coap_message.specs.declared.options.Opt.{Opt};

    ghost Value = { List Opt };

    ghost use Rattle.coap_message.specs.SpelledOptions.{options_of, SpellUpTo};

    ghost view = { λ a. options_of 0 a.bytes.now };

    ghost invariant = { λ a. SpellUpTo a.bytes.now a.last };
}

impl<'a> Options<'a> {
    /// No options.
    pub fn none() -> Options<'static>
        ensures { result ≡ [] }
    {
        Options {
            bytes: &[],
            last: 0,
        }
    }

    /// The same options, borrowed again.
    pub fn copied(&self) -> Options<'a>
        ensures { result ≡ self.now }
    {
        Options {
            bytes: self.bytes,
            last: self.last,
        }
    }

    /// The options one by one.
    pub fn iter(&self) -> OptRefs<'a>
        ensures list { result ≡ self.now }
        ensures in_order { AreOptions 0 self.now }
        ensures few { length self.now < 2 ^ 64 }
    {
        let _laws = self.bytes.len();
        OptRefs {
            before: 0,
            rest: self.bytes,
        }
    }

    /// The options one by one, from the first one on whose number isn't lower than `number`.
    pub fn iter_from(&self, number: u16) -> OptRefs<'a>
        ensures list { result ≡ from_number number self.now }
        ensures in_order { AreOptions 0 self.now }
        ensures few { length self.now < 2 ^ 64 }
    {
        let all = self.iter();
        if self.last < number {
            return Options::none().iter();
        }
        if number == 0 {
            return all;
        }
        all.from_number(number)
    }

    /// The first of the options whose numbers aren't lower than `number`, with the bytes that encode
    /// those which follow it.
    pub(crate) fn split_from(&self, number: u16) -> Option<Parsed<'a>>
        ensures some { IfSome result (λ first. SplitFrom number self.now (parsed first)) }
        ensures none { result ≡ None → from_number number self.now ≡ [] }
        ensures within { IfSome result (λ first. length first.value.now ≤ 65804) }
        ensures above { IfSome result (λ first. number ≤ first.number) }
        ensures in_order { AreOptions 0 self.now }
    {
        let from = self.iter_from(number);
        read_option(from.before, from.rest)
    }

    /// The bytes that encode the options.
    pub fn bytes(&self) -> &'a [u8]
        ensures { result.now ≡ options_spelling 0 self.now }
    {
        self.bytes
    }

    /// Whether there are no options.
    pub fn is_empty(&self) -> bool
        ensures { IsTrue result ↔ (self.now ≡ []) }
    {
        self.bytes.is_empty()
    }

    /// A copy, in one block of memory.
    ///
    /// # Errors
    /// Out of memory.
    pub fn to_owned(&self, alloc: Global) -> Result<OptionList, OutOfMemory>
        ensures { IfOk result (λ list. list ≡ self.now) }
    {
        Ok(OptionList {
            bytes: Seq::from_slice(alloc, self.bytes)?,
            last: self.last,
        })
    }
}

/// The options at the front, and the payload after them.
pub(crate) fn split_options(bytes: &[u8]) -> Option<(Options<'_>, &[u8])>
    ensures { option_map (λ x. (x.0, x.1.now)) result ≡ options_at 0 bytes.now }
{
    let mut before = 0;
    let mut rest = bytes;
    'options: while is_option(rest) {
        let option = read_option(before, rest)?;
        before = option.number;
        rest = option.rest;
    }
    let payload = read_payload(rest)?;
    let options = Options {
        bytes: &bytes[..bytes.len() - rest.len()],
        last: before,
    };
    Some((options, payload))
}

/// What follows a value of fewer than 13 bytes that is preceded by its length.
fn after_short(bytes: &[u8]) -> Option<&[u8]>
    ensures { IfSome result (λ rest. ShortPiece bytes.now rest.now) }
{
    let (len, behind) = bytes.split_first()?;
    let length = usize::from(*len);
    if *len >= EXTENDED || behind.len() < length {
        return None;
    }
    let (_value, rest) = behind.split_at(length);
    Some(rest)
}

/// Splits the bytes after an option: those that encode the options which follow it with the same
/// number and values of fewer than 13 bytes, without a gap, and the rest.
fn split_run(bytes: &[u8]) -> (&[u8], &[u8])
    ensures { ShortRun bytes.now result.0.now result.1.now }
{
    let mut rest = bytes;
    'run: while let Some(behind) = after_short(rest) {
        rest = behind;
    }
    bytes.split_at(bytes.len() - rest.len())
}
