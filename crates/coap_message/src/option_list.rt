//! Owned options, as the bytes that encode them (RFC 7252, 3.1), in one block of memory.
ghost use Rattle.std.specs.Prelude.{◌≡◌, ◌≢◌, ◌≤◌, ◌<◌, ◌++◌, ◌∷◌, ◌^◌, [], OnOk, OnErr, IfOk, length, take};
ghost use Rattle.coap_message.specs.Spelling.{more_of, option_spelling, options_spelling};
ghost use Rattle.coap_message.specs.Options.{option_of, AreOptions, from_number, last_number};
ghost use Rattle.coap_message.specs.Parsing.{parsed};
ghost use Rattle.std.proofs.Common.{rules};
ghost use Rattle.std.specs.Cmp.Rules.{comparing};
ghost use Rattle.coap_message.specs.SameOptions.{same_options, fed_options, same_options-Alike};

use crate::error::OutOfMemory;
use crate::options::{OptRefs, Options};
use crate::reading::Parsed;
use crate::seq::Seq;
use crate::writing::bits;
use std::alloc::Global;
use std::hash::{Hash, Hasher};
use std::marker::Model;

/// Options in order, stored as the bytes that encode them. A contract sees the list.
#[derive(Drop)]
pub struct OptionList {
    pub(crate) bytes: Seq<u8>,
    pub(crate) last: u16,
}

impl Model for OptionList {
    ghost use Rattle.std.specs.Prelude.{List};
    ghost use Rattle.coap_message.specs.declared.options.Opt.{Opt};

    ghost Value = { List Opt };

    ghost use Rattle.coap_message.specs.SpelledOptions.{options_of, SpellUpTo};

    ghost view = { λ a. options_of 0 a.bytes };

    ghost invariant = { λ a. SpellUpTo a.bytes a.last };
}

impl OptionList {
    /// No options. Doesn't allocate.
    pub fn new(alloc: Global) -> OptionList
        ensures { result ≡ [] }
    {
        OptionList {
            bytes: Seq::new(alloc),
            last: 0,
        }
    }

    /// No options, with room for those that `bytes` bytes encode.
    ///
    /// # Errors
    /// Out of memory.
    pub fn with_room(alloc: Global, bytes: usize) -> Result<OptionList, OutOfMemory>
        ensures { IfOk result (λ list. list ≡ []) }
    {
        Ok(OptionList {
            bytes: Seq::with_capacity(alloc, bytes)?,
            last: 0,
        })
    }

    /// The options, borrowed.
    pub fn lent(&self) -> Options<'_>
        ensures { result ≡ self.now }
    {
        Options {
            bytes: self.bytes.as_slice(),
            last: self.last,
        }
    }

    /// The options one by one.
    pub fn iter(&self) -> OptRefs<'_>
        ensures list { result ≡ self.now }
        ensures in_order { AreOptions 0 self.now }
        ensures few { length self.now < 2 ^ 64 }
    {
        self.lent().iter()
    }

    /// The number of bytes held: those of the encoding.
    pub fn size(&self) -> usize
        ensures { result ≡ length (options_spelling 0 self.now) }
    {
        self.bytes.len()
    }

    /// Removes all options, and keeps their room.
    pub fn clear(&mut self)
        ensures { self.new ≡ [] }
    {
        self.bytes.clear();
        self.last = 0;
    }

    /// Gives spare room back, if the allocator takes it.
    pub fn shrink_to_fit(&mut self)
        ensures { self.new ≡ self.old }
    {
        self.bytes.shrink_to_fit();
    }

    /// Appends an option to the others.
    ///
    /// # Errors
    /// Out of memory.
    pub fn push(&mut self, number: u16, value: &[u8]) -> Result<(), OutOfMemory>
        requires in_order { last_number 0 self.old ≤ number }
        requires within { length value.now ≤ 65804 }
        ensures ok { OnOk result (self.new ≡ self.old ++ option_of number value.now ∷ []) }
        ensures err { OnErr result (self.new ≡ self.old) }
    {
        let held = self.bytes.len();
        if let Err(refused) = add_option(&mut self.bytes, self.last, number, value) {
            self.bytes.truncate(held);
            return Err(refused);
        }
        self.last = number;
        Ok(())
    }

    /// Appends those of other options whose numbers aren't lower than `number`: all behind the first
    /// of them in one piece.
    ///
    /// # Errors
    /// Out of memory.
    pub fn append_from(&mut self, options: &Options<'_>, number: u16) -> Result<(), OutOfMemory>
        requires in_order { last_number 0 self.old ≤ number }
        ensures ok { OnOk result (self.new ≡ self.old ++ from_number number options.now) }
        ensures err { OnErr result (self.new ≡ self.old) }
        ensures some { OnErr result (from_number number options.now ≢ []) }
        ensures options { AreOptions 0 options.now }
    {
        let Some(first) = options.split_from(number) else {
            return Ok(());
        };
        let held = self.bytes.len();
        if let Err(refused) = add_run(&mut self.bytes, self.last, first) {
            self.bytes.truncate(held);
            return Err(refused);
        }
        self.last = options.last;
        Ok(())
    }
}

/// Appends an option after one with the number `before`, and the bytes that encode those which
/// follow it. If allocation fails, part of them may have been appended.
fn add_run(bytes: &mut Seq<u8>, before: u16, first: Parsed<'_>) -> Result<(), OutOfMemory>
    requires above { before ≤ first.number }
    requires within { length first.value.now ≤ 65804 }
    ensures ok { OnOk result (bytes.new ≡ (bytes.old ++ option_spelling before (parsed first.entry).0)
        ++ first.entry.rest.now) }
    ensures err { OnErr result (take (length bytes.old) bytes.new ≡ bytes.old) }
{
    add_option(bytes, before, first.number, first.value)?;
    add_value(bytes, first.rest)
}

/// Appends the bytes that extend a delta or a length.
fn add_more(bytes: &mut Seq<u8>, n: usize) -> Result<(), OutOfMemory>
    requires { n ≤ 65804 }
    ensures ok { OnOk result (bytes.new ≡ bytes.old ++ more_of n) }
    ensures err { OnErr result (bytes.new ≡ bytes.old) }
{
    match n {
        0..=12 => Ok(()),
        13..=268 => bytes.push((n - 13) as u8),
        _ => bytes.append(&((n - 269) as u16).to_be_bytes()),
    }
}

/// Appends an option after one with the number `before`. If allocation fails, part of it may have
/// been appended.
fn add_option(
    bytes: &mut Seq<u8>,
    before: u16,
    number: u16,
    value: &[u8],
) -> Result<(), OutOfMemory>
    requires above { before ≤ number }
    requires within { length value.now ≤ 65804 }
    ensures ok { OnOk result
        (bytes.new ≡ bytes.old ++ option_spelling before (option_of number value.now)) }
    ensures err { OnErr result (take (length bytes.old) bytes.new ≡ bytes.old) }
{
    let delta = usize::from(number - before);
    let len = value.len();
    bytes.push(16 * bits(delta) + bits(len))?;
    add_more(bytes, delta)?;
    add_more(bytes, len)?;
    add_value(bytes, value)
}

/// Appends the bytes of a value.
fn add_value(bytes: &mut Seq<u8>, value: &[u8]) -> Result<(), OutOfMemory>
    ensures ok { OnOk result (bytes.new ≡ bytes.old ++ value.now) }
    ensures err { OnErr result (bytes.new ≡ bytes.old) }
{
    if value.is_empty() {
        return Ok(());
    }
    bytes.append(value)
}

impl Clone for OptionList {
    ghost is_clone = { λ x y. x ≡ y };

    fn clone(&self) -> Result<Self, std::alloc::AllocError> {
        Ok(OptionList {
            bytes: self.bytes.clone()?,
            last: self.last,
        })
    }
}

impl PartialEq for OptionList {
    ghost eq = { same_options };

    ghost laws = { Prim.search (comparing, rules) };

    fn eq(&self, other: &OptionList) -> bool {
        self.bytes == other.bytes
    }
}

impl Eq for OptionList {
    ghost laws = { Prim.search (comparing, rules) };
}

impl Hash for OptionList {
    ghost hash_input = { fed_options };

    ghost respects_eq = { same_options-Alike.fed };

    fn hash<H: Hasher>(&self, state: &mut H) {
        state.write(self.bytes.as_slice());
    }
}
