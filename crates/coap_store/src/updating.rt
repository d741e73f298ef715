//! Options that replace others by number (RFC 7252, 5.9.1.3).
ghost use Rattle.std.specs.Prelude.{◌≡◌, ◌∷◌, ◌++◌, [], IfOk, OnOk};
ghost use Rattle.coap_message.specs.Options.{AreOptions, last_number};
ghost use Rattle.coap_store.specs.Renewing.{above, below, from, max_age_option, updated, with_max_age};

use coap_message::{OptRefs, OptionList, Options, OutOfMemory, without_zeros};
use coap_option::numbers;
use std::alloc::Global;

/// The options with one Max-Age of `seconds` seconds, replacing any of their own.
///
/// # Errors
/// Out of memory.
pub fn with_max_age(
    alloc: Global,
    seconds: u64,
    options: &Options<'_>,
) -> Result<OptionList, OutOfMemory>
    ensures { IfOk result (λ list. list ≡ with_max_age seconds options.now) }
{
    let max_age = max_age_list(alloc, seconds)?;
    updated(alloc, &max_age.lent(), options)
}

/// A Max-Age of this many seconds.
#[tactic(auto, unfolding(coap_message::specs::Uint::uint_spelling))]
fn max_age_list(alloc: Global, seconds: u64) -> Result<OptionList, OutOfMemory>
    ensures { IfOk result (λ list. list ≡ max_age_option seconds ∷ []) }
{
    let bytes = seconds.to_be_bytes();
    let mut list = OptionList::new(alloc);
    list.push(numbers::MAX_AGE, without_zeros(&bytes))?;
    Ok(list)
}

/// The newer options, in their places among the older ones, replacing all older ones with their
/// numbers. They stand in one block of just their bytes.
///
/// # Errors
/// Out of memory.
pub fn updated(
    alloc: Global,
    newer: &Options<'_>,
    older: &Options<'_>,
) -> Result<OptionList, OutOfMemory>
    ensures { IfOk result (λ list. list ≡ updated newer.now older.now) }
{
    let mut list = OptionList::new(alloc);
    let mut left = older.iter();
    for option in newer.iter() {
        left = push_below(&mut list, left, option.number)?;
        list.push(option.number, option.value)?;
        left = above(left, option.number);
    }
    push_all(&mut list, left)?;
    list.shrink_to_fit();
    Ok(list)
}

/// Appends the options with lower numbers than this. Returns those that are left.
fn push_below<'a>(
    list: &mut OptionList,
    left: OptRefs<'a>,
    number: u16,
) -> Result<OptRefs<'a>, OutOfMemory>
    requires { AreOptions (last_number 0 list.old) left }
    ensures pushed { OnOk result (list.new ≡ list.old ++ below number left.entry) }
    ensures rest { IfOk result (λ rest. rest ≡ from number left.entry) }
{
    let mut left = left;
    'below: loop {
        let mut ahead = left.clone();
        match ahead.next() {
            Some(option) => {
                if option.number >= number {
                    return Ok(left);
                }
                list.push(option.number, option.value)?;
                left = ahead;
            }
            None => return Ok(left),
        }
    }
}

/// The options after those with a number.
fn above<'a>(left: OptRefs<'a>, number: u16) -> OptRefs<'a>
    requires { AreOptions number left }
    ensures { result ≡ above number left.entry }
{
    let mut left = left;
    'same: loop {
        let mut ahead = left.clone();
        match ahead.next() {
            Some(option) => {
                if option.number != number {
                    return left;
                }
                left = ahead;
            }
            None => return left,
        }
    }
}

/// Appends all the options that are left.
fn push_all(list: &mut OptionList, left: OptRefs<'_>) -> Result<(), OutOfMemory>
    requires { AreOptions (last_number 0 list.old) left }
    ensures { OnOk result (list.new ≡ list.old ++ left.entry) }
{
    for option in left {
        list.push(option.number, option.value)?;
    }
    Ok(())
}
