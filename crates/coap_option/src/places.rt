//! One pass over the options of a message, each in its place: with the number of options before it
//! that have the same option number. Options come in order of number (RFC 7252, 3.1), so a pass
//! that looks for certain numbers begins and ends with those.
ghost use Rattle.std.specs.Prelude.{◌≡◌, ◌≢◌, ◌==◌, ◌+◌, ◌-◌, ◌^◌, ◌<◌, if◌then◌else◌, filter, find, map, [], IfOk, OnOk, OnErr};
ghost use Rattle.std.specs.Option.{option_map};
ghost use Rattle.coap_message.specs.OptRef.{seen};
ghost use Rattle.coap_message.specs.Options.{AreOptions};
ghost use Rattle.coap_option.specs.Passing.{HoldsWithin};
ghost use Rattle.coap_option.specs.Places.{PlacedOption, places};
ghost use Rattle.coap_option.specs.Selection.{selected};
ghost use Rattle.coap_option.specs.Table.{row_of};

use crate::table::Row;
use coap_message::{OptRef, OptRefs, OptionList, Options, OutOfMemory, Pieces};
use std::alloc::Global;
use std::marker::Model;

/// A test of an option in its place.
pub(crate) trait Test {
    ghost use Rattle.std.specs.Prelude.{Bool};
    ghost use Rattle.coap_message.specs.OptRef.{seen};

    ghost holds: { Self → PlacedOption → Bool };

    /// Whether it holds for an option that follows `before` options with the same number. The row
    /// is that of its number.
    fn holds_of(&self, option: OptRef<'_>, before: usize, row: Option<Row>) -> bool
        requires { row ≡ row_of option.number }
        ensures { result
            ≡ holds self.now (record { option = seen option.entry; before = before }) };

    /// The least and the greatest number of the options for which it can hold.
    fn numbers(&self) -> (u16, u16)
        ensures { HoldsWithin (holds self.now) result.0 result.1 };
}

/// The number of the last option passed, and how many options with it were passed. Options come in
/// order of number, so those with the same number are adjacent (RFC 7252, 3.1).
#[derive(Clone, Copy)]
pub(crate) struct Run {
    number: u16,
    count: usize,
}

impl Run {
    /// No option has been passed.
    pub(crate) fn new() -> Run
        ensures { result ≡ record { number = 0; count = 0 } }
    {
        Run {
            number: 0,
            count: 0,
        }
    }

    /// Passes an option with this number, and returns how many with the same number were passed
    /// before it.
    pub(crate) fn pass(&mut self, number: u16) -> usize
        requires { self.old.count < 2 ^ 64 - 1 }
        ensures before { result ≡ (if number == self.old.number then self.old.count else 0) }
        ensures passed { self.new ≡ record { number = number; count = result + 1 } }
    {
        let before = if number == self.number { self.count } else { 0 };
        self.number = number;
        self.count = before + 1;
        before
    }
}

/// The row of a number, which is that of the last option if that has the same number.
pub(crate) fn row_after(last: Run, row: Option<Row>, number: u16) -> Option<Row>
    requires { row ≡ row_of last.number }
    ensures { result ≡ row_of number }
{
    if number == last.number {
        row
    } else {
        Row::of(number)
    }
}

/// An iterator over the remaining options for which a test holds, in order. A contract sees the
/// list.
#[derive(Drop)]
pub(crate) struct Picked<'a, 't, T: Test> {
    left: OptRefs<'a>,
    run: Run,
    row: Option<Row>,
    test: &'t T,
}

impl<'a, 't, T: Test> Model for Picked<'a, 't, T> {
    ghost use Rattle.std.specs.Prelude.{List, ◌≡◌};
    ghost use Rattle.coap_message.specs.declared.options.Opt.{Opt};

    ghost Value = { List Opt };

    ghost use Rattle.coap_option.specs.Passing.{IsAt, picked_after};
    ghost use Rattle.coap_option.specs.Table.{row_of};

    ghost view = { λ p. picked_after (T.holds p.test.now) p.run p.left };

    ghost invariant = { λ p. IsAt p.left p.run × (p.row ≡ row_of p.run.number) };
}

impl<'a, 't, T: Test> Iterator for Picked<'a, 't, T> {
    ghost use Rattle.std.specs.Iterator.{YieldsFirstBy, item_count};
    ghost use Rattle.coap_message.specs.OptRef.{seen};

    type Item = OptRef<'a>;

    ghost next_gives = { YieldsFirstBy seen (λ left. left) };

    ghost remaining = { item_count (λ left. left) };

    fn next(&mut self) -> Option<OptRef<'a>> {
        while let Some(option) = self.left.next() {
            let (_least, greatest) = self.test.numbers();
            if option.number > greatest {
                return None;
            }
            self.row = row_after(self.run, self.row, option.number);
            let before = self.run.pass(option.number);
            if self.test.holds_of(option, before, self.row) {
                return Some(option);
            }
        }
        None
    }
}

impl<'a, 't, T: Test> Picked<'a, 't, T> {
    /// An iterator over the options for which the test holds.
    fn of(options: &Options<'a>, test: &'t T) -> Picked<'a, 't, T>
        ensures list { result ≡ selected (T.holds test.now) options.now }
        ensures in_order { AreOptions 0 (selected (T.holds test.now) options.now) }
    {
        let (least, _greatest) = test.numbers();
        Picked {
            left: options.iter_from(least),
            run: Run::new(),
            row: None,
            test,
        }
    }
}

/// The first option for which the test holds.
pub(crate) fn first<'a, T: Test>(options: &Options<'a>, test: &T) -> Option<OptRef<'a>>
    ensures { option_map seen result
        ≡ option_map (λ p. p.option) (find (T.holds test.now) (places options.now)) }
{
    let mut picked = Picked::of(options, test);
    picked.next()
}

/// Replaces the options of a list by those for which the test holds, in order.
pub(crate) fn select_into<T: Test>(
    list: &mut OptionList,
    options: &Options<'_>,
    test: &T,
) -> Result<(), OutOfMemory>
    ensures ok { OnOk result (list.new ≡ selected (T.holds test.now) options.now) }
    ensures err { OnErr result (selected (T.holds test.now) options.now ≢ []) }
{
    list.clear();
    for option in Picked::of(options, test) {
        list.push(option.number, option.value)?;
    }
    Ok(())
}

/// The options for which the test holds, in order, in no more room than they need.
pub(crate) fn select<T: Test>(
    alloc: Global,
    options: &Options<'_>,
    test: &T,
) -> Result<OptionList, OutOfMemory>
    ensures ok { IfOk result (λ list. list ≡ selected (T.holds test.now) options.now) }
    ensures err { OnErr result (selected (T.holds test.now) options.now ≢ []) }
{
    let mut list = OptionList::new(alloc);
    select_into(&mut list, options, test)?;
    list.shrink_to_fit();
    Ok(list)
}

/// Replaces the values of a list by those of the options for which the test holds, in order.
pub(crate) fn values_into<T: Test>(
    list: &mut Pieces,
    options: &Options<'_>,
    test: &T,
) -> Result<(), OutOfMemory>
    ensures ok { OnOk result
        (list.new ≡ map (λ p. p.option.value) (filter (T.holds test.now) (places options.now))) }
    ensures err { OnErr result
        (map (λ p. p.option.value) (filter (T.holds test.now) (places options.now)) ≢ []) }
{
    list.clear();
    for option in Picked::of(options, test) {
        list.push(option.value)?;
    }
    Ok(())
}
