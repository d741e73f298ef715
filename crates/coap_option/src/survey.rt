//! What a proxy wants to know of all options of a request, found out in one pass over them (RFC
//! 7252, 5.4, 5.6, 5.7 and 5.10).
ghost use Rattle.std.specs.Prelude.{◌≡◌, ◌≢◌, ◌&&◌, if◌then◌else◌, not, [], Some, None, IfOk, IfErr, OnOk, OnErr};
ghost use Rattle.coap_message.specs.OptRef.{seen};
ghost use Rattle.coap_option.specs.Classes as classes;
ghost use Rattle.coap_option.specs.Selection as selection;
ghost use Rattle.coap_option.specs.Side.{side_of};
ghost use Rattle.coap_option.specs.declared.numbers.TheConstants as numbers;
ghost use Rattle.coap_option.specs.Places.{PlacedOption, is_recognised_at};
ghost use Rattle.coap_option.specs.Screening.{first_refused};
ghost use Rattle.coap_option.specs.Selection.{is_of, key_of, tags_of};
ghost use Rattle.coap_option.specs.Survey.{IsSurvey, is_of_uri, key_from, of_none, widened, with_one};
ghost use Rattle.coap_option.specs.Table.{row_of};

use crate::classes::{is_no_cache_key, is_unsafe};
use crate::numbers;
use crate::places::{Run, row_after};
use crate::recognition::option_recognised;
use crate::screening::BadOption;
use crate::selection::{is_for_proxy, is_forwarded, tags_into};
use crate::side::Side;
use crate::table::Row;
use coap_message::{Code, MessageRef, OptRef, OptionList, OutOfMemory, Pieces};

/// The least and the greatest number of some options.
#[derive(Clone, Copy)]
pub struct Span {
    pub least: u16,
    pub greatest: u16,
}

/// The span of some options and of one more, whose number isn't lower.
fn widened(span: Option<Span>, number: u16) -> Option<Span>
    ensures { result ≡ widened span number }
{
    let least = match span {
        Some(span) => span.least,
        None => number,
    };
    Some(Span {
        least,
        greatest: number,
    })
}

// ---- what one option says

/// Whether an option with this number gives a URI, or its scheme (RFC 7252, 5.10.2).
fn is_of_uri(number: u16) -> bool
    ensures { result ≡ is_of_uri number }
{
    number == numbers::PROXY_URI || number == numbers::PROXY_SCHEME
}

/// Whether an option of a request with this code isn't forwarded, by whether it is recognised.
fn is_withheld_if(known: bool, code: Code, number: u16) -> bool
    ensures { result ≡ (known && selection.is_for_proxy code number) }
{
    known && is_for_proxy(code, number)
}

/// Whether it is part of the cache key, by whether it is forwarded.
fn is_in_key(withheld: bool, number: u16) -> bool
    ensures { result ≡ (not withheld && not (classes.is_no_cache_key number)) }
{
    !withheld && !is_no_cache_key(number)
}

/// Whether it is an ETag that is recognised in a message with this code.
fn is_tag(code: Code, option: OptRef<'_>, before: usize, row: Option<Row>) -> bool
    requires { row ≡ row_of option.number }
    ensures { result ≡ is_of (side_of code) numbers.ETAG
        (record { option = seen option.entry; before = before }) }
{
    option.number == numbers::ETAG && option_recognised(Side::of(code), option, before, row)
}

/// The span of the options that are forwarded, with one more option.
fn others_with(span: Option<Span>, number: u16, withheld: bool) -> Option<Span>
    ensures { result ≡ (if withheld then span else widened span number) }
{
    if withheld {
        span
    } else {
        widened(span, number)
    }
}

/// The number of the last option that isn't part of the cache key, with one more option.
fn outside_with(last: u16, number: u16, in_key: bool) -> u16
    ensures { result ≡ (if in_key then last else number) }
{
    if in_key { last } else { number }
}

/// What a pass over the options of a request tells, if it rejects none of them.
#[derive(Clone, Copy)]
pub struct Survey {
    /// The target is given as a URI, by a Proxy-Uri or a Proxy-Scheme (RFC 7252, 5.10.2).
    pub says_uri: bool,
    /// Some options are part of the cache key (RFC 7252, 5.4.2 and 5.6).
    pub has_key_options: bool,
    /// Some ETags are recognised (RFC 7252, 5.10.6).
    pub has_tags: bool,
    /// The options that are forwarded beside those of the target, if there are any, have numbers
    /// within this span (RFC 7252, 5.7).
    pub others: Option<Span>,
    /// The number of the last option that isn't part of the cache key, or 0 if there is none.
    pub last_outside_key: u16,
}

impl Survey {
    /// That of a request without options.
    pub fn of_none() -> Survey
        ensures { result ≡ of_none }
    {
        Survey {
            says_uri: false,
            has_key_options: false,
            has_tags: false,
            others: None,
            last_outside_key: 0,
        }
    }

    /// The number from which on all options of the request are forwarded and part of the cache key,
    /// if no option before them is: in most requests with options of the key these are the last
    /// ones. Then they needn't be looked at one by one.
    pub fn key_from(self) -> Option<u16>
        ensures { result ≡ key_from self }
    {
        match self.others {
            Some(span) if self.last_outside_key < span.least => Some(span.least),
            _ => None,
        }
    }

    /// With one more option, which isn't recognised: so it is forwarded.
    fn with_unknown(self, number: u16) -> Survey
        requires { row_of number ≡ None }
        ensures { (code : Code) (p : PlacedOption)
            → p.option.number ≡ number
            → result ≡ with_one code self p }
    {
        let in_key = is_in_key(false, number);
        Survey {
            says_uri: self.says_uri,
            has_key_options: self.has_key_options | in_key,
            has_tags: self.has_tags,
            others: widened(self.others, number),
            last_outside_key: outside_with(self.last_outside_key, number, in_key),
        }
    }

    /// With one more option of a request with this code, which follows `before` options with the
    /// same number. The row is that of its number, and `known` is whether it is recognised in a
    /// request.
    fn with(
        self,
        code: Code,
        option: OptRef<'_>,
        before: usize,
        row: Option<Row>,
        known: bool,
    ) -> Survey
        requires row { row ≡ row_of option.number }
        requires known { known
            ≡ is_recognised_at Side.Request (record { option = seen option; before = before }) }
        ensures { result
            ≡ with_one code self (record { option = seen option.entry; before = before }) }
    {
        if row.is_none() {
            return self.with_unknown(option.number);
        }
        self.with_known(code, option, before, row, known)
    }

    /// `with` for an option with any row.
    fn with_known(
        self,
        code: Code,
        option: OptRef<'_>,
        before: usize,
        row: Option<Row>,
        known: bool,
    ) -> Survey
        requires row { row ≡ row_of option.number }
        requires known { known
            ≡ is_recognised_at Side.Request (record { option = seen option; before = before }) }
        ensures { result
            ≡ with_one code self (record { option = seen option.entry; before = before }) }
    {
        let number = option.number;
        let withheld = is_withheld_if(known, code, number);
        let in_key = is_in_key(withheld, number);
        Survey {
            says_uri: self.says_uri | is_of_uri(number),
            has_key_options: self.has_key_options | in_key,
            has_tags: self.has_tags | is_tag(code, option, before, row),
            others: others_with(self.others, number, withheld),
            last_outside_key: outside_with(self.last_outside_key, number, in_key),
        }
    }

    /// Replaces the options of a list by those of the surveyed request that are part of its cache
    /// key, as `key_options_into` does, but without another pass if there are none, and in one piece
    /// if they are the last ones.
    ///
    /// # Errors
    /// Out of memory. The list is then empty.
    pub fn key_options_into(
        self,
        list: &mut OptionList,
        request: &MessageRef<'_>,
    ) -> Result<(), OutOfMemory>
        requires { IsSurvey request.now self }
        ensures ok { OnOk result (list.new ≡ key_of request.now) }
        ensures err { OnErr result (key_of request.now ≢ []) }
        ensures emptied { OnErr result (list.new ≡ []) }
    {
        list.clear();
        if !self.has_key_options {
            return Ok(());
        }
        let added = self.push_key(list, request);
        if added.is_err() {
            list.clear();
        }
        added
    }

    /// Adds to an empty list the options of the surveyed request that are part of its cache key.
    fn push_key(self, list: &mut OptionList, request: &MessageRef<'_>) -> Result<(), OutOfMemory>
        requires known { IsSurvey request.now self }
        requires empty { list.old ≡ [] }
        ensures ok { OnOk result (list.new ≡ key_of request.now) }
        ensures err { OnErr result (key_of request.now ≢ []) }
    {
        match self.key_from() {
            Some(number) => list.append_from(&request.option_list(), number),
            None => push_key_options(list, request),
        }
    }

    /// Replaces the values of a list by those of the recognised ETags of the surveyed request, as
    /// `tags_into` does, but without another pass if there are none.
    ///
    /// # Errors
    /// Out of memory. The list is then empty.
    pub fn tags_into(self, list: &mut Pieces, request: &MessageRef<'_>) -> Result<(), OutOfMemory>
        requires { IsSurvey request.now self }
        ensures ok { OnOk result (list.new ≡ tags_of request.now) }
        ensures err { OnErr result (tags_of request.now ≢ []) }
        ensures emptied { OnErr result (list.new ≡ []) }
    {
        if self.has_tags {
            return tags_into(list, request);
        }
        list.clear();
        Ok(())
    }
}

/// Adds to an empty list the options of a request that are part of its cache key, given that none
/// of its options is refused: then an option's place doesn't matter (`is_forwarded`).
fn push_key_options(list: &mut OptionList, request: &MessageRef<'_>) -> Result<(), OutOfMemory>
    requires empty { list.old ≡ [] }
    requires screened { first_refused Side.Request request.now.options ≡ None }
    ensures ok { OnOk result (list.new ≡ key_of request.now) }
    ensures err { OnErr result (key_of request.now ≢ []) }
{
    let code = request.code();
    for option in request.options() {
        if is_forwarded(code, option) && !is_no_cache_key(option.number) {
            list.push(option.number, option.value)?;
        }
    }
    Ok(())
}

/// Goes over the options of a request once, and refuses it because of its first option that is
/// unsafe and not recognised (RFC 7252, 5.7.1), as `screen_request_ref` does.
///
/// # Errors
/// The number of that option.
pub fn survey_request(request: &MessageRef<'_>) -> Result<Survey, BadOption>
    ensures ok { IfOk result (IsSurvey request.now) }
    ensures err { IfErr result (λ bad.
        first_refused Side.Request request.now.options ≡ Some bad.number) }
{
    let code = request.code();
    let mut survey = Survey::of_none();
    let mut run = Run::new();
    let mut row = None;
    for option in request.options() {
        let number = option.number;
        row = row_after(run, row, number);
        let before = run.pass(number);
        let known = option_recognised(Side::Request, option, before, row);
        if is_unsafe(number) && !known {
            return Err(BadOption { number });
        }
        survey = survey.with(code, option, before, row, known);
    }
    Ok(survey)
}
