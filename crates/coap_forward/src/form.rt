//! The forwarded request, written part by part into the caller's datagram, without allocation (RFC
//! 7252, 5.7 and 5.8).
ghost use Rattle.std.specs.Prelude.{◌≡◌, ◌≤◌, ℕ, None, [], true, length, map, option_map, IfOk, IfSome};
ghost use Rattle.std.specs.List.{AllByRecursion};
ghost use Rattle.coap_message.specs.Datagram.{Appends, holding, unit_of};
ghost use Rattle.coap_message.specs.Options.{AreOptions, last_number, option_of};
ghost use Rattle.coap_message.specs.Spelling.{spelling, options_spelling};
ghost use Rattle.coap_option.specs.Survey.{IsSurvey};
ghost use Rattle.coap_endpoint.specs.Target.{IsTarget, IsShort};
ghost use Rattle.coap_endpoint.specs.declared.target.Target.{Target};
ghost use Rattle.coap_forward.specs.Forms.{payload_sent, tag_if_fits, tag_to_send};
ghost use Rattle.coap_forward.specs.Gaps.{back_in, end_of, floor_of, front_in, is_in, meets, options_in, others_in, part_of, request_in, values_left, whole};
ghost use Rattle.coap_forward.specs.Messages.{is_method};
ghost use Rattle.coap_forward.specs.declared.form.Gap.TheVariants as TheGap;

use crate::part::{PartValues, host_of, port_of, scheme_of};
use coap_endpoint::Target;
use coap_message::{
    Code, Datagram, Full, Head, Kind, Message, MessageRef, Token, put_head, put_option,
    put_options_from, put_payload, without_zeros,
};
use coap_option::{Span, Survey, is_forwarded, numbers};
use coap_store::tag_of;

/// Where other options go among those of a target.
#[derive(Clone, Copy)]
pub(crate) enum Gap {
    /// Before the Uri-Host.
    BeforeHost,
    /// After the Uri-Host, before the Uri-Port.
    BeforePort,
    /// After the Uri-Port, before any Uri-Path.
    BeforePath,
    /// After the Uri-Paths, before any Uri-Query.
    BeforeQuery,
    /// After the Uri-Queries, before the Proxy-Scheme.
    BeforeScheme,
    /// After all of them.
    Last,
}

impl Gap {
    /// Whether an option with this number goes there.
    fn has(self, number: u16) -> bool
        ensures { result ≡ is_in self number }
    {
        match self {
            Gap::BeforeHost => number < numbers::URI_HOST,
            Gap::BeforePort => numbers::URI_HOST < number && number < numbers::URI_PORT,
            Gap::BeforePath => numbers::URI_PORT < number && number < numbers::URI_PATH,
            Gap::BeforeQuery => numbers::URI_PATH < number && number < numbers::URI_QUERY,
            Gap::BeforeScheme => numbers::URI_QUERY < number && number < numbers::PROXY_SCHEME,
            Gap::Last => numbers::PROXY_SCHEME < number,
        }
    }

    /// The greatest number of the options that are written before the gap: behind the Uri-Host also
    /// the tag of `Form`.
    fn floor(self) -> u16
        ensures { result ≡ floor_of self }
    {
        match self {
            Gap::BeforeHost => 0,
            Gap::BeforePort => numbers::ETAG,
            Gap::BeforePath => numbers::URI_PORT,
            Gap::BeforeQuery => numbers::URI_PATH,
            Gap::BeforeScheme => numbers::URI_QUERY,
            Gap::Last => numbers::PROXY_SCHEME,
        }
    }

    /// Whether options whose numbers have this span may go there.
    fn meets(self, span: Option<Span>) -> bool
        ensures { result ≡ meets self span }
    {
        match span {
            Some(span) => self.floor() <= span.greatest && span.least <= self.end(),
            None => false,
        }
    }

    /// The number from which on all options of a surveyed request go there, if no other option of it
    /// is forwarded.
    fn whole(self, survey: Survey) -> Option<u16>
        ensures { result ≡ whole self survey }
    {
        let number = survey.key_from()?;
        let span = survey.others?;
        if self.has(number) && self.has(span.greatest) {
            return Some(number);
        }
        None
    }

    /// The option number of the target's options that follow the gap, or 65,535 for the last one,
    /// which none follow.
    fn end(self) -> u16
        ensures { result ≡ end_of self }
    {
        match self {
            Gap::BeforeHost => numbers::URI_HOST,
            Gap::BeforePort => numbers::URI_PORT,
            Gap::BeforePath => numbers::URI_PATH,
            Gap::BeforeQuery => numbers::URI_QUERY,
            Gap::BeforeScheme => numbers::PROXY_SCHEME,
            Gap::Last => u16::MAX,
        }
    }
}

/// A part of a target, and the gap before it.
#[derive(Drop)]
struct TargetPart<'a> {
    gap: Gap,
    values: PartValues<'a>,
}

/// What a forwarded request is made of beside its token.
#[derive(Clone, Copy)]
pub struct Form<'f, 'a, 't> {
    /// The request of the client.
    pub request: &'f MessageRef<'a>,
    /// The survey of its options. It says in which gaps there may be options that are forwarded:
    /// for most requests in none, so that their options aren't looked at again.
    pub survey: Survey,
    /// Its target.
    pub target: &'f Target,
    /// The tag of the stored response that the origin may validate, sent as an ETag before all
    /// others (RFC 7252, 5.6.2 and 5.10.6.2).
    pub tag: Option<&'t [u8]>,
}

// ---- options, after one with the number `before`; these return the number of the last option

/// Adds those of the request's forwarded options that go in a gap: in one piece, if they are its
/// last options.
fn put_others(
    out: &mut Datagram,
    room: usize,
    before: u16,
    form: Form<'_, '_, '_>,
    gap: Gap,
) -> Result<u16, Full>
    requires room { room ≤ out.old.room }
    requires held { length out.old.bytes ≤ room }
    requires above { before ≤ floor_of gap }
    requires known { IsSurvey form.request.now form.survey }
    ensures written { Appends out.old out.new room
        (options_spelling before (others_in form.entry.request.now.code gap
        form.entry.request.now.options))
        (unit_of result) }
    ensures last { IfOk result (λ last.
        last ≡ last_number before (others_in form.entry.request.now.code gap
        form.entry.request.now.options)) }
    ensures below { IfOk result (λ last. last ≤ end_of gap) }
    ensures in_order { AreOptions 0 form.entry.request.now.options }
{
    let request = form.request;
    let options = request.options();
    if !gap.meets(form.survey.others) {
        return Ok(before);
    }
    if let Some(number) = gap.whole(form.survey) {
        return put_options_from(out, room, before, &request.option_list(), number);
    }
    let mut last = before;
    for option in options {
        if gap.has(option.number) && is_forwarded(request.code(), option) {
            put_option(out, room, last, option.number, option.value)?;
            last = option.number;
        }
    }
    Ok(last)
}

/// Adds an option for each value.
fn put_values(
    out: &mut Datagram,
    room: usize,
    before: u16,
    number: u16,
    values: PartValues<'_>,
) -> Result<u16, Full>
    requires room { room ≤ out.old.room }
    requires held { length out.old.bytes ≤ room }
    requires above { before ≤ number }
    requires within { AllByRecursion IsShort (values_left values) }
    ensures written { Appends out.old out.new room
        (options_spelling before (map (option_of number) (values_left values.entry)))
        (unit_of result) }
    ensures last { IfOk result (λ last.
        last ≡ last_number before (map (option_of number) (values_left values.entry))) }
    ensures below { IfOk result (λ last. last ≤ number) }
{
    let mut values = values;
    let mut last = before;
    'values: while let Some(value) = values.next_value() {
        put_option(out, room, last, number, value)?;
        last = number;
    }
    Ok(last)
}

/// Adds a part of a target, and the options between it and the part before it.
fn put_part(
    out: &mut Datagram,
    room: usize,
    before: u16,
    form: Form<'_, '_, '_>,
    part: TargetPart<'_>,
) -> Result<u16, Full>
    requires room { room ≤ out.old.room }
    requires held { length out.old.bytes ≤ room }
    requires above { before ≤ floor_of part.gap }
    requires known { IsSurvey form.request.now form.survey }
    requires within { AllByRecursion IsShort (values_left part.values) }
    ensures written { Appends out.old out.new room
        (options_spelling before
        (part_of form.entry.request.now part.entry.gap (values_left part.entry.values)))
        (unit_of result) }
    ensures last { IfOk result (λ last.
        last
        ≡ last_number before
        (part_of form.entry.request.now part.entry.gap (values_left part.entry.values))) }
    ensures below { IfOk result (λ last. last ≤ end_of part.entry.gap) }
    ensures in_order { AreOptions 0 form.entry.request.now.options }
{
    let TargetPart { gap, values } = part;
    let last = put_others(out, room, before, form, gap)?;
    put_values(out, room, last, gap.end(), values)
}

/// Adds the options up to the Uri-Port, and the tag right after the Uri-Host, so that it comes
/// before other ETags.
fn put_front(out: &mut Datagram, room: usize, form: Form<'_, '_, '_>) -> Result<u16, Full>
    requires room { room ≤ out.old.room }
    requires held { length out.old.bytes ≤ room }
    requires target { IsTarget form.target.now }
    requires known { IsSurvey form.request.now form.survey }
    requires short { IfSome form.tag (λ tag. length tag.now ≤ 8) }
    ensures written { Appends out.old out.new room (options_spelling 0 (front_in form.entry))
        (unit_of result) }
    ensures last { IfOk result (λ last. last ≡ last_number 0 (front_in form.entry)) }
    ensures below { IfOk result (λ last. last ≤ floor_of TheGap.BeforePath) }
    ensures in_order { AreOptions 0 form.entry.request.now.options }
{
    let target = form.target;
    let host = TargetPart {
        gap: Gap::BeforeHost,
        values: host_of(target),
    };
    let last = put_part(out, room, 0, form, host)?;
    let last = put_values(out, room, last, numbers::ETAG, PartValues::Given(form.tag))?;
    let bytes = u64::from(target.port.unwrap_or(0)).to_be_bytes();
    let port = TargetPart {
        gap: Gap::BeforePort,
        values: port_of(target.port, without_zeros(&bytes)),
    };
    put_part(out, room, last, form, port)
}

/// Adds the options after the Uri-Port.
fn put_back(
    out: &mut Datagram,
    room: usize,
    before: u16,
    form: Form<'_, '_, '_>,
) -> Result<u16, Full>
    requires room { room ≤ out.old.room }
    requires held { length out.old.bytes ≤ room }
    requires above { before ≤ floor_of TheGap.BeforePath }
    requires target { IsTarget form.target.now }
    requires known { IsSurvey form.request.now form.survey }
    ensures { Appends out.old out.new room (options_spelling before (back_in form.entry))
        (unit_of result) }
{
    let target = form.target;
    let path = TargetPart {
        gap: Gap::BeforePath,
        values: PartValues::Kept(target.path.iter()),
    };
    let last = put_part(out, room, before, form, path)?;
    let query = TargetPart {
        gap: Gap::BeforeQuery,
        values: PartValues::Kept(target.query.iter()),
    };
    let last = put_part(out, room, last, form, query)?;
    let scheme = TargetPart {
        gap: Gap::BeforeScheme,
        values: scheme_of(target),
    };
    let last = put_part(out, room, last, form, scheme)?;
    put_others(out, room, last, form, Gap::Last)
}

/// Adds all options that are forwarded.
fn put_form_options(out: &mut Datagram, room: usize, form: Form<'_, '_, '_>) -> Result<(), Full>
    requires room { room ≤ out.old.room }
    requires held { length out.old.bytes ≤ room }
    requires known { IsSurvey form.request.now form.survey }
    requires target { IsTarget form.target.now }
    requires short { IfSome form.tag (λ tag. length tag.now ≤ 8) }
    ensures { Appends out.old out.new room
        (options_spelling 0 (options_in form.entry)) result }
{
    let last = put_front(out, room, form)?;
    put_back(out, room, last, form)?;
    Ok(())
}

/// The payload of a request that is forwarded: that of a POST or a PUT (RFC 7252, 5.5 and 5.8).
fn payload_sent<'a>(request: &MessageRef<'a>) -> &'a [u8]
    ensures { result.now ≡ payload_sent request.now }
{
    let code = request.code();
    if code == Code::POST || code == Code::PUT {
        request.payload()
    } else {
        &[]
    }
}

/// Writes the request to forward for one that passed the screening, with Message ID 0, if it is at
/// most `room` bytes: with the options of its target (RFC 7252, 5.10.1), for another proxy also
/// Uri-Port and Proxy-Scheme (5.10.2), the tag as an ETag, and the other options in their places.
/// Doesn't allocate.
///
/// # Errors
/// `Full`, exactly if it is longer than `room` bytes. Part of it may have been written then.
#[tactic(auto, unfolding(coap_message::specs::Spelling::spelling))]
pub fn put_forwarded(
    token: &Token,
    form: Form<'_, '_, '_>,
    out: &mut Datagram,
    room: usize,
) -> Result<(), Full>
    requires room { room ≤ out.old.room }
    requires method { is_method form.request.now.code ≡ true }
    requires known { IsSurvey form.request.now form.survey }
    requires target { IsTarget form.target.now }
    requires short { IfSome form.tag (λ tag. length tag.now ≤ 8) }
    ensures { Appends (holding out.old []) out.new room
        (spelling (request_in form.entry token.now)) result }
{
    let head = Head {
        kind: Kind::Con,
        code: form.request.code(),
        id: 0,
    };
    put_head(out, room, head, token)?;
    put_form_options(out, room, form)?;
    put_payload(out, room, payload_sent(form.request))
}

/// The tag that the forwarded request for a GET carries if this response is stored for its key, and
/// if the request fits a datagram with it: that of a 2.05 (RFC 7252, 5.6.2).
pub fn validating_tag<'a>(request: &MessageRef<'_>, response: &'a Message) -> Option<&'a [u8]>
    ensures exact { (most : ℕ) (target : Target)
        → tag_to_send most target request.now response.now
        ≡ tag_if_fits most target request.now (option_map (λ tag. tag.now) result) }
    ensures short { IfSome result (λ tag. length tag.now ≤ 8) }
{
    if request.code() != Code::GET || response.code != Code::CONTENT {
        return None;
    }
    tag_of(&response.options.lent())
}
