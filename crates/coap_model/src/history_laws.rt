//! What holds at each position of a history that a proxy carries. Functions that do nothing, whose
//! contracts are the laws.
ghost use Rattle.std.specs.Prelude.{◌≡◌, true, Some, None, ◌≢◌, ℕ, ◌^◌, ◌<◌, ◌≤◌, List, ◌+◌, ◌-◌, ◌%◌, Bool, map};
ghost use Rattle.coap_message.specs.declared.kind.Kind.TheVariants.{Non, Con};
ghost use Rattle.coap_model.specs.Setting.{Setting};
ghost use Rattle.coap_model.specs.declared.report.Outcome.TheVariants.{Again, NoRecordRoom, Joined, Opened, Answered, Acked, Rejected, Hit};
ghost use Rattle.coap_model.specs.declared.report.Storing.TheVariants.{Kept, TooLarge, NoMemory, NotStored};
ghost use Rattle.coap_model.specs.Verdicts.{may_ask};
ghost use Rattle.coap_model.specs.Events.{tick, arrival, IsEvent};
ghost use Rattle.coap_model.specs.State.{client_counts, counts, State};
ghost use Rattle.coap_model.specs.History.{Act, serves, accepts_answer, opened_in, Action, Position, IsPositionOf, Somewhere, Sends, Ends, Serves, Finishes, Never, last_of, IsInOrder, IsRequestOf, Observation, gives_id, ids_in, Gives};
ghost use Rattle.coap_forward.specs.Messages.{kept_reply, brings_requests};
ghost use Rattle.coap_model.specs.Justified.{HaveOneMemory, Comes, known_of, HasRecordRoom, Acknowledges, Closes, IsNew, IsUnprocessable, verdict_on, fits_on, IsMiss, IsJoinable, IsUnanswered, IsAwaited, IsActing, JustifiedBy, AllJustified, IsOwed, MayFollow, AreOfOneTurn, IsGet, IsUsable, HasIdFor, IsObtainedHere, size_here};
ghost use Rattle.coap_model.specs.Runs.{answer_at};
ghost use Rattle.coap_model.specs.Examples.{to, from, client};
ghost use Rattle.coap_model.specs.ResponseExamples.{no_room, request};
ghost use Rattle.coap_model.specs.Standing.{sent, done, outstanding_to, HasRoomToJoin, HasRoomToOpen, delivering};
ghost use Rattle.coap_model.specs.Schedules.{sends_by, IsSchedule};
ghost use Rattle.coap_model.specs.Held.{held, most_held};
ghost use Rattle.coap_model.specs.LimitExamples.{got};
ghost use Rattle.coap_message.specs.declared.message.Head.{Head};
ghost use Rattle.coap_message.specs.Message.{Message};
ghost use Rattle.coap_message.specs.Reading.{head_at};
ghost use Rattle.coap_endpoint.specs.declared.endpoint.Endpoint.{Endpoint};
ghost use Rattle.coap_store.specs.declared.key.CacheKey.{CacheKey};
ghost use Rattle.coap_dedup.specs.declared.record.Record.{Record};
ghost use Rattle.coap_model.specs.Duplicates.{IsRememberedAt, Repeats};
ghost use Rattle.coap_model.specs.Due.{IsDueAt};
ghost use Rattle.coap_store.specs.Lists.{of_key};
ghost use Rattle.coap_model.specs.Cached.{Cached, cached_key, IsCacheOf};
ghost use Rattle.coap_model.specs.Carries.{Carries};
ghost use Rattle.coap_model.specs.Promised.{Promised};

/// What is promised, position by position: each action is justified by those before it, isn't
/// earlier than they are, and gives out the next Message ID, if any, which no other gave out within
/// 247 seconds; each message is sent by its schedule, and at most `nstart` requests to one endpoint
/// are outstanding; the history consists of the observations of these actions; and what the proxy
/// counts and holds is within its limits.
pub fn what_is_promised_holds_at_each_position()
    ensures justified { (history : List Observation) (w : State) (p : Promised history w)
        (position : Position)
        → IsPositionOf p.actions position
        → JustifiedBy position.action.observation.report.outcome w.setting position.before
        position.action }
    ensures in_order { (history : List Observation) (w : State) (p : Promised history w)
        (position earlier : Position)
        → IsPositionOf p.actions position
        → IsPositionOf position.before earlier
        → earlier.action.observation.now ≤ position.action.observation.now }
    ensures id { (history : List Observation) (w : State) (p : Promised history w)
        (position : Position)
        → IsPositionOf p.actions position
        → gives_id position.action.observation ≡ 1
        → Gives ((w.setting.first_id + ids_in position.before) % 65536)
        position.action.observation }
    ensures once { (history : List Observation) (w : State) (p : Promised history w)
        (a b : Position)
        (id : ℕ)
        → IsPositionOf p.actions a
        → IsPositionOf p.actions b
        → Gives id a.action.observation
        → Gives id b.action.observation
        → a.action.observation.now ≤ b.action.observation.now
        → b.action.observation.now < a.action.observation.now + 247000
        → a ≡ b }
    ensures schedule { (history : List Observation) (w : State) (p : Promised history w) (act : Act)
        → IsSchedule (sends_by act p.actions) }
    ensures pace { (history : List Observation) (w : State) (p : Promised history w) (to : Endpoint)
        → outstanding_to to p.actions ≤ w.setting.limits.nstart }
    ensures told { (history : List Observation) (w : State) (p : Promised history w)
        → map (λ d. d.observation) p.actions ≡ history }
    ensures exchanges { (history : List Observation) (w : State)
        → Promised history w
        → (counts w).exchanges ≤ w.setting.limits.exchanges }
    ensures waiters { (history : List Observation) (w : State)
        → Promised history w
        → (counts w).waiters ≤ w.setting.limits.waiters }
    ensures entries { (history : List Observation) (w : State)
        → Promised history w
        → (counts w).entries ≤ w.setting.limits.cache_entries }
    ensures cached_bytes { (history : List Observation) (w : State)
        → Promised history w
        → (counts w).cached_bytes ≤ w.setting.limits.cache_bytes }
    ensures con_records { (history : List Observation) (w : State)
        → Promised history w
        → (counts w).con_records ≤ w.setting.limits.con_records }
    ensures non_records { (history : List Observation) (w : State)
        → Promised history w
        → (counts w).non_records ≤ w.setting.limits.non_records }
    ensures client_exchanges { (history : List Observation) (w : State) (client : Endpoint)
        → Promised history w
        → (client_counts w client).exchanges ≤ w.setting.limits.client_exchanges }
    ensures client_waiters { (history : List Observation) (w : State) (client : Endpoint)
        → Promised history w
        → (client_counts w client).waiters ≤ w.setting.limits.client_waiters }
    ensures client_con_records { (history : List Observation) (w : State) (from : Endpoint)
        → Promised history w
        → (client_counts w from).con_records ≤ w.setting.limits.client_con_records }
    ensures client_non_records { (history : List Observation) (w : State) (from : Endpoint)
        → Promised history w
        → (client_counts w from).non_records ≤ w.setting.limits.client_non_records }
    ensures held { (history : List Observation) (w : State)
        → Promised history w
        → held w ≤ most_held w.setting.limits }
{}

/// A promise includes what is owed, position by position: a message that repeats an earlier
/// position is treated as a duplicate; a request that isn't known, or an answer in a Confirmable
/// message, gets no reply if there is no room to remember it; a new GET whose key has a fresh
/// entry, whose target wasn't changed since, is answered from the cache; and an answer that was
/// obtained is stored if its size allows it, unless memory runs out, and one that wasn't obtained
/// isn't stored.
pub fn what_is_owed_is_given_at_each_position()
    ensures again { (history : List Observation) (w : State) (p : Promised history w)
        (position former : Position) (source : Endpoint) (message : Message)
        → IsPositionOf p.actions position
        → Comes w.setting source message position.action.observation.event
        → IsPositionOf position.before former
        → Repeats position.action.observation.now source message former
        → position.action.observation.report.outcome ≡ Again }
    ensures no_room { (history : List Observation) (w : State) (p : Promised history w)
        (position : Position)
        (client : Endpoint) (request : Message)
        → IsPositionOf p.actions position
        → IsRequestOf w.setting client request position.action.observation.event
        → known_of position.before position.action.observation.now client request ≡ None
        → ¬ HasRecordRoom w.setting position.before position.action.observation.now client request
        → position.action.observation.report.outcome ≡ NoRecordRoom }
    ensures no_answer_room { (history : List Observation) (w : State) (p : Promised history w)
        (position : Position) (exchange : ℕ)
        (awaited : IsAwaited w.setting position.before position.action.observation.now exchange
        position.action.observation.event)
        → IsPositionOf p.actions position
        → awaited.meets.message.kind ≡ Con
        → known_of position.before position.action.observation.now awaited.meets.asks.sends.to
        awaited.meets.message ≡ None
        → ¬ HasRecordRoom w.setting position.before position.action.observation.now
        awaited.meets.asks.sends.to awaited.meets.message
        → position.action.observation.report.outcome ≡ NoRecordRoom }
    ensures hit { (history : List Observation) (w : State) (p : Promised history w)
        (position : Position)
        (client : Endpoint) (request : Message) (key : CacheKey) (cached : List Cached)
        (entry : Cached)
        → IsPositionOf p.actions position
        → IsRequestOf w.setting client request position.action.observation.event
        → IsNew w.setting position.before position.action.observation.now client request
        → IsGet request
        → verdict_on w.setting request ≡ may_ask key
        → IsCacheOf w.setting position.before cached
        → of_key cached_key key cached ≡ Some entry
        → IsUsable w.setting position.before position.action.observation.now entry
        → HasIdFor request position.action.observation.now position.before
        → position.action.observation.report.outcome ≡ Hit }
    ensures kept { (history : List Observation) (w : State) (p : Promised history w)
        (position : Position)
        (o : IsObtainedHere w.setting position.before position.action)
        → IsPositionOf p.actions position
        → size_here o ≤ w.setting.limits.cache_bytes
        → position.action.observation.report.outcome ≢ Answered NoMemory
        → position.action.observation.report.outcome ≡ Answered Kept }
    ensures too_large { (history : List Observation) (w : State) (p : Promised history w)
        (position : Position)
        (o : IsObtainedHere w.setting position.before position.action)
        → IsPositionOf p.actions position
        → w.setting.limits.cache_bytes < size_here o
        → position.action.observation.report.outcome ≡ Answered TooLarge }
    ensures not_stored { (history : List Observation) (w : State) (p : Promised history w)
        (position : Position)
        → IsPositionOf p.actions position
        → accepts_answer position.action.observation.report.outcome ≡ true
        → ¬ IsObtainedHere w.setting position.before position.action
        → position.action.observation.report.outcome ≡ Answered NotStored }
{}

/// In a justified history nothing is done twice: the request of an exchange is sent for the first
/// time at one position, the exchange is answered or given up at one position, and a waiter is
/// served at one position. Nothing is done for a waiter that is finished: after its answer was
/// acknowledged, was given up, or was sent in a Non-confirmable message.
pub fn nothing_is_done_twice()
    ensures sent { (setting : Setting) (history : List Action) (exchange : ℕ) (a b : Position)
        → AllJustified setting history
        → IsPositionOf history a
        → IsPositionOf history b
        → Sends setting.salt exchange a
        → Sends setting.salt exchange b
        → a ≡ b }
    ensures ended { (setting : Setting) (history : List Action) (exchange : ℕ) (a b : Position)
        → AllJustified setting history
        → IsPositionOf history a
        → IsPositionOf history b
        → Ends exchange a
        → Ends exchange b
        → a ≡ b }
    ensures served { (setting : Setting) (history : List Action) (waiter : ℕ) (a b : Position)
        → AllJustified setting history
        → IsPositionOf history a
        → IsPositionOf history b
        → Serves waiter a
        → Serves waiter b
        → a ≡ b }
    ensures gone { (setting : Setting) (history : List Action) (waiter : ℕ) (position : Position)
        → AllJustified setting history
        → IsPositionOf history position
        → position.action.act ≡ serves waiter
        → Never (Finishes waiter) position.before }
{}

/// What is owed is done, if an observation is justified by the actions before it: a duplicate of a
/// remembered message gets what is remembered, and a request that there is no room to remember gets
/// no reply. Of the other requests, a GET whose key has a fresh entry, whose target wasn't changed
/// since, is answered from the cache; a GET whose key has no such entry, but an exchange that may
/// be joined, joins it, if there is room; and a request that may and has to be forwarded opens an
/// exchange, if there is room. A message that answers an exchange becomes its answer, which is kept
/// if it was obtained and its size allows it; in a Confirmable message it is accepted if it is new,
/// and gets no reply if it isn't known and there is no room to remember it. An acknowledgement of a
/// request that waits for one settles it, and an acknowledgement or a Reset of an answer that waits
/// for one settles that; a Confirmable datagram that can't be processed is rejected; and a tick at
/// which something is due does what is due first.
pub fn what_is_owed_is_given()
    ensures owed { (setting : Setting) (past : List Action) (d : Action)
        → JustifiedBy d.observation.report.outcome setting past d
        → IsOwed setting past d }
    ensures opened { (setting : Setting) (past : List Action) (d : Action) (client : Endpoint)
        (request : Message)
        (key : CacheKey)
        → JustifiedBy d.observation.report.outcome setting past d
        → IsRequestOf setting client request d.observation.event
        → IsNew setting past d.observation.now client request
        → verdict_on setting request ≡ may_ask key
        → IsUnanswered setting past d.observation.now key request
        → fits_on setting key request ≡ true
        → HasRoomToOpen setting.limits d.observation.now client past
        → d.observation.report.outcome ≡ Opened }
    ensures joined { (setting : Setting) (past : List Action) (d : Action) (client : Endpoint)
        (request : Message)
        (key : CacheKey) (exchange : ℕ)
        → JustifiedBy d.observation.report.outcome setting past d
        → IsRequestOf setting client request d.observation.event
        → IsNew setting past d.observation.now client request
        → IsGet request
        → verdict_on setting request ≡ may_ask key
        → IsMiss setting past key d.observation.now
        → IsJoinable setting past key exchange
        → HasRoomToJoin setting.limits d.observation.now client past
        → d.observation.report.outcome ≡ Joined }
    ensures answered { (setting : Setting) (past : List Action) (d : Action) (exchange : ℕ)
        (awaited : IsAwaited setting past d.observation.now exchange d.observation.event)
        → JustifiedBy d.observation.report.outcome setting past d
        → (awaited.meets.message.kind ≡ Con
        → IsNew setting past d.observation.now awaited.meets.asks.sends.to awaited.meets.message)
        → accepts_answer d.observation.report.outcome ≡ true }
    ensures settled { (setting : Setting) (past : List Action) (d : Action) (exchange : ℕ)
        → JustifiedBy d.observation.report.outcome setting past d
        → Acknowledges setting past d.observation.now exchange d.observation.event
        → d.observation.report.outcome ≡ Acked }
    ensures closed { (setting : Setting) (past : List Action) (d : Action) (waiter : ℕ)
        → JustifiedBy d.observation.report.outcome setting past d
        → Closes setting past d.observation.now waiter d.observation.event
        → d.observation.report.outcome ≡ Acked }
    ensures no_answer_room { (setting : Setting) (past : List Action) (d : Action) (exchange : ℕ)
        (awaited : IsAwaited setting past d.observation.now exchange d.observation.event)
        → JustifiedBy d.observation.report.outcome setting past d
        → awaited.meets.message.kind ≡ Con
        → known_of past d.observation.now awaited.meets.asks.sends.to awaited.meets.message ≡ None
        → ¬ HasRecordRoom setting past d.observation.now awaited.meets.asks.sends.to
        awaited.meets.message
        → d.observation.report.outcome ≡ NoRecordRoom }
    ensures rejected { (setting : Setting) (past : List Action) (d : Action) (source : Endpoint)
        (bytes : List ℕ)
        (head : Head)
        → JustifiedBy d.observation.report.outcome setting past d
        → d.observation.event ≡ arrival source bytes
        → head_at bytes ≡ Some head
        → head.kind ≡ Con
        → IsUnprocessable setting past d.observation
        → d.observation.report.outcome ≡ Rejected }
    ensures done { (setting : Setting) (past : List Action) (d : Action) (act : Act) (at : ℕ)
        → JustifiedBy d.observation.report.outcome setting past d
        → d.observation.event ≡ tick
        → IsDueAt setting past act at
        → at ≤ d.observation.now
        → IsActing setting past d }
{}

/// A message is known if it repeats an earlier one, in terms of the positions of the history, and
/// its record is what was sent immediately there: so a duplicate gets what the first message got,
/// or nothing. It repeats at most one position; and if it is Confirmable, what was sent there was
/// sent to its source.
pub fn duplicates_repeat_a_position()
    ensures known { (past : List Action) (now : ℕ) (source : Endpoint) (message : Message)
        (known : Record)
        → known_of past now source message ≡ Some known
        → Somewhere (IsRememberedAt now source message known) past }
    ensures each { (past : List Action) (now : ℕ) (source : Endpoint) (message : Message)
        (p : Position)
        → brings_requests message.kind ≡ true
        → IsPositionOf past p
        → Repeats now source message p
        → known_of past now source message ≢ None }
    ensures one { (setting : Setting) (past : List Action) (now : ℕ) (source : Endpoint)
        (message : Message) (p q : Position)
        → AllJustified setting past
        → IsInOrder past
        → last_of past ≤ now
        → IsPositionOf past p
        → IsPositionOf past q
        → Repeats now source message p
        → Repeats now source message q
        → p ≡ q }
    ensures told { (setting : Setting) (past : List Action) (now : ℕ) (source : Endpoint)
        (message : Message) (p : Position) (known : Record)
        → AllJustified setting past
        → IsInOrder past
        → last_of past ≤ now
        → IsPositionOf past p
        → Repeats now source message p
        → known_of past now source message ≡ Some known
        → known.reply ≡ kept_reply message.kind p.action.observation.bytes }
    ensures sent { (setting : Setting) (past : List Action) (now : ℕ) (source : Endpoint)
        (message : Message) (p : Position)
        → AllJustified setting past
        → IsPositionOf past p
        → Repeats now source message p
        → message.kind ≡ Con
        → p.action.observation.report.send ≡ Some source }
{}

/// The histories allow only one result: two actions that may follow the same actions, with the same
/// event, moment, draw and memory, are equal, if fewer than 2^64 exchanges were opened; and the
/// observation of an action that may follow the history of a proxy is the one that its step makes.
/// So the traffic alone determines everything that a proxy does.
pub fn one_answer_is_justified()
    ensures one { (setting : Setting) (past : List Action) (d e : Action)
        → AllJustified setting past
        → opened_in past < 2 ^ 64
        → MayFollow setting past d
        → MayFollow setting past e
        → AreOfOneTurn d.observation e.observation
        → d ≡ e }
    ensures of_the_step { (w : State) (history : List Observation) (c : Carries history w)
        (d : Action)
        (grown : Bool)
        → w.last ≤ d.observation.now
        → w.opened < 2 ^ 64
        → IsEvent d.observation.event
        → MayFollow w.setting c.actions d
        → HaveOneMemory d.observation.report.outcome
        (answer_at w d.observation.now d.observation.draw grown d.observation.event).report.outcome
        → d.observation ≡ answer_at w d.observation.now d.observation.draw grown
        d.observation.event }
{}
