//! Which address has more of a full table than any other.
ghost use Rattle.std.specs.Prelude.{◌≡◌, ◌≤◌, [], ◌∷◌, length, vec_capacity, vec_len, IfNone, IfOk, IfSome, None};
ghost use Rattle.coap_message.specs.Reading.{head_at};
ghost use Rattle.coap_model.specs.State.{records_of};
ghost use Rattle.endpoint_counts.specs.Slots.{AreGapless};
ghost use Rattle.coap_core.specs.Events.{seen};
ghost use Rattle.coap_core.specs.Holders as spec;
ghost use Rattle.coap_core.specs.Holdings.{AreOf, IsGreatestOf, client_holdings, record_holdings};
ghost use Rattle.coap_core.specs.Told.{told};

use crate::event::Event;
use crate::most::{Holding, Sum, most_of};
use crate::proxy::Core;
use crate::watch::WatchedTurn;
use coap_endpoint::{Endpoint, Ip};
use coap_exchange::EndpointMap;
use coap_message::{Kind, Moment, OutOfMemory, head_of};
use coap_model::{LimitValues, Outcome};
use coap_store::Store;
use std::alloc::Global;
use std::marker::Model;

/// How long nobody is looked for once somebody was found, in milliseconds.
const PAUSE: Moment = 60_000;

/// A table of which each client may have its share.
#[derive(Clone, Copy, Debug, PartialEq, Eq)]
pub enum SharedTable {
    ConRecords,
    NonRecords,
    Exchanges,
    Waiters,
}

impl SharedTable {
    /// Its name, which is that of its limit.
    pub fn name(self) -> &'static str
        ensures { result.now ≡ spec.table_name self }
    {
        match self {
            SharedTable::ConRecords => "con_records",
            SharedTable::NonRecords => "non_records",
            SharedTable::Exchanges => "exchanges",
            SharedTable::Waiters => "waiters",
        }
    }
}

/// The address that has more of a table than any other; of equal ones, the lowest.
#[derive(Clone, Copy, Debug, PartialEq, Eq)]
pub struct Holder {
    pub table: SharedTable,
    /// How much of the table all have, and how much they may have.
    pub count: u64,
    pub limit: u64,
    pub ip: Ip,
    /// How much of it this address has, and with how many of its ports. Records that have expired
    /// and weren't removed yet are among them, but not in `count`.
    pub held: u64,
    pub ports: u64,
    /// When it was found, in milliseconds.
    pub found: Moment,
}

/// Which address had more of each table than any other when it was last found full, as it is also
/// for a client that has its share of it. One is looked for at most once a minute: when a message
/// was turned away for want of room. Only `new` allocates.
#[derive(Drop)]
pub struct Holders {
    /// What each endpoint has, while somebody is looked for.
    holdings: Vec<Holding>,
    room: usize,
    /// The moment from which on somebody is looked for, in milliseconds.
    next: Moment,
    con_records: Option<Holder>,
    non_records: Option<Holder>,
    exchanges: Option<Holder>,
    waiters: Option<Holder>,
}

impl Model for Holders {
    ghost use Rattle.std.specs.Prelude.{◌≤◌, vec_capacity};
    ghost use Rattle.coap_core.specs.Holders as spec;

    ghost Value = { spec.Holders };

    ghost view = { λ h.
        record {
          room = h.room;
          next = h.next;
          con_records = h.con_records;
          non_records = h.non_records;
          exchanges = h.exchanges;
          waiters = h.waiters;
        } };

    ghost invariant = { λ h. h.room ≤ vec_capacity h.holdings };
}

impl Holders {
    /// Nobody yet, with room for the tables of a proxy with these limits.
    ///
    /// # Errors
    /// Out of memory.
    pub fn new(alloc: Global, limits: &LimitValues) -> Result<Holders, OutOfMemory>
        ensures nobody { IfOk result (λ holders. holders ≡ spec.nobody limits.now) }
    {
        let records = limits.con_records.max(limits.non_records);
        let room = records.max(limits.exchanges).max(limits.waiters) as usize;
        Ok(Holders {
            holdings: Vec::with_capacity(alloc, room)?,
            room,
            next: 0,
            con_records: None,
            non_records: None,
            exchanges: None,
            waiters: None,
        })
    }

    /// Those that were found last, for each table that was full.
    pub fn all(&self) -> [Option<Holder>; 4]
        ensures { result
            ≡ self.now.con_records ∷ self.now.non_records ∷ self.now.exchanges
            ∷ self.now.waiters ∷ [] }
    {
        [
            self.con_records,
            self.non_records,
            self.exchanges,
            self.waiters,
        ]
    }

    /// Notes which address has more of a table than any other.
    pub fn note(&mut self, holder: Holder)
        ensures { self.new ≡ spec.noted holder holder.table self.old }
    {
        match holder.table {
            SharedTable::ConRecords => self.con_records = Some(holder),
            SharedTable::NonRecords => self.non_records = Some(holder),
            SharedTable::Exchanges => self.exchanges = Some(holder),
            SharedTable::Waiters => self.waiters = Some(holder),
        }
    }

    /// Is told of a turn, with the core as it is after it. Returns which address has more of the
    /// table that is full than any other, if that was found in this turn.
    #[inline(always)]
    pub fn look<S: Store + Drop>(&mut self, turn: WatchedTurn<'_>, core: &Core<S>) -> Option<Holder>
        // Nobody is looked for unless a message was turned away for want of room, and not within a
        // minute after somebody was looked for.
        ensures none { spec.looks_in self.old (told turn.entry core.now) ≡ None
            → result ≡ None }
        ensures same { spec.looks_in self.old (told turn.entry core.now) ≡ None
            → self.new ≡ self.old }

        // Otherwise it is an address than which no other has more, and of equal ones the lowest.
        ensures found { IfSome (spec.looks_in self.old (told turn.entry core.now)) (λ table.
            spec.IsFound table turn.entry.now core.now self.old result self.new) }
    {
        let outcome = turn.report()?.outcome;
        if may_be_full(outcome) {
            self.look_closely(turn.now, turn.event, outcome, core)
        } else {
            None
        }
    }

    /// Looks for the address that has more than any other of the table that is told to be full
    /// after an event with this outcome: no room for a record, or 5.03.
    #[inline(never)]
    fn look_closely<S: Store + Drop>(
        &mut self,
        now: Moment,
        event: Event<'_>,
        outcome: Outcome,
        core: &Core<S>,
    ) -> Option<Holder>
        ensures { spec.Looks now core.now
            (spec.lacking_at (seen event.entry) core.now outcome) self.old result self.new }
    {
        let table = lacking_at(event, outcome, core)?;
        let (count, limit) = usage_of(table, core);
        if now < self.next || limit > self.room as u64 {
            return None;
        }
        self.next = now.saturating_add(PAUSE);
        let most = greatest(&mut self.holdings, self.room, table, core)?;
        let holder = Holder {
            table,
            count,
            limit,
            ip: most.last.ip,
            held: most.held,
            ports: most.ports,
            found: now,
        };
        self.note(holder);
        Some(holder)
    }
}

/// Which address has more of a table than any other; of equal ones, the lowest. The vector has room
/// for what each endpoint has of the table.
fn greatest<S: Store + Drop>(
    holdings: &mut Vec<Holding>,
    room: usize,
    table: SharedTable,
    core: &Core<S>,
) -> Option<Sum>
    requires room { room ≤ vec_capacity holdings.old }
    requires fits { spec.limit_of table core.now.setting.limits ≤ room }
    ensures capacity { vec_capacity holdings.new ≡ vec_capacity holdings.old }
    ensures none { IfNone result (spec.owners table core.now ≡ []) }
    ensures most { IfSome result (λ sum. IsGreatestOf (spec.owners table core.now) sum) }
{
    core.tables_fit();
    holdings.clear();
    list(holdings, room, table, core);
    holdings.sort_unstable();
    most_of(holdings.as_slice())
}

/// Lists what each endpoint has of a table.
fn list<S: Store + Drop>(
    holdings: &mut Vec<Holding>,
    room: usize,
    table: SharedTable,
    core: &Core<S>,
)
    requires room { room ≤ vec_capacity holdings.old }
    requires empty { holdings.old.items ≡ [] }
    requires len { vec_len holdings.old ≡ 0 }
    requires fits { length (spec.owners table core.now) ≤ room }
    ensures capacity { vec_capacity holdings.new ≡ vec_capacity holdings.old }
    ensures listed { AreOf (spec.owners table core.now) holdings.new.items }
{
    match table {
        SharedTable::ConRecords => list_records(holdings, room, Kind::Con, core),
        SharedTable::NonRecords => list_records(holdings, room, Kind::Non, core),
        SharedTable::Exchanges => {
            let clients = core.openers();
            clients.laws();
            list_clients(holdings, room, clients);
        }
        SharedTable::Waiters => {
            let clients = core.waiting_clients();
            clients.laws();
            list_clients(holdings, room, clients);
        }
    }
}

/// Lists one for each record of messages of a type.
fn list_records<S: Store + Drop>(
    holdings: &mut Vec<Holding>,
    room: usize,
    kind: Kind,
    core: &Core<S>,
)
    requires room { room ≤ vec_capacity holdings.old }
    requires empty { holdings.old.items ≡ [] }
    requires len { vec_len holdings.old ≡ 0 }
    requires fits { length (records_of kind core.now).items ≤ room }
    ensures capacity { vec_capacity holdings.new ≡ vec_capacity holdings.old }
    ensures listed { holdings.new.items ≡ record_holdings (records_of kind core.now).items }
{
    for place in 0..room {
        let Some(at) = core.record_source(kind, place) else {
            return;
        };
        holdings.push_reserved(Holding { at, count: 1 });
    }
}

/// Lists what each client has.
fn list_clients(holdings: &mut Vec<Holding>, room: usize, clients: &EndpointMap)
    requires room { room ≤ vec_capacity holdings.old }
    requires empty { holdings.old.items ≡ [] }
    requires len { vec_len holdings.old ≡ 0 }
    requires fits { length clients.now.items ≤ room }
    requires gapless { AreGapless clients.now.items }
    ensures capacity { vec_capacity holdings.new ≡ vec_capacity holdings.old }
    ensures listed { holdings.new.items ≡ client_holdings clients.now.items }
{
    for place in 0..room {
        let Some(entry) = clients.entry(place as u64 + 1) else {
            return;
        };
        holdings.push_reserved(Holding {
            at: entry.peer.endpoint(),
            count: entry.counts.all as u64,
        });
    }
}

/// How much of a table all have, and how much they may have.
fn usage_of<S: Store + Drop>(table: SharedTable, core: &Core<S>) -> (u64, u64)
    ensures { result
        ≡ (spec.used_of table core.now, spec.limit_of table core.now.setting.limits) }
{
    let (counts, limits) = (core.counts(), core.limits().values());
    match table {
        SharedTable::ConRecords => (counts.con_records, limits.con_records),
        SharedTable::NonRecords => (counts.non_records, limits.non_records),
        SharedTable::Exchanges => (counts.exchanges, limits.exchanges),
        SharedTable::Waiters => (counts.waiters, limits.waiters),
    }
}

/// Whether a message was turned away, so that a table may be full.
fn may_be_full(outcome: Outcome) -> bool
    ensures { result ≡ spec.is_turned_away outcome }
{
    match outcome {
        Outcome::NoRecordRoom | Outcome::Overloaded => true,
        Outcome::Ignored
        | Outcome::Rejected
        | Outcome::Again
        | Outcome::Refused(_)
        | Outcome::Hit
        | Outcome::Joined
        | Outcome::Opened
        | Outcome::NoId
        | Outcome::Answered { .. }
        | Outcome::Acked
        | Outcome::SentRequest
        | Outcome::Resent
        | Outcome::Delivered
        | Outcome::GaveUp
        | Outcome::Idle => false,
    }
}

/// The table that is told to be full after an event with this outcome: for a record, its table;
/// after a 5.03, the first full one of those that opening an exchange needs. A GET that could have
/// joined an exchange may have lacked the other.
fn lacking_at<S: Store + Drop>(
    event: Event<'_>,
    outcome: Outcome,
    core: &Core<S>,
) -> Option<SharedTable>
    ensures { result ≡ spec.lacking_at (seen event.entry) core.now outcome }
{
    let Event::Datagram { from, bytes } = event else {
        return None;
    };
    match outcome {
        Outcome::NoRecordRoom => records_for(bytes),
        Outcome::Overloaded => full_for(from, core),
        _ => None,
    }
}

/// The records of messages of the type that came.
fn records_for(bytes: &[u8]) -> Option<SharedTable>
    ensures { result ≡ spec.records_for (head_at bytes.now) }
{
    match head_of(bytes)?.kind {
        Kind::Con => Some(SharedTable::ConRecords),
        Kind::Non | Kind::Ack | Kind::Rst => Some(SharedTable::NonRecords),
    }
}

/// The first table, that of exchanges or else that of waiters, which has no room for a request of
/// this client: it is full, or the client has its share of it.
fn full_for<S: Store + Drop>(client: Endpoint, core: &Core<S>) -> Option<SharedTable>
    ensures { result ≡ spec.full_for client core.now }
{
    let (all, own) = (core.counts(), core.client_counts(client));
    let limits = core.limits().values();
    if !(all.exchanges < limits.exchanges && own.exchanges < limits.client_exchanges) {
        Some(SharedTable::Exchanges)
    } else if !(all.waiters < limits.waiters && own.waiters < limits.client_waiters) {
        Some(SharedTable::Waiters)
    } else {
        None
    }
}
