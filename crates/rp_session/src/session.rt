// One side's session.
ghost use Rattle.std.specs.Prelude.{◌≡◌, ℕ, false, true, Some, None, IfOk, OnOk, OnErr, is_some};

use crate::looks::{is_response, tag_of, ticket_of};
use crate::rows::{
    early_posted, fault_if, hello_again, hello_lacks, hello_missing, is_posted, is_posted_kind,
    not_in_common, or_else, second_request, stray_answer, time_backwards, unsupported,
    wrong_answer, wrong_version,
};
use cos_base::{NoMemory, Numbers};
use cosim_model::{Event, OwnRequest, Role, SessionFault, Ticket};
use rp_control::{Caps, Hello, caps_of, common};
use rp_header::Command;
use rp_packet::{Packet, Tag};
use std::alloc::Global;
use std::marker::Model;

/// What one side of a link keeps of the packets that went and came. It holds no list.
#[derive(Clone, Copy)]
pub struct Session {
    role: Role,
    offers: Caps,
    needs: Caps,
    // the number of the next own request
    next: u32,
    common: Caps,
    hello_went: bool,
    hello_came: bool,
    own_sync: Option<OwnRequest>,
    own_other: Option<OwnRequest>,
    peer_sync: Option<Ticket>,
    peer_other: Option<Ticket>,
    // the greatest time of the peer's requests
    peer_time: u64,
    // the packets of this wait, at a machine
    count: u32,
    fault: Option<SessionFault>,
}

impl Model for Session {
    ghost use Rattle.std.specs.Prelude.{◌≡◌, false};
    ghost use Rattle.cosim_model.specs.Values.{no_caps};
    ghost use Rattle.cosim_model.specs.Sessions.{Session as SessionValue};

    ghost Value = { SessionValue };

    ghost view = { λ s. record {
      role = s.role;
      offers = s.offers;
      needs = s.needs;
      next = s.next;
      common = s.common;
      hello_went = s.hello_went;
      hello_came = s.hello_came;
      own_sync = s.own_sync;
      own_other = s.own_other;
      peer_sync = s.peer_sync;
      peer_other = s.peer_other;
      peer_time = s.peer_time;
      count = s.count;
      fault = s.fault;
    } };

    // nothing is in common before the peer's hello
    ghost invariant = { λ s. s.hello_came ≡ false → s.common ≡ no_caps };

    ghost inverse = { λ s. record {
      role = s.role;
      offers = s.offers;
      needs = s.needs;
      next = s.next;
      common = s.common;
      hello_went = s.hello_went;
      hello_came = s.hello_came;
      own_sync = s.own_sync;
      own_other = s.own_other;
      peer_sync = s.peer_sync;
      peer_other = s.peer_other;
      peer_time = s.peer_time;
      count = s.count;
      fault = s.fault;
    } };
}

/// How many packets a machine takes in a wait.
const MOST: u32 = 8191;

/// The flag of an answer.
const RESPONSE: u32 = 2;

/// The flag of a request that has no answer.
const POSTED: u32 = 4;

const NONE: Caps = Caps {
    base: false,
    enables: false,
    posted: false,
};

impl Session {
    ghost use Rattle.cosim_model.specs.Values.{no_caps};
    ghost use Rattle.cosim_model.specs.Packets.{Body, command_of, is_response as is_answer};
    ghost use Rattle.cosim_model.specs.Sessions.{fresh_session, begin_wait, hello_of, hello_sent, request_sent, take_packet, flood, outstanding_request, fault_of, counted, event_of};
    ghost use Rattle.rp_packet.specs.Values.{value_of};
    ghost use Rattle.rp_session.specs.Tags.{own_of_kind, peer_of_kind, answered, is_posted_kind, requested, IsRequestTag, IsAnswerTag, AsksOf};
    ghost use Rattle.rp_session.specs.Rows.{hello_rows, answer_rows, request_rows, other_event};

    /// A session in which nothing went or came. `first` is the number of its hello; its requests go on from there.
    pub fn make(role: Role, offer: Caps, needs: Caps, first: u32) -> Session
        ensures { result ≡ record (fresh_session role offer needs) { next = first } }
    {
        Session {
            role,
            offers: offer,
            needs,
            next: first,
            common: NONE,
            hello_went: false,
            hello_came: false,
            own_sync: None,
            own_other: None,
            peer_sync: None,
            peer_other: None,
            peer_time: 0,
            count: 0,
            fault: None,
        }
    }

    /// Starts the count of a wait for the peer at 0.
    pub fn begin_wait(&mut self)
        ensures { self.new ≡ begin_wait self.old }
    {
        self.count = 0;
    }

    /// The capabilities that both sides have; none before the peer's hello.
    pub fn common(&self) -> Caps
        ensures value { result ≡ self.now.common }
        ensures early { self.now.hello_came ≡ false → result ≡ no_caps }
    {
        self.common
    }

    /// Whether the own hello was sent.
    pub fn has_greeted(&self) -> bool
        ensures { result ≡ self.now.hello_went }
    {
        self.hello_went
    }

    /// Whether the peer's hello came.
    pub fn has_met(&self) -> bool
        ensures { result ≡ self.now.hello_came }
    {
        self.hello_came
    }

    /// Whether an own sync was sent that isn't answered.
    pub fn awaits_sync(&self) -> bool
        ensures { result ≡ is_some self.now.own_sync }
    {
        self.own_sync.is_some()
    }

    /// What the session offers.
    pub fn offer(&self) -> Caps
        ensures { result ≡ self.now.offers }
    {
        self.offers
    }

    /// The own hello. It takes the number that `make` was given.
    pub fn hello(&mut self, alloc: Global) -> Result<Packet, NoMemory>
        requires { self.old.hello_went ≡ false }
        ensures packet { IfOk result (λ p. value_of p ≡ hello_of self.old) }
        ensures ok { OnOk result (self.new ≡ hello_sent self.old) }
        ensures err { OnErr result (self.new ≡ self.old) }
    {
        let mut caps = Numbers::make(alloc);
        if self.offers.base {
            caps.push(1)?;
        }
        if self.offers.enables {
            caps.push(2)?;
        }
        if self.offers.posted {
            caps.push(3)?;
        }
        let tag = Tag {
            id: self.next,
            flags: 0,
            dev: 0,
        };
        let hello = Hello {
            major: 4,
            minor: 3,
            caps,
        };
        self.next = self.next.wrapping_add(1);
        self.hello_went = true;
        Ok(Packet::Hello(tag, hello))
    }

    /// The tag of an own request. `posted` says that it is sent as one that wants no answer. A read or sync has an answer
    /// all the same, and an interrupt has none without capability 3 in common. A request without an answer is numbered too.
    /// `len` is the number of bytes that a read asks for.
    pub fn request(&mut self, kind: Command, posted: bool, len: u32) -> Tag
        requires greeted { self.old.hello_went ≡ true }
        requires free { is_posted_kind self.old.common posted kind ≡ false → own_of_kind self.old kind ≡ None }
        ensures tag { IsRequestTag self.old posted result }
        ensures session { self.new ≡ requested self.old (is_posted_kind self.old.common posted kind) kind len }
        ensures sent { (b : Body) → command_of b ≡ kind → self.new ≡ request_sent self.old posted b len }
    {
        let id = self.next;
        let own = OwnRequest { cmd: kind, id, len };
        self.next = id.wrapping_add(1);
        if !is_posted_kind(self.common, posted, kind) {
            match kind {
                Command::Sync => self.own_sync = Some(own),
                _ => self.own_other = Some(own),
            }
        }
        Tag {
            id,
            flags: if posted { POSTED } else { 0 },
            dev: 0,
        }
    }

    /// The tag of the answer to a request of the peer.
    pub fn answer(&mut self, ticket: Ticket) -> Tag
        requires { peer_of_kind self.old ticket.cmd ≡ Some ticket }
        ensures tag { IsAnswerTag ticket result }
        ensures sent { self.new ≡ answered self.old ticket.cmd }
    {
        match ticket.cmd {
            Command::Sync => self.peer_sync = None,
            _ => self.peer_other = None,
        }
        Tag {
            id: ticket.id,
            flags: if is_response(ticket.flags) {
                ticket.flags
            } else {
                ticket.flags + RESPONSE
            },
            dev: ticket.dev,
        }
    }

    /// Takes a packet of the peer: what it means now, or the first fault that applies. A fault is kept, and each later
    /// packet has it too. It takes no memory.
    pub fn take(&mut self, packet: &Packet) -> Result<Event, SessionFault>
        ensures session { self.new ≡ (take_packet self.old (value_of packet.now)).0 }
        ensures event { result ≡ (take_packet self.old (value_of packet.now)).1 }
        ensures asked { IfOk result (AsksOf self.new) }
    {
        if let Some(fault) = self.fault {
            return Err(fault);
        }
        match self.refusal(packet) {
            Some(fault) => {
                self.fault = Some(fault);
                Err(fault)
            }
            None => {
                self.count_packet();
                Ok(self.accept(packet))
            }
        }
    }

    /// At a machine: the 8,192nd packet of a wait.
    fn flood(&self) -> Option<SessionFault>
        ensures { result ≡ flood self.now }
    {
        match self.role {
            Role::Machine => fault_if(
                self.count >= MOST,
                SessionFault::Flood {
                    count: u64::from(self.count) + 1,
                },
            ),
            Role::Device => None,
        }
    }

    /// The own request of the packet's class that awaits its answer.
    fn outstanding_request(&self, packet: &Packet) -> Option<OwnRequest>
        ensures { result ≡ outstanding_request self.now (value_of packet.now).body }
    {
        match packet {
            Packet::Sync(..) => self.own_sync,
            Packet::Nop(_) => self.own_other,
            Packet::Hello(..) => self.own_other,
            Packet::Cfg(..) => self.own_other,
            Packet::Read(..) => self.own_other,
            Packet::Write(..) => self.own_other,
            Packet::Interrupt(..) => self.own_other,
        }
    }

    /// The rows on hellos.
    fn hello_refusal(&self, packet: &Packet) -> Option<SessionFault>
        ensures { result ≡ hello_rows self.now (value_of packet.now) }
    {
        let lacking = hello_lacks(self.needs, packet);
        let version = or_else(wrong_version(packet), lacking);
        let again = or_else(hello_again(self.hello_came, packet), version);
        or_else(hello_missing(self.hello_came, packet), again)
    }

    /// The rows on commands and answers.
    fn answer_refusal(&self, packet: &Packet) -> Option<SessionFault>
        ensures { result ≡ answer_rows self.now (value_of packet.now) }
    {
        let wrong = wrong_answer(self.own_other, packet);
        let stray = or_else(
            stray_answer(self.outstanding_request(packet), packet),
            wrong,
        );
        or_else(unsupported(self.role, packet), stray)
    }

    /// The rows on requests.
    fn request_refusal(&self, packet: &Packet) -> Option<SessionFault>
        ensures { result ≡ request_rows self.now (value_of packet.now) }
    {
        let second = second_request(self.common, self.peer_sync, self.peer_other, packet);
        let early = or_else(
            early_posted(self.role, self.common, self.own_sync, packet),
            second,
        );
        let late = or_else(time_backwards(self.peer_time, packet), early);
        or_else(not_in_common(self.common, packet), late)
    }

    /// The first fault that applies.
    fn refusal(&self, packet: &Packet) -> Option<SessionFault>
        ensures { result ≡ fault_of self.now (value_of packet.now) }
    {
        let requests = self.request_refusal(packet);
        let answers = or_else(self.answer_refusal(packet), requests);
        let hellos = or_else(self.hello_refusal(packet), answers);
        or_else(self.flood(), hellos)
    }

    /// Counts a packet of a wait.
    fn count_packet(&mut self)
        requires { flood self.old ≡ None }
        ensures { self.new ≡ record self.old { count = counted self.old.role self.old.count } }
    {
        match self.role {
            Role::Machine => self.count += 1,
            Role::Device => {}
        }
    }

    /// What a packet that is no fault means.
    fn accept(&mut self, packet: &Packet) -> Event
        ensures session { self.new ≡ (event_of self.old (value_of packet.now) (is_answer (value_of packet.now)) (value_of packet.now).body).0 }
        ensures event { result ≡ (event_of self.old (value_of packet.now) (is_answer (value_of packet.now)) (value_of packet.now).body).1 }
    {
        let response = is_response(tag_of(packet).flags);
        let posted = is_posted(self.common, packet);
        let ticket = ticket_of(packet);
        match packet {
            Packet::Nop(_) => Event::Nothing,
            Packet::Cfg(..) => Event::Nothing,
            Packet::Hello(_, hello) => {
                self.hello_came = true;
                self.common = common(caps_of(hello), self.offers);
                Event::Met
            }
            Packet::Sync(_, sync) => {
                if response {
                    self.own_sync = None;
                    return Event::SyncDone;
                }
                self.peer_time = sync.time;
                self.peer_sync = Some(ticket);
                Event::Asked(ticket)
            }
            Packet::Read(_, bus) => self.accept_other(response, posted, bus.time, ticket),
            Packet::Write(_, bus) => self.accept_other(response, posted, bus.time, ticket),
            Packet::Interrupt(_, interrupt) => {
                self.accept_other(response, posted, interrupt.time, ticket)
            }
        }
    }

    /// What an access or an interrupt means, or its answer.
    fn accept_other(&mut self, response: bool, posted: bool, time: u64, ticket: Ticket) -> Event
        ensures session { self.new ≡ (other_event self.old response posted time ticket).0 }
        ensures event { result ≡ (other_event self.old response posted time ticket).1 }
    {
        if response {
            self.own_other = None;
            return Event::Answered;
        }
        self.peer_time = time;
        if posted {
            return Event::Told;
        }
        self.peer_other = Some(ticket);
        Event::Asked(ticket)
    }
}
