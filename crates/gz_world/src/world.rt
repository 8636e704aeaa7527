//! The world.
ghost use Rattle.std.specs.Prelude.{◌≡◌, Ok, None, IfOk, OnOk, IsTrue, option_map};
ghost use Rattle.gz_converge.specs.Converged.{Converges};
ghost use Rattle.gz_links.specs.Joins.{join_of};
ghost use Rattle.gz_scenario.specs.Lawful.{is_start, is_publish, is_apply, is_joiner, is_event};
ghost use Rattle.gz_client.specs.Requests.{request_of};
ghost use Rattle.gz_journal.specs.JournalList.{plain};
ghost use Rattle.gz_registry.specs.Registered.{put_answer};
ghost use Rattle.gz_world.specs.declared.reply.Applied.TheVariants as applied;
ghost use Rattle.gz_world.specs.Starts.{IsSpecified};
ghost use Rattle.gz_world.specs.Worlds.{world_start, refused, refusal_to, answer_to, with_landed, reason_of, replied, told_of, published, registered, judged_apply, with_specs, is_consumer, judged_join, judged_expire, with_registry, keys_say, converged, IsConverge, IsAnswered, settled, done, MayFollow, IsRun, applied_if, applied_unless, applied_of};
ghost use Rattle.gz_world.specs.Run.{with_event, scenario_of};
ghost use Rattle.gz_world.specs.Report.{report_of};

use crate::converge::try_all;
use crate::judge::{is_taken, reason_of};
use crate::reply::{Applied, Reason, Told};
use crate::step::Step;
use crate::{report, start};
use gz_alloc::Placement;
use gz_client::{Answer, refusal, request_of};
use gz_converge::{Converged, KeyView, converge};
use gz_history::History;
use gz_journal::Request;
use gz_keyspace::Joined;
use gz_label::{Blob, Name, NoMemory};
use gz_links::{SpecError, framing_at, join};
use gz_plain::Cluster;
use gz_registry::{Registry, RegistryError};
use gz_scenario::{Event, Join, MemberKind, Publish};
use gz_spec::Specs;
use indexmap::IndexSet;
use std::alloc::Global;
use std::marker::Model;
use std::snapshot::Snapshot;

/// A cluster of plain journals: its specifications, its key space with those who joined, where the last converge placed the
/// journals, the clients that were answered, what was told so far, and its journals and shards. Contracts see beside that
/// the specifications that it began with and all events, each with its line and with what its converge answered; no memory
/// is taken for them. After a call that finds no memory it isn't used again.
#[derive(Drop)]
pub struct World {
    begun: Snapshot<Specs>,
    events: History<Step, Event>,
    specs: Specs,
    registry: Registry,
    goal: Placement,
    clients: IndexSet<Name>,
    told: Vec<Told>,
    cluster: Cluster,
}

impl Model for World {
    ghost use Rattle.gz_world.specs.Worlds.{World as Seen};

    ghost Value = { Seen };

    ghost view = { λ a. record { begun = a.begun.value; events = a.events.items; specs = a.specs; registry = a.registry; goal = a.goal; clients = a.clients.keys; told = a.told.items; cluster = a.cluster } };
}

/// Whether the member is a consumer.
fn is_consumer(kind: MemberKind) -> bool
    ensures { result ≡ is_consumer kind }
{
    match kind {
        MemberKind::Broker => false,
        MemberKind::Consumer => true,
    }
}

impl World {
    /// The world that the specifications start, which are those that a line said.
    pub fn start(alloc: Global, specs: Specs) -> Result<World, NoMemory>
        requires { IsTrue (is_start specs) }
        ensures world { IfOk result (λ world. world ≡ world_start specs) }
        ensures run { IfOk result (λ world. IsRun world) }
    {
        let begun = Snapshot::of(&specs);
        let registry = Registry::start(alloc, &specs)?;
        let cluster = start::start(alloc, &specs)?;
        Ok(World {
            begun,
            events: History::new(),
            specs,
            registry,
            goal: Placement::none(alloc),
            clients: IndexSet::new(alloc),
            told: Vec::new(alloc),
            cluster,
        })
    }

    /// Refuses the event of a line, which is told, and changes nothing else.
    fn refuse(&mut self, line: u64, reason: Reason) -> Result<Applied, NoMemory>
        ensures applied { IfOk result (λ done. done ≡ applied.Refused reason) }
        ensures after { OnOk result (self.new ≡ refused line reason self.old) }
    {
        self.told.push(Told::Refused { line, reason })?;
        Ok(Applied::Refused(reason))
    }

    /// Why the journal isn't asked; None exactly where it is.
    fn refuse_request(&self, publish: &Publish, request: &Request) -> Option<Answer>
        ensures { result ≡ refusal_to request.now publish.now self.now }
    {
        let is_taken = is_taken(&publish.client, &self.registry);
        let framing = framing_at(self.specs.journals.as_slice(), publish.journal.as_slice());
        refusal(is_taken, framing, request.content.len() as u64)
    }

    /// Asks the journal to append the content as an entry of the request's attempt, unless there is something to refuse
    /// before.
    #[tactic(auto, using(crate::proofs::Refusals::refused_lands))]
    fn land(&mut self, publish: &Publish, request: Request) -> Result<Answer, NoMemory>
        requires { request ≡ plain request.attempt request.content }
        ensures answer { IfOk result (λ answer. answer ≡ answer_to request publish.now self.old) }
        ensures landed { OnOk result
            (self.new ≡ with_landed
            (answer_to request publish.now self.old) request publish.now self.old) }
    {
        if let Some(answer) = self.refuse_request(publish, &request) {
            return Ok(answer);
        }
        let Request {
            attempt,
            content,
            ..
        } = request;
        let journal = publish.journal.as_slice();
        let landed = self.cluster.append(journal, attempt, content)?;
        Ok(Answer::Judged(landed))
    }

    /// Tells a client its answer. The client has asked from then on.
    fn reply(&mut self, line: u64, client: &Name, answer: Answer) -> Result<(), NoMemory>
        ensures { OnOk result (self.new ≡ replied line client.now answer self.old) }
    {
        self.clients.insert(client.copy()?)?;
        let client = client.copy()?;
        self.told.push(Told::Replied {
            line,
            client,
            answer,
        })?;
        Ok(())
    }

    /// Tells what became of a publish: the answer, or that the event is refused.
    fn tell(&mut self, line: u64, client: &Name, answer: Answer) -> Result<Applied, NoMemory>
        ensures applied { IfOk result (λ applied. applied ≡ applied_unless (reason_of answer)) }
        ensures told { OnOk result
            (self.new ≡ told_of (reason_of answer) line client.now answer self.old) }
    {
        match reason_of(&answer) {
            Some(reason) => self.refuse(line, reason),
            None => {
                self.reply(line, client, answer)?;
                Ok(Applied::Done)
            }
        }
    }

    fn publish(&mut self, alloc: Global, line: u64, publish: &Publish) -> Result<Applied, NoMemory>
        requires { IsTrue (is_publish publish.now) }
        ensures applied { IfOk result
            (λ applied. applied
            ≡ applied_unless
            (reason_of (answer_to (request_of line publish.now) publish.now self.old))) }
        ensures done { OnOk result (self.new ≡ published line publish.now self.old) }
    {
        let request = request_of(alloc, line, publish)?;
        let answer = self.land(publish, request)?;
        self.tell(line, &publish.client, answer)
    }

    /// Puts more specifications into the key space, where it takes them, and makes the journals and shards those of
    /// all specifications together.
    #[tactic(auto, using(crate::proofs::Ready::apply_valid, crate::proofs::Ready::new_is_rest))]
    fn take_specs(
        &mut self,
        alloc: Global,
        line: u64,
        more: &Specs,
        all: Specs,
    ) -> Result<Applied, NoMemory>
        requires part { IsTrue (is_apply more.now) }
        requires specified { IsSpecified self.old.specs self.old.cluster }
        requires joined { join_of self.old.specs more.now ≡ Ok all }
        ensures applied { IfOk result
            (λ applied. applied
            ≡ applied_if (registered all (put_answer more.now self.old.registry))) }
        ensures after { OnOk result
            (self.new ≡ with_specs line more.now self.old
            (registered all (put_answer more.now self.old.registry))) }
    {
        match self.registry.put(more) {
            Ok(_revision) => {
                let there = start::count_journals(&self.specs);
                start::change(alloc, &mut self.cluster, &all, there)?;
                self.specs = all;
                Ok(Applied::Done)
            }
            Err(RegistryError::NoMemory) => Err(NoMemory),
            Err(RegistryError::KeysEnd) => self.refuse(line, Reason::KeysEnd),
            Err(RegistryError::MembersFull) => self.refuse(line, Reason::MembersFull),
            Err(RegistryError::NoMember) => self.refuse(line, Reason::NoMember),
        }
    }

    /// Adds specifications to those that are there, unless they can't be joined.
    fn add_specs(&mut self, alloc: Global, line: u64, more: &Specs) -> Result<Applied, NoMemory>
        requires part { IsTrue (is_apply more.now) }
        requires specified { IsSpecified self.old.specs self.old.cluster }
        ensures applied { IfOk result
            (λ applied. applied ≡ applied_if (judged_apply self.old more.now)) }
        ensures after { OnOk result
            (self.new ≡ with_specs line more.now self.old (judged_apply self.old more.now)) }
    {
        match join(alloc, &self.specs, more) {
            Ok(all) => self.take_specs(alloc, line, more, all),
            Err(SpecError::NoMemory) => Err(NoMemory),
            Err(_) => self.refuse(line, Reason::BadSpecs),
        }
    }

    /// A member joins, unless its name was used.
    #[tactic(auto, unfolding(gz_scenario::specs::Lawful::is_joiner))]
    fn join(&mut self, line: u64, join: &Join) -> Result<Applied, NoMemory>
        requires { IsTrue (is_joiner join.now.member) }
        ensures applied { IfOk result
            (λ applied. applied ≡ applied_if (judged_join self.old join.now)) }
        ensures after { OnOk result
            (self.new ≡ with_registry line self.old (judged_join self.old join.now)) }
    {
        let id = &join.member.id;
        if is_taken(id, &self.registry) || self.clients.contains(id) {
            return self.refuse(line, Reason::NameUsed);
        }
        let joined = Joined {
            consumer: is_consumer(join.kind),
            spec: join.member.copy()?,
        };
        match self.registry.join(&joined) {
            Ok(_lease) => Ok(Applied::Done),
            Err(RegistryError::NoMemory) => Err(NoMemory),
            Err(RegistryError::KeysEnd) => self.refuse(line, Reason::KeysEnd),
            Err(RegistryError::MembersFull) => self.refuse(line, Reason::MembersFull),
            Err(RegistryError::NoMember) => self.refuse(line, Reason::NoMember),
        }
    }

    /// Ends the lease of a member, where it is live.
    fn expire(&mut self, line: u64, member: &Name) -> Result<Applied, NoMemory>
        ensures applied { IfOk result
            (λ applied. applied ≡ applied_if (judged_expire self.old member.now)) }
        ensures after { OnOk result
            (self.new ≡ with_registry line self.old (judged_expire self.old member.now)) }
    {
        match self.registry.expire(member) {
            Ok(_revision) => Ok(Applied::Done),
            Err(RegistryError::NoMemory) => Err(NoMemory),
            Err(RegistryError::KeysEnd) => self.refuse(line, Reason::KeysEnd),
            Err(RegistryError::MembersFull) => self.refuse(line, Reason::MembersFull),
            Err(RegistryError::NoMember) => self.refuse(line, Reason::NoMember),
        }
    }

    /// Converges the key space: routes and lists of consumers move towards where journals and shards are placed.
    #[tactic(auto, using(crate::proofs::Tries::answer_moves_no_member))]
    fn converge(&mut self, alloc: Global) -> Result<Snapshot<Converged>, NoMemory>
        ensures answer { IfOk result
            (λ answer. Converges (keys_say self.old) self.old.goal answer.value) }
        ensures after { IfOk result (λ answer. self.new ≡ converged answer.value self.old) }
    {
        let view = KeyView::of(alloc, self.registry.keys())?;
        let answer = converge(alloc, &view, &self.goal)?;
        let seen = Snapshot::of(&answer);
        let Converged { txns, goal, .. } = answer;
        try_all(&mut self.registry, txns.as_slice())?;
        self.goal = goal;
        Ok(seen)
    }

    /// Converges the key space, and then lets everything happen that is due.
    fn settle(&mut self, alloc: Global) -> Result<Snapshot<Converged>, NoMemory>
        ensures answer { IfOk result
            (λ answer. Converges (keys_say self.old) self.old.goal answer.value) }
        ensures after { IfOk result
            (λ answer. self.new ≡ settled (converged answer.value self.old)) }
    {
        let answer = self.converge(alloc)?;
        self.cluster.settle(alloc)?;
        Ok(answer)
    }

    /// Does what the event of a line says, and what its converge answered, where it begins with one.
    fn take(
        &mut self,
        alloc: Global,
        line: u64,
        event: &Event,
    ) -> Result<(Applied, Option<Snapshot<Converged>>), NoMemory>
        requires lawful { IsTrue (is_event event.now) }
        requires specified { IsSpecified self.old.specs self.old.cluster }
        ensures applied { IfOk result (λ taken. taken.0 ≡ applied_of line event.now self.old) }
        ensures answered { IfOk result
            (λ taken. IsAnswered (option_map (λ s. s.value) taken.1) event.now self.old) }
        ensures done { IfOk result
            (λ taken. self.new
            ≡ done line (option_map (λ s. s.value) taken.1) event.now self.old) }
    {
        match event {
            Event::Specs(_) => Ok((Applied::Done, None)),
            Event::Publish(publish) => {
                let applied = self.publish(alloc, line, publish)?;
                Ok((applied, None))
            }
            Event::Settle => {
                let answer = self.settle(alloc)?;
                Ok((Applied::Done, Some(answer)))
            }
            Event::Converge => {
                let answer = self.converge(alloc)?;
                Ok((Applied::Done, Some(answer)))
            }
            Event::Apply(more) => {
                let applied = self.add_specs(alloc, line, more)?;
                Ok((applied, None))
            }
            Event::Join(join) => {
                let applied = self.join(line, join)?;
                Ok((applied, None))
            }
            Event::Expire(member) => {
                let applied = self.expire(line, member)?;
                Ok((applied, None))
            }
        }
    }

    /// Does what the event of a line says, which has happened then. A publish is refused or answered, and lands at the end
    /// of its journal where the answer says so; a converge moves routes and lists of consumers towards where journals and
    /// shards are placed; a settle begins with a converge, and lets everything happen that is due. An apply adds journals
    /// and shards, or replaces those of its names, a member joins, and a member's lease ends: each of these tells
    /// nothing, or is refused, which changes nothing else. Specifications change nothing: they start a world. After
    /// NoMemory the world isn't used again.
    pub fn apply(&mut self, alloc: Global, line: u64, event: &Event) -> Result<Applied, NoMemory>
        requires lawful { IsTrue (is_event event.now) }
        requires run { IsRun self.old }
        ensures applied { IfOk result (λ applied. applied ≡ applied_of line event.now self.old) }
        ensures follows { OnOk result (MayFollow line event.now self.old self.new) }
        ensures scenario { OnOk result
            (scenario_of self.new ≡ with_event line event.now (scenario_of self.old)) }
        ensures run { OnOk result (IsRun self.new) }
    {
        let (applied, answer) = self.take(alloc, line, event)?;
        let step = Step::of(line, answer);
        self.events = self.events.and(&step, event);
        Ok(applied)
    }

    /// The report: what was told, in the order of the lines; a line for each journal that is no recovery log,
    /// in name order; and one for each shard, in the order of their ids.
    pub fn report(&self, alloc: Global) -> Result<Blob, NoMemory>
        ensures { IfOk result (λ text. text ≡ report_of self.now) }
    {
        report::print(
            alloc,
            self.told.as_slice(),
            self.specs.journals.as_slice(),
            &self.cluster,
        )
    }
}
