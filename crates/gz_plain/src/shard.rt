//! A shard, and its step.
ghost use Rattle.std.specs.Prelude.{◌≡◌, ◌+◌, ◌<◌, ◌^◌, ◌++◌, length, true, nat_lt, IfOk, OnOk};
ghost use Rattle.gz_promise.specs.Applications.{folded, emitted};
ghost use Rattle.gz_plain.specs.Places.{ArePlaced, names_of};
ghost use Rattle.gz_plain.specs.Readers.{AreRead, HaveRoom, accepted_all, all_news};
ghost use Rattle.gz_plain.specs.Running.{IsCommitted, IsKept, read_further, read_up};
ghost use Rattle.gz_promise.specs.Names.{Distinct};
ghost use Rattle.gz_plain.specs.Seen.{shard_of};
ghost use Rattle.gz_plain.specs.Shards.{has_room, journals_after, stepped, untaken};

use crate::journals::Journals;
use crate::past::Past;
use crate::reader::Readers;
use crate::writer::{Writer, write_commit};
use gz_app::{App, AppKind, Outputs, State};
use gz_frame::{Message, Messages};
use gz_label::{Attempt, Name, NoMemory};
use gz_uuid::Producer;
use std::alloc::Global;
use std::marker::Model;

/// The offsets of a commit, one for each source, which a contract sees as their list.
#[derive(Debug, Drop)]
pub struct Offsets {
    offsets: Vec<u64>,
}

impl Model for Offsets {
    ghost use Rattle.std.specs.Prelude.{List, ℕ};

    ghost Value = { List ℕ };

    ghost view = { λ a. a.offsets.items };
}

impl Offsets {
    /// These offsets. It takes no memory.
    pub fn new(offsets: Vec<u64>) -> Offsets
        ensures { result ≡ offsets.items }
    {
        Offsets { offsets }
    }

    /// The offsets. It takes no memory.
    pub fn as_slice(&self) -> &[u64]
        ensures { result.now ≡ self.now }
    {
        self.offsets.as_slice()
    }
}

/// What a shard keeps.
#[derive(Drop)]
pub struct Shard {
    /// 1 to 32 letters, digits, `_` or `-`.
    pub id: Name,
    /// The prefix of its recovery log.
    pub log: Name,
    /// The producer of its lines, with the last clock.
    pub producer: Producer,
    /// A reader for each source.
    pub readers: Readers,
    /// A writer for each output.
    pub writers: Vec<Writer>,
    /// Its application.
    pub app: AppKind,
    /// Whether it takes no steps.
    pub is_disabled: bool,
    /// What earlier definitions left it; none where it keeps the one that it began with.
    pub past: Option<Past>,
    /// The offsets of its commits.
    pub commits: Vec<Offsets>,
    /// How many messages its commits have read.
    pub messages: u64,
    /// The application's state.
    pub store: State,
}

/// A shard after a step, and whether the step did nothing.
#[derive(Drop)]
pub struct Stepped {
    pub shard: Shard,
    pub is_quiet: bool,
}

/// Takes the messages, one after another, and answers what the application emits.
fn consume(
    alloc: Global,
    app: AppKind,
    messages: &[Message],
    store: &mut State,
) -> Result<Outputs, NoMemory>
    ensures outputs { IfOk result (λ outputs. outputs ≡ emitted app store.old messages.now) }
    ensures store { OnOk result (store.new ≡ folded app store.old messages.now) }
{
    let mut outputs = Outputs::new(alloc);
    for message in messages {
        if let Some(output) = app.consume(alloc, store, message)? {
            outputs.push(output)?;
        }
    }
    Ok(outputs)
}

/// The sum of the counts. More than 2^64 messages fit no memory.
pub fn sum(count: u64, more: usize) -> Result<u64, NoMemory>
    ensures { IfOk result (λ total. total ≡ count + more) }
{
    match count.checked_add(more as u64) {
        Some(total) => Ok(total),
        None => Err(NoMemory),
    }
}

impl Shard {
    /// Reads on, and puts the messages that are released behind the others.
    fn read_on(
        self,
        alloc: Global,
        journals: &Journals,
        messages: &mut Messages,
    ) -> Result<Shard, NoMemory>
        requires { AreRead journals.now self.readers }
        ensures shard { IfOk result (λ shard. shard ≡ read_further journals.now self) }
        ensures messages { OnOk result
            (messages.new ≡ messages.old ++ all_news journals.now self.readers) }
        ensures room { IfOk result (λ shard. HaveRoom (accepted_all shard.readers)) }
    {
        let readers = self.readers.read_on(alloc, journals, messages)?;
        Ok(Shard { readers, ..self })
    }

    /// What was read counts.
    fn accept(self, alloc: Global) -> Result<Shard, NoMemory>
        ensures { IfOk result (λ shard. shard ≡ read_up self) }
    {
        let readers = self.readers.accept(alloc)?;
        Ok(Shard { readers, ..self })
    }

    /// Whether there are clocks for what so many messages emit, and for the ACK.
    fn has_room(&self, count: usize) -> bool
        ensures { result ≡ nat_lt (self.now.producer.last + count + 1) (2 ^ 64) }
    {
        (count as u64) < u64::MAX - self.producer.last().value()
    }

    /// Takes the messages as one commit: the application consumes them, what it emits is written as a transaction, and
    /// what was read counts.
    #[tactic(auto, using(crate::proofs::Steps::few_out))]
    fn commit(
        self,
        alloc: Global,
        messages: &[Message],
        journals: &mut Journals,
    ) -> Result<Shard, NoMemory>
        requires names { Distinct (names_of journals.old) }
        requires places { ArePlaced journals.old self.writers.items }
        requires clocks { self.producer.last + length messages.now + 1 < 2 ^ 64 }
        requires ends { HaveRoom (accepted_all self.readers) }
        ensures journals { OnOk result
            (journals.new
            ≡ journals_after (shard_of self)
            (emitted self.app self.store messages.now) journals.old) }
        ensures shard { IfOk result (λ shard. IsCommitted self messages.now shard) }
    {
        let Shard {
            id,
            log,
            mut producer,
            readers,
            writers,
            app,
            is_disabled,
            past,
            mut commits,
            messages: count,
            mut store,
        } = self;
        let outputs = consume(alloc, app, messages, &mut store)?;
        let attempt = Attempt {
            node: id.copy()?,
            req: commits.len() as u64 + 1,
        };
        write_commit(
            alloc,
            &attempt,
            &mut producer,
            &outputs,
            writers.as_slice(),
            journals,
        )?;
        let readers = readers.accept(alloc)?;
        let offsets = readers.ends(alloc)?;
        commits.push(Offsets { offsets })?;
        let messages = sum(count, messages.len())?;
        Ok(Shard {
            id,
            log,
            producer,
            readers,
            writers,
            app,
            is_disabled,
            past,
            commits,
            messages,
            store,
        })
    }

    /// The plain step: all messages that are released and not yet taken are one commit. A disabled shard takes none, and
    /// none are taken where there are too few clocks for what is emitted.
    pub fn step(self, alloc: Global, journals: &mut Journals) -> Result<Stepped, NoMemory>
        requires names { Distinct (names_of journals.old) }
        requires kept { IsKept journals.old self }
        ensures step { IfOk result
            (λ after. record { journals = journals.new; shard = shard_of after.shard }
            ≡ stepped journals.old (shard_of self)) }
        ensures kept { IfOk result (λ after. IsKept journals.new after.shard) }
        ensures quiet { IfOk result
            (λ after. after.is_quiet ≡ true →
            stepped journals.old (shard_of self)
            ≡ record { journals = journals.old; shard = shard_of self }) }
    {
        if self.is_disabled {
            return Ok(Stepped {
                shard: self,
                is_quiet: true,
            });
        }
        let mut messages = Messages::new(alloc);
        let shard = self.read_on(alloc, journals, &mut messages)?;
        let messages = messages.as_slice();
        if messages.is_empty() {
            let shard = shard.accept(alloc)?;
            return Ok(Stepped {
                shard,
                is_quiet: true,
            });
        }
        if !shard.has_room(messages.len()) {
            return Ok(Stepped {
                shard,
                is_quiet: true,
            });
        }
        let shard = shard.commit(alloc, messages, journals)?;
        Ok(Stepped {
            shard,
            is_quiet: false,
        })
    }
}
