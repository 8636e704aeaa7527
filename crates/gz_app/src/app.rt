//! The applications.
ghost use Rattle.std.specs.Prelude.{◌≡◌, ◌+◌, ◌≤◌, ◌^◌, length, string_bytes, decimal, IfOk, OnErr, OnOk, Some, None};
ghost use Rattle.gz_app.specs.States.{number_at};
ghost use Rattle.gz_app.specs.Applications.{Effect, raised, effect_of, app_named, count_effect, relay_effect, latest_effect};

use crate::output::Output;
use crate::state::{Kept, State, Text};
use gz_frame::Message;
use gz_label::{Name, NoMemory};
use std::alloc::Global;

/// What takes messages. Its law: the state after a message and what is emitted are a function of the state
/// before and the message.
pub trait App {
    ghost use Rattle.gz_app.specs.States.{State as Keys};
    ghost use Rattle.gz_app.specs.Applications.{Effect};
    ghost use Rattle.gz_frame.specs.Messages.{Message as Seen};

    ghost effect: { Self → Keys → Seen → Effect };

    /// Takes the message: changes the state, and answers what is emitted. After NoMemory the state is as it was.
    fn consume(
        &self,
        alloc: Global,
        state: &mut State,
        message: &Message,
    ) -> Result<Option<Output>, NoMemory>
        ensures output { IfOk result
            (λ output. output ≡ (effect self.now state.old message.now).output) }
        ensures state { OnOk result (state.new ≡ (effect self.now state.old message.now).state) }
        ensures err { OnErr result (state.new ≡ state.old) };
}

/// Raises the number of each message's key, which is 0 where the key is absent or has a text and stays at
/// 2^64 - 1, and emits the key with the number in decimal.
#[derive(Clone, Copy, Debug, PartialEq, Eq)]
pub struct Count;

/// Keeps no state, and emits each message's key and value.
#[derive(Clone, Copy, Debug, PartialEq, Eq)]
pub struct Relay;

/// Keeps the last value of each key, and emits nothing.
#[derive(Clone, Copy, Debug, PartialEq, Eq)]
pub struct Latest;

/// One of the applications.
#[derive(Clone, Copy, Debug, PartialEq, Eq)]
pub enum AppKind {
    Count,
    Relay,
    Latest,
}

/// An output of the key, with the number in decimal.
#[tactic(auto, using(crate::proofs::Floats::short_decimal))]
fn counted(alloc: Global, key: &str, number: u64) -> Result<Output, NoMemory>
    requires { length key.now ≤ 256 }
    ensures { IfOk result (λ output. output ≡ record { key = key.now; value = decimal number }) }
{
    let key = String::from_str(alloc, key)?;
    let value = format!(in alloc; "{number}")?;
    Ok(Output::new(key, value))
}

impl App for Count {
    ghost use Rattle.gz_app.specs.Applications.{count_effect};

    ghost effect = { λ _. count_effect };

    fn consume(
        &self,
        alloc: Global,
        state: &mut State,
        message: &Message,
    ) -> Result<Option<Output>, NoMemory> {
        let key = message.key();
        let name = Name::of(alloc, key)?;
        let number = state.number(&name).saturating_add(1);
        let output = counted(alloc, key, number)?;
        state.keep(name, Kept::Number(number))?;
        Ok(Some(output))
    }
}

impl App for Relay {
    ghost use Rattle.gz_app.specs.Applications.{relay_effect};

    ghost effect = { λ _. relay_effect };

    fn consume(
        &self,
        alloc: Global,
        _state: &mut State,
        message: &Message,
    ) -> Result<Option<Output>, NoMemory> {
        let key = String::from_str(alloc, message.key())?;
        let value = String::from_str(alloc, message.value())?;
        Ok(Some(Output::new(key, value)))
    }
}

impl App for Latest {
    ghost use Rattle.gz_app.specs.Applications.{latest_effect};

    ghost effect = { λ _. latest_effect };

    fn consume(
        &self,
        alloc: Global,
        state: &mut State,
        message: &Message,
    ) -> Result<Option<Output>, NoMemory> {
        let name = Name::of(alloc, message.key())?;
        let text = Text::of(alloc, message.value())?;
        state.keep(name, Kept::Text(text))?;
        Ok(None)
    }
}

impl App for AppKind {
    ghost use Rattle.gz_app.specs.Applications.{effect_of};

    ghost effect = { effect_of };

    fn consume(
        &self,
        alloc: Global,
        state: &mut State,
        message: &Message,
    ) -> Result<Option<Output>, NoMemory> {
        match self {
            AppKind::Count => Count.consume(alloc, state, message),
            AppKind::Relay => Relay.consume(alloc, state, message),
            AppKind::Latest => Latest.consume(alloc, state, message),
        }
    }
}

/// The application of this name. None exactly where it is none of `count`, `relay` and `latest`.
pub fn app_of(name: &Name) -> Option<AppKind>
    ensures { result ≡ app_named name.now }
{
    let name = name.as_str();
    if name == "count" {
        Some(AppKind::Count)
    } else if name == "relay" {
        Some(AppKind::Relay)
    } else if name == "latest" {
        Some(AppKind::Latest)
    } else {
        None
    }
}
