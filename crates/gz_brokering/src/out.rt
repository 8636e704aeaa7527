//! What a step sends.
ghost use Rattle.std.specs.Prelude.{◌≡◌, ◌++◌, ◌∷◌, [], IfOk, OnOk};
ghost use Rattle.gz_replica.specs.Member.{send};

use gz_label::{Name, NoMemory};
use gz_wire::{Msg, Send, Sends};
use std::alloc::Global;

/// What a step sends: the answers of appends whose primary closed, which go out first, and all else.
#[derive(Debug, Drop)]
pub struct Out {
    pub closings: Sends,
    pub sends: Sends,
}

/// The sends, and behind them the others.
pub fn joined(sends: Sends, more: Sends) -> Result<Sends, NoMemory>
    ensures { IfOk result (λ all. all ≡ sends ++ more) }
{
    let mut items = sends.into_vec();
    let mut behind = more.into_vec();
    items.append(&mut behind)?;
    Ok(Sends::from_vec(items))
}

impl Out {
    /// Nothing is sent. It takes no memory.
    pub fn nothing(alloc: Global) -> Out
        ensures closings { result.closings ≡ [] }
        ensures sends { result.sends ≡ [] }
    {
        Out {
            closings: Sends::new(alloc),
            sends: Sends::new(alloc),
        }
    }

    /// One message is sent.
    pub fn one(alloc: Global, to: Name, msg: Msg) -> Result<Out, NoMemory>
        ensures closings { IfOk result (λ out. out.closings ≡ []) }
        ensures sends { IfOk result (λ out. out.sends ≡ send to msg ∷ []) }
    {
        let mut sends = Sends::new(alloc);
        sends.push(Send { to, msg })?;
        Ok(Out {
            closings: Sends::new(alloc),
            sends,
        })
    }

    /// What another step sends comes behind it, answers of closed parts behind such answers.
    pub fn then(self, more: Out) -> Result<Out, NoMemory>
        ensures closings { IfOk result (λ out. out.closings ≡ self.closings ++ more.closings) }
        ensures sends { IfOk result (λ out. out.sends ≡ self.sends ++ more.sends) }
    {
        let closings = joined(self.closings, more.closings)?;
        let sends = joined(self.sends, more.sends)?;
        Ok(Out { closings, sends })
    }

    /// All of it, in its order.
    pub fn into_sends(self) -> Result<Sends, NoMemory>
        ensures { IfOk result (λ sends. sends ≡ self.closings ++ self.sends) }
    {
        let sends = joined(self.closings, self.sends)?;
        Ok(sends)
    }
}
