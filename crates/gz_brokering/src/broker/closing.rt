//! One rule of one journal, and what follows from it.
ghost use Rattle.std.specs.Prelude.{◌≡◌, ◌+◌, IfOk, ℕ};
ghost use Rattle.gz_replica.specs.Member.{Member};
ghost use Rattle.gz_broker.specs.Brokers.{spec_of};
ghost use Rattle.gz_broker.specs.Closing.{by_rule, finished, has_fragment, is_to_put, ruled};
ghost use Rattle.gz_brokering.specs.Rules.{IsWithin, gave, outcome_of};

use super::{Broker, next};
use crate::content::store_put;
use crate::keys::spec_of;
use crate::out::{Out, joined};
use crate::row::{Outstanding, Row};
use crate::rule::Rule;
use gz_label::{Name, NoMemory};
use gz_replica::Part;
use gz_spool::Spool;
use gz_wire::Sends;

impl Broker {
    // Whether there is a fragment's length of bytes from begin to head.
    fn has_fragment(&self, journal: &Name, spool: &Spool) -> Result<bool, NoMemory>
        ensures { IfOk result
            (λ has. has ≡ has_fragment (spec_of journal.now self.now.mirror) spool.now.image) }
    {
        let Some(spec) = spec_of(self.alloc, &self.mirror, journal)? else {
            return Ok(false);
        };
        Ok(spec.fragment_length <= spool.head().saturating_sub(spool.begin()))
    }

    // Whether the head rose at an open part, no put is outstanding, and there is enough for a fragment.
    fn is_to_put(&self, journal: &Name, row: &Row, old_head: u64) -> Result<bool, NoMemory>
        ensures { IfOk result (λ is. is ≡ is_to_put (spec_of journal.now self.now.mirror)
            row.now.member.part old_head row.now) }
    {
        let Part::Open { .. } = row.member.part() else {
            return Ok(false);
        };
        let spool = row.member.spool();
        if spool.head() <= old_head {
            return Ok(false);
        }
        if row.putting.is_some() {
            return Ok(false);
        }
        let has = self.has_fragment(journal, spool)?;
        Ok(has)
    }

    // The answers that the head reached go out, then what the rule sends, then a put, where there is one.
    #[tactic(auto, using(crate::proofs::Ruling::settled, crate::proofs::Ruling::settled_put))]
    fn settle(
        &mut self,
        journal: &Name,
        row: Row,
        old_head: u64,
        requests: u64,
        closings: Sends,
        sends: Sends,
    ) -> Result<Out, NoMemory>
        ensures { IfOk result (λ out. gave self.new out
            ≡ finished self.old journal.now old_head requests closings sends row) }
    {
        let mut row = row;
        let is_to_put = self.is_to_put(journal, &row, old_head)?;
        let answers = row.answers(self.alloc, journal)?;
        let mut all = joined(answers, sends)?;
        if !is_to_put {
            self.rows.put(journal, row)?;
            self.requests = requests;
            return Ok(Out {
                closings,
                sends: all,
            });
        }
        let req = next(requests)?;
        let put = store_put(self.alloc, journal, req, row.member.spool())?;
        all.push(put)?;
        row.putting = Some(Outstanding {
            req,
            end: row.member.spool().head(),
        });
        self.rows.put(journal, row)?;
        self.requests = req;
        Ok(Out {
            closings,
            sends: all,
        })
    }

    // The row obeys the rule, and what follows is done.
    #[tactic(auto, using(crate::proofs::Ruling::applied))]
    fn apply(&mut self, journal: &Name, row: Row, rule: Rule) -> Result<Out, NoMemory>
        requires { IsWithin rule row.member }
        ensures { IfOk result (λ out. gave self.new out ≡ by_rule self.old journal.now row
            (outcome_of journal.now (self.old.requests + 1) row.member rule)) }
    {
        let mut row = row;
        let before = row.member.open_epoch();
        let old_head = row.member.spool().head();
        let req = next(self.requests)?;
        let sent = rule.obey(self.alloc, &mut row.member, journal, req)?;
        let closings = row.close_unless(self.alloc, journal, before)?;
        let Some(requests) = self.requests.checked_add(sent.numbered) else {
            return Err(NoMemory);
        };
        let out = self.settle(journal, row, old_head, requests, closings, sent.sends)?;
        Ok(out)
    }

    /// The journal's member obeys the rule, which may be any but a put. Where its part ends, or opens at another epoch,
    /// all answers that wait go out as closed, and a put to the store is forgotten. At an open part the answers that the
    /// head reached go out, then what the rule sends, and then a put of what is below the head, where the head rose, no
    /// put is outstanding, and it is a fragment's length.
    pub fn ruled(&mut self, journal: &Name, rule: Rule) -> Result<Out, NoMemory>
        requires { (m : Member) → IsWithin rule m }
        ensures { IfOk result (λ out. gave self.new out
            ≡ ruled self.old journal.now (λ req m. outcome_of journal.now req m rule)) }
    {
        let row = self.rows.take(self.alloc, journal)?;
        let out = self.apply(journal, row, rule)?;
        Ok(out)
    }
}
